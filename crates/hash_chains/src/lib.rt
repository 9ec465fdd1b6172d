//! An index of slots by their hash: chains of buckets, linked by the numbers of the slots.
//!
//! Means: the list of the slots' hashes, and how many slots can be added without taking memory. A slot's node is one
//! more than its number. Each bucket's chain leads from its last slot down to its first; node 0 ends it.
//! Above: `last_with` and `next_with` find every slot of a hash, the last one first.
//! Refuses: `new` and `make_room` for want of memory alone, and then each slot keeps its hash.
//! Not promised: how many buckets there are.
#![tactic(auto)]

ghost use Rattle.std.specs.Prelude.{◌≡◌, ◌≢◌, ℕ, ◌+◌, ◌-◌, ◌<◌, ◌≤◌, ◌^◌, List, [], ◌∷◌, ◌++◌, length, slice_index};
ghost use Rattle.std.specs.Prelude.{slice_set, OnOk, OnErr, IfOk};
ghost use Rattle.hash_chains.specs.Index.{indexed, LastBelow, LastWith};
ghost use Rattle.hash_chains.specs.Chained.{IsIndex, IsIndexBut, hash_of, hashes_of, bucket_of, bucket, head_of};

pub mod links;

use links::{Chain, bucket_at, hash_at, next_at, set_hash, set_head, set_next};
use std::alloc::{AllocError, Global};
use std::marker::Model;

/// Finds slots by their hash. A slot's node is one more than its number, and node 0 stands for none.
#[derive(Drop)]
pub struct HashChains {
    heads: Vec<u32>,
    slots: Vec<Chain>,
    alloc: Global,
}

impl Model for HashChains {
    ghost use Rattle.std.specs.Prelude.{ℕ, ◌-◌, vec_capacity, vec_len};
    ghost use Rattle.hash_chains.specs.Index.{Index, indexed};

    ghost Value = { Index };

    ghost use Rattle.hash_chains.specs.Chained.{hashes_of, IsIndex};

    ghost view = { λ t. indexed (hashes_of t.slots.items) (vec_capacity t.slots - vec_len t.slots) };

    ghost invariant = { λ t. IsIndex t.heads.items t.slots.items };
}

/// The last node with this hash, from a node of its chain on.
fn find_from(heads: &Vec<u32>, slots: &Vec<Chain>, start: u32, hash: u32) -> u32
    requires index { IsIndex heads.now.items slots.now.items }
    requires within { start ≤ length slots.now.items }
    requires here { 0 < start → bucket_of heads.now.items slots.now.items (start - 1)
        ≡ bucket (length heads.now.items) hash }
    ensures { LastBelow (hash_of slots.now.items) hash start result }
{
    let mut node = start;
    while node != 0 {
        if hash_at(slots, node) == hash {
            return node;
        }
        node = next_at(slots, node);
    }
    node
}

/// Takes a slot out of its chain.
fn unlink(heads: &mut Vec<u32>, slots: &mut Vec<Chain>, node: u32)
    requires index { IsIndex heads.old.items slots.old.items }
    requires some { 0 < node }
    requires within { node ≤ length slots.old.items }
    ensures index { IsIndexBut heads.new.items slots.new.items (node - 1) }
    ensures hashes { hashes_of slots.new.items ≡ hashes_of slots.old.items }
    ensures len { length slots.new.items ≡ length slots.old.items }
    ensures capacity { slots.new.cap ≡ slots.old.cap }
{
    let bucket = bucket_at(heads, hash_at(slots, node));
    let after = next_at(slots, node);
    let head = heads[bucket];
    if head == node {
        set_head(heads, bucket, after);
        return;
    }
    let mut above = head;
    while next_at(slots, above) != node {
        above = next_at(slots, above);
    }
    set_next(slots, above, after);
}

/// Puts a slot that is in no chain into that of the hash.
fn link(heads: &mut Vec<u32>, slots: &mut Vec<Chain>, node: u32, hash: u32)
    requires index { IsIndexBut heads.old.items slots.old.items (node - 1) }
    requires some { 0 < node }
    requires within { node ≤ length slots.old.items }
    ensures index { IsIndex heads.new.items slots.new.items }
    ensures hashes { hashes_of slots.new.items ≡ slice_set (hashes_of slots.old.items) (node - 1) hash }
    ensures len { length slots.new.items ≡ length slots.old.items }
    ensures capacity { slots.new.cap ≡ slots.old.cap }
{
    let bucket = bucket_at(heads, hash);
    let head = heads[bucket];
    if head < node {
        set_hash(slots, node, hash);
        set_next(slots, node, head);
        set_head(heads, bucket, node);
        return;
    }
    let mut above = head;
    while next_at(slots, above) >= node {
        above = next_at(slots, above);
    }
    let after = next_at(slots, above);
    set_hash(slots, node, hash);
    set_next(slots, node, after);
    set_next(slots, above, node);
}

/// Builds all chains anew.
fn rebuild(heads: &mut Vec<u32>, slots: &mut Vec<Chain>)
    requires some { 0 < length heads.old.items }
    requires few { length slots.old.items < 2 ^ 32 }
    requires zero { (b : ℕ) → head_of heads.old.items b ≡ 0 }
    ensures index { IsIndex heads.new.items slots.new.items }
    ensures hashes { hashes_of slots.new.items ≡ hashes_of slots.old.items }
    ensures len { length slots.new.items ≡ length slots.old.items }
    ensures capacity { slots.new.cap ≡ slots.old.cap }
{
    let count = slots.len() as u32;
    for i in 0..count {
        let bucket = bucket_at(heads, hash_at(slots, i + 1));
        set_next(slots, i + 1, heads[bucket]);
        set_head(heads, bucket, i + 1);
    }
}

impl HashChains {
    /// No slot is there.
    pub fn new(alloc: Global) -> Result<HashChains, AllocError>
        ensures { IfOk result (λ t. t.hashes ≡ []) }
    {
        let heads = vec![in alloc; 0u32; 16]?;
        Ok(HashChains {
            heads,
            slots: Vec::new(alloc),
            alloc,
        })
    }

    /// How many slots there are.
    pub fn len(&self) -> usize
        ensures { result ≡ length self.now.hashes }
    {
        self.slots.len()
    }

    /// The node of the last slot with this hash, or 0.
    pub fn last_with(&self, hash: u32) -> u32
        ensures { LastWith self.now.hashes hash (length self.now.hashes) result }
    {
        let start = self.heads[bucket_at(&self.heads, hash)];
        find_from(&self.heads, &self.slots, start, hash)
    }

    /// The node of the last slot before this one with the same hash, or 0.
    pub fn next_with(&self, node: u32) -> u32
        requires some { 0 < node }
        requires within { node ≤ length self.now.hashes }
        ensures { LastWith self.now.hashes (slice_index self.now.hashes (node - 1))
            (node - 1) result }
    {
        let hash = hash_at(&self.slots, node);
        find_from(&self.heads, &self.slots, next_at(&self.slots, node), hash)
    }

    /// Sees to room for one slot, and to enough buckets.
    pub fn make_room(&mut self) -> Result<(), AllocError>
        ensures room { OnOk result (1 ≤ self.new.room) }
        ensures hashes { self.new.hashes ≡ self.old.hashes }
    {
        self.slots.reserve(1)?;
        if self.slots.len() >= self.heads.len() && self.heads.len() <= 0x7fff_ffff {
            let mut heads = vec![in self.alloc; 0u32; 2 * self.heads.len()]?;
            rebuild(&mut heads, &mut self.slots);
            self.heads = heads;
        }
        Ok(())
    }

    /// Adds a slot.
    pub fn push(&mut self, hash: u32)
        requires room { 1 ≤ self.old.room }
        requires few { length self.old.hashes + 1 < 2 ^ 32 }
        ensures hashes { self.new.hashes ≡ self.old.hashes ++ hash ∷ [] }
        ensures room { self.old.room ≤ self.new.room + 1 }
    {
        let bucket = bucket_at(&self.heads, hash);
        let next = self.heads[bucket];
        match self.slots.push(Chain { hash, next }) {
            Ok(()) => {}
            Err(_) => unreachable!(),
        }
        let node = self.slots.len() as u32;
        set_head(&mut self.heads, bucket, node);
    }

    /// Gives a slot another hash.
    pub fn replace(&mut self, node: u32, hash: u32)
        requires some { 0 < node }
        requires within { node ≤ length self.old.hashes }
        ensures { self.new ≡ indexed (slice_set self.old.hashes (node - 1) hash) self.old.room }
    {
        unlink(&mut self.heads, &mut self.slots, node);
        link(&mut self.heads, &mut self.slots, node, hash);
    }
}
