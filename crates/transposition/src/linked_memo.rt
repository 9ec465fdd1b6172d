//! A memo in one table, whose slots are linked by index.

ghost use Rattle.std.specs.Prelude.{◌≡◌, ◌≢◌, ◌+◌, ◌-◌, ◌<◌, ◌≤◌, ◌^◌, ◌⊎◌, true, false, [], ◌++◌, ◌∷◌, length, take};
ghost use Rattle.std.specs.Prelude.{nat_le, slice_index, slice_index_or, IfOk, IsOk, OnOk, OnErr, ℕ, Contains};
ghost use Rattle.std.specs.Prelude.{vec_capacity, vec_len};
ghost use Rattle.transposition.specs.Memo.{HoldsEachKeyOnce, LeavesLast};
ghost use Rattle.transposition.specs.Table.{hash32, IsTable, flag_at, keys_at, spare_of};

use crate::{Known, Memo, NoMemory};
use hash_chains::HashChains;
use recency::Recency;
use std::alloc::{AllocError, Global};
use std::hash::{BuildHasher, BuildHasherDefault, FoldHasher, Hash, Hasher};

/// A memo in one table. A node is one more than the place of its key.
#[derive(Drop)]
pub struct LinkedMemo<K: Eq + Hash> {
    keys: Vec<K>,
    chains: HashChains,
    order: Recency,
    // whether a node is live
    flags: Vec<bool>,
    // the live nodes in order of entry, and then the free ones
    path: Vec<u32>,
    depth: usize,
    capacity: usize,
    hasher: BuildHasherDefault<FoldHasher>,
    ghost table: { IsTable (hash32 K.hash_input hasher) keys.items chains.hashes order.order
        order.nodes flags.items path.items depth capacity },
    ghost once: { HoldsEachKeyOnce K.eq (keys_at keys.items (take depth path.items))
        (keys_at keys.items order.order) },
}

/// The hash that the table keeps of a key.
fn hash_of<K: Hash>(hasher: &BuildHasherDefault<FoldHasher>, key: &K) -> u32
    ensures { result ≡ hash32 K.hash_input hasher.now key.now }
{
    let mut state = hasher.build_hasher();
    key.hash(&mut state);
    (state.finish() % 0x1_0000_0000) as u32
}

/// The node of an equal key that is live or finished, or 0.
fn find<K: Eq>(
    keys: &Vec<K>,
    chains: &HashChains,
    order: &Recency,
    flags: &Vec<bool>,
    key: &K,
    hash: u32,
) -> u32
    requires same { length chains.now.hashes ≡ length keys.now.items }
    requires noded { length keys.now.items < order.now.nodes }
    requires marked { length keys.now.items < length flags.now.items }
    ensures within { result ≤ length keys.now.items }
    ensures equal { 0 < result → (d : K)
        → K.eq key.now (slice_index_or keys.now.items (result - 1) d) ≡ true }
    ensures kept { 0 < result → Contains order.now.order result
        ⊎ (flag_at flags.now.items result ≡ true) }
    ensures none { result ≡ 0 → (j : ℕ) → j < length keys.now.items
        → slice_index chains.now.hashes j ≡ hash
        → (d : K) → K.eq key.now (slice_index_or keys.now.items j d) ≡ true
        → (Contains order.now.order (j + 1) → ⊥) × (flag_at flags.now.items (j + 1) ≡ false) }
{
    let mut node = chains.last_with(hash);
    while node != 0 {
        if *key == keys[node as usize - 1] {
            if order.contains(node) {
                return node;
            }
            if flags[node as usize] {
                return node;
            }
        }
        node = chains.next_with(node);
    }
    node
}

/// Whether so many keys are all that the table numbers: a node is 32 bits, and sixteen numbers are left unused.
fn is_full(keys: usize) -> bool
    ensures { result ≡ nat_le 4294967280 keys }
{
    keys >= 0xffff_fff0
}

/// Sees to a flag for the node.
fn add_flag(flags: &mut Vec<bool>, node: usize) -> Result<(), AllocError>
    requires { node ≤ length flags.old.items }
    ensures there { OnOk result (node < length flags.new.items) }
    ensures longer { length flags.old.items ≤ length flags.new.items }
    ensures same { (s : ℕ) → flag_at flags.new.items s ≡ flag_at flags.old.items s }
{
    if flags.len() <= node {
        flags.push(false)?;
    }
    Ok(())
}

/// Sees to links for the node.
fn add_node(order: &mut Recency, node: usize) -> Result<(), AllocError>
    requires next { node ≤ order.old.nodes }
    requires few { node + 1 < 2 ^ 32 }
    ensures there { OnOk result (node < order.new.nodes) }
    ensures longer { order.old.nodes ≤ order.new.nodes }
    ensures few { order.old.nodes < 2 ^ 32 → order.new.nodes < 2 ^ 32 }
    ensures same { order.new.order ≡ order.old.order }
{
    if order.nodes() <= node {
        order.add_node()?;
    }
    Ok(())
}

impl<K: Eq + Hash + Drop> LinkedMemo<K> {
    /// Nothing is live, and nothing is finished.
    pub fn new(alloc: Global, capacity: u32) -> Result<LinkedMemo<K>, NoMemory>
        requires { 1 ≤ capacity }
        ensures live { IfOk result (λ memo. ⟦<LinkedMemo<K> as Memo<K>>⟧.live memo ≡ []) }
        ensures finished { IfOk result (λ memo. ⟦<LinkedMemo<K> as Memo<K>>⟧.finished memo ≡ []) }
        ensures capacity { IfOk result (λ memo. ⟦<LinkedMemo<K> as Memo<K>>⟧.capacity memo ≡ capacity) }
    {
        let chains = HashChains::new(alloc)?;
        let order = Recency::new(alloc)?;
        let mut flags = Vec::new(alloc);
        flags.push(false)?;
        Ok(LinkedMemo {
            keys: Vec::new(alloc),
            chains,
            order,
            flags,
            path: Vec::new(alloc),
            depth: 0,
            capacity: capacity as usize,
            hasher: BuildHasherDefault::new(),
        })
    }
}

impl<K: Eq + Hash + Drop> Memo<K> for LinkedMemo<K> {
    ghost live = { λ m. keys_at m.keys.items (take m.depth m.path.items) };

    ghost finished = { λ m. keys_at m.keys.items m.order.order };

    ghost capacity = { λ m. m.capacity };

    ghost spare = { λ m. spare_of (length m.path.items - m.depth)
        (vec_capacity m.keys - vec_len m.keys) (vec_capacity m.path - vec_len m.path) m.chains.room
        (length m.flags.items - 1 - length m.keys.items)
        (m.order.nodes - 1 - length m.keys.items) };

    fn look(&mut self, key: &K) -> Known {
        let hash = hash_of(&self.hasher, key);
        let node = find(
            &self.keys,
            &self.chains,
            &self.order,
            &self.flags,
            key,
            hash,
        );
        if node == 0 {
            return Known::New;
        }
        if self.flags[node as usize] {
            return Known::Live;
        }
        self.order.renew(node);
        Known::Finished
    }

    fn make_room(&mut self) -> Result<(), NoMemory> {
        if self.depth < self.path.len() {
            return Ok(());
        }
        if is_full(self.keys.len()) {
            return Err(NoMemory);
        }
        let last = self.keys.len() + 1;
        self.keys.reserve(1)?;
        self.path.reserve(1)?;
        self.chains.make_room()?;
        add_flag(&mut self.flags, last)?;
        add_node(&mut self.order, last)?;
        Ok(())
    }

    fn enter(&mut self, key: K) {
        let hash = hash_of(&self.hasher, &key);
        if self.depth < self.path.len() {
            let node = self.path[self.depth];
            self.chains.replace(node, hash);
            self.keys[node as usize - 1] = key;
            self.flags[node as usize] = true;
            self.depth += 1;
            return;
        }
        self.chains.push(hash);
        match self.keys.push(key) {
            Ok(()) => {}
            Err(_) => unreachable!(),
        }
        let node = self.keys.len() as u32;
        match self.path.push(node) {
            Ok(()) => {}
            Err(_) => unreachable!(),
        }
        self.flags[node as usize] = true;
        self.depth += 1;
    }

    fn leave(&mut self) -> Result<(), NoMemory>
        requires { keys_at self.old.keys.items (take self.old.depth self.old.path.items) ≢ [] }
        ensures always { IsOk result }
        ensures only_finished_go { OnOk result (LeavesLast self.old.capacity
            (keys_at self.old.keys.items (take self.old.depth self.old.path.items))
            (keys_at self.old.keys.items self.old.order.order)
            (keys_at self.new.keys.items (take self.new.depth self.new.path.items))
            (keys_at self.new.keys.items self.new.order.order)) }
        ensures live { OnErr result
            (keys_at self.new.keys.items (take self.new.depth self.new.path.items)
            ≡ keys_at self.old.keys.items (take self.old.depth self.old.path.items)) }
        ensures finished { OnErr result (keys_at self.new.keys.items self.new.order.order
            ≡ keys_at self.old.keys.items self.old.order.order) }
        ensures capacity { self.new.capacity ≡ self.old.capacity }
    {
        let depth = self.depth - 1;
        let node = self.path[depth];
        self.flags[node as usize] = false;
        self.depth = depth;
        if self.order.len() < self.capacity {
            self.path.truncate(depth);
            self.order.push_newest(node);
            return Ok(());
        }
        let oldest = self.order.pop_oldest();
        self.path[depth] = oldest;
        self.order.push_newest(node);
        Ok(())
    }
}
