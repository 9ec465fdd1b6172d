//! Nodes in order of use, in one table of links.
//!
//! Means: a list of different nodes, the newest first, and the number below which all nodes lie. A node is a number
//! from 1 on. Each node's link names its newer and its older neighbour; node 0 closes the ring.
//! Above: `push_newest`, `remove`, `pop_oldest` and `renew` say what becomes of the list. None of them takes memory.
//! Refuses: `new` and `add_node` for want of memory alone, and then the list is as before.
//! Not promised: how the links are laid out.
#![tactic(auto)]

ghost use Rattle.std.specs.Prelude.{◌≡◌, ◌≢◌, ℕ, ◌+◌, ◌<◌, ◌≤◌, ◌^◌, ◌↔◌, List, [], ◌∷◌, ◌++◌, length, OnOk, OnErr};
ghost use Rattle.std.specs.Prelude.{IfOk, IsTrue, Contains};
ghost use Rattle.recency.specs.Order.{ordered, Loses, Renews};

pub mod links;

use links::{Link, join, newer_than, older_than};
use std::alloc::{AllocError, Global};
use std::marker::Model;

/// A list of nodes, the newest first. A node is a number, and the nodes are those from 1 on.
#[derive(Drop)]
pub struct Recency {
    // node 0 stands before the newest and after the oldest
    links: Vec<Link>,
    count: usize,
}

impl Model for Recency {
    ghost use Rattle.std.specs.Prelude.{length};
    ghost use Rattle.recency.specs.Order.{Order, ordered};

    ghost Value = { Order };

    ghost use Rattle.recency.specs.Ring.{order_of, IsRecency};

    ghost view = { λ r. ordered (order_of r.links.items r.count) (length r.links.items) };

    ghost invariant = { λ r. IsRecency r.links.items r.count };
}

impl Recency {
    /// No node is there.
    pub fn new(alloc: Global) -> Result<Recency, AllocError>
        ensures { IfOk result (λ r. r ≡ ordered [] 1) }
    {
        let mut links = Vec::new(alloc);
        links.push(Link { newer: 0, older: 0 })?;
        Ok(Recency { links, count: 0 })
    }

    /// How many nodes are in the list.
    pub fn len(&self) -> usize
        ensures { result ≡ length self.now.order }
    {
        self.count
    }

    /// Each node is below this number.
    pub fn nodes(&self) -> usize
        ensures { result ≡ self.now.nodes }
    {
        self.links.len()
    }

    /// Adds a node that is not in the list.
    pub fn add_node(&mut self) -> Result<(), AllocError>
        requires { self.old.nodes < 2 ^ 32 }
        ensures added { OnOk result (self.new ≡ ordered self.old.order (self.old.nodes + 1)) }
        ensures unchanged { OnErr result (self.new ≡ self.old) }
    {
        let node = self.links.len() as u32;
        self.links.push(Link {
            newer: node,
            older: node,
        })?;
        Ok(())
    }

    /// Whether the node is in the list.
    pub fn contains(&self, node: u32) -> bool
        requires some { 0 < node }
        requires within { node < self.now.nodes }
        ensures { IsTrue result ↔ Contains self.now.order node }
    {
        older_than(&self.links, node) != node
    }

    /// The oldest node.
    pub fn oldest(&self) -> u32
        requires { self.now.order ≢ [] }
        ensures { (front : List ℕ) × (self.now.order ≡ front ++ result ∷ []) }
    {
        newer_than(&self.links, 0)
    }

    /// Puts a node that is not in the list at its front.
    pub fn push_newest(&mut self, node: u32)
        requires some { 0 < node }
        requires within { node < self.old.nodes }
        requires absent { Contains self.old.order node → ⊥ }
        requires few { length self.old.order < 2 ^ 32 }
        ensures { self.new ≡ ordered (node ∷ self.old.order) self.old.nodes }
    {
        let newest = older_than(&self.links, 0);
        join(&mut self.links, node, newest);
        join(&mut self.links, 0, node);
        self.count += 1;
    }

    /// Takes the node out of the list.
    pub fn remove(&mut self, node: u32)
        requires { Contains self.old.order node }
        ensures order { Loses node self.old.order self.new.order }
        ensures nodes { self.new.nodes ≡ self.old.nodes }
        ensures absent { Contains self.new.order node → ⊥ }
        ensures some { 0 < node }
        ensures within { node < self.new.nodes }
    {
        let newer = newer_than(&self.links, node);
        let older = older_than(&self.links, node);
        join(&mut self.links, newer, older);
        join(&mut self.links, node, node);
        self.count -= 1;
    }

    /// Takes the oldest node out of the list.
    pub fn pop_oldest(&mut self) -> u32
        requires { self.old.order ≢ [] }
        ensures order { self.old.order ≡ self.new.order ++ result ∷ [] }
        ensures nodes { self.new.nodes ≡ self.old.nodes }
        ensures absent { Contains self.new.order result → ⊥ }
    {
        let node = self.oldest();
        self.remove(node);
        node
    }

    /// Makes the node the newest.
    pub fn renew(&mut self, node: u32)
        requires present { Contains self.old.order node }
        requires few { length self.old.order < 2 ^ 32 }
        ensures order { Renews node self.old.order self.new.order }
        ensures nodes { self.new.nodes ≡ self.old.nodes }
    {
        if older_than(&self.links, 0) == node {
            return;
        }
        self.remove(node);
        self.push_newest(node);
    }
}
