//! The nodes that keep the flows.

ghost use Rattle.std.specs.Prelude.{◌≡◌, ℕ, ◌+◌, ◌<◌, ◌≤◌, ◌↔◌, List, ◌∷◌, ◌++◌, vec_len, slice_index, slice_set, None, IfOk, IfSome, IfNone, IsTrue};
ghost use Rattle.std.specs.Option.{option_map};
ghost use Rattle.std.specs.FinMap as map;
ghost use Rattle.tap_flows.specs.Flows.{IsNotBefore, forgotten, ticked};
ghost use Rattle.tap_flows.specs.Heads.{free_head};
ghost use Rattle.tap_flows.specs.Nodes.{contents, kept_at, flow_of, IsSound, Sound, HasAged, KeepsHash, KeepsIndex, KeepsStale, IsWalked, AreNone, AreFree};

use crate::heads::{CHAIN_HEADS, Limit};
use crate::links::{Links, Place};
use std::alloc::{AllocError, Global};

/// A flow under its hash.
#[derive(Clone, Copy, Debug)]
pub(crate) struct Entry {
    pub hash: u32,
    pub index: u16,
    pub updated: u64,
}

/// The nodes, each in the ring of its bucket or in the free ring, and those in use also in the ring
/// by age, the oldest first.
#[derive(Drop)]
pub(crate) struct Table {
    pub limit: Limit,
    pub nodes: Vec<Option<Entry>>,
    pub chains: Links,
    pub ages: Links,
    pub len: u32,
}

impl Table {
    /// Nodes that are all free.
    pub fn new(alloc: Global, limit: Limit) -> Result<Table, AllocError>
        ensures sound { IfOk result Sound }
        ensures limit { IfOk result (λ table. table.limit ≡ limit) }
        ensures empty { IfOk result (λ table. contents table.nodes.items ≡ map.empty) }
    {
        Ok(Table {
            limit,
            nodes: free_nodes(alloc, limit)?,
            chains: free_chain(alloc, limit)?,
            ages: Links::new(alloc, limit.nodes + 1)?,
            len: 0,
        })
    }

    /// The node that keeps the flow of a hash, in its bucket's ring.
    pub fn find(&self, hash: u32) -> Option<Place>
        requires { Sound self.now }
        ensures found { IfSome result (λ place. KeepsHash self.now.nodes.items hash place.number) }
        ensures absent { IfNone result (map.get (contents self.now.nodes.items) hash ≡ None) }
    {
        let head = self.limit.bucket(hash);
        let mut place = self.chains.next(head);
        for _ in 0..self.limit.nodes {
            if place == head {
                return None;
            }
            if self.keeps_hash(place, hash) {
                return Some(place);
            }
            place = self.chains.next(place);
        }
        None
    }

    /// Whether a node keeps the flow of a hash.
    fn keeps_hash(&self, node: Place, hash: u32) -> bool
        requires { node.number < vec_len self.now.nodes }
        ensures { IsTrue result ↔ KeepsHash self.now.nodes.items hash node.number }
    {
        self.nodes[node.number as usize].is_some_and(|entry| entry.hash == hash)
    }

    /// Whether it keeps one of a queue.
    fn keeps_index(&self, node: Place, index: u16) -> bool
        requires { node.number < vec_len self.now.nodes }
        ensures { IsTrue result ↔ KeepsIndex self.now.nodes.items index node.number }
    {
        self.nodes[node.number as usize].is_some_and(|entry| entry.index == index)
    }

    /// Whether it keeps one that is so old.
    fn keeps_stale(&self, node: Place, age: u64, now: u64) -> bool
        requires { node.number < vec_len self.now.nodes }
        ensures { IsTrue result ↔ KeepsStale self.now.nodes.items age now node.number }
    {
        self.nodes[node.number as usize].is_some_and(|entry| is_stale(entry.updated, age, now))
    }

    /// The queue of a node's flow.
    pub fn index_at(&self, node: Place) -> Option<u16>
        requires { node.number < vec_len self.now.nodes }
        ensures { result ≡ option_map (λ entry. entry.index) (kept_at self.now.nodes.items node.number) }
    {
        self.nodes[node.number as usize].map(|entry| entry.index)
    }

    /// The first by age, or the head where there is none.
    pub fn oldest(&self) -> Place
        requires { self.now.limit.nodes < vec_len self.now.ages.next }
        ensures { result.number ≡ slice_index self.now.ages.next.items self.now.limit.nodes }
    {
        self.ages.next(self.limit.ages())
    }

    /// The first of the free nodes, or the head where there is none.
    fn first_free(&self) -> Place
        requires { free_head self.now.limit.nodes < vec_len self.now.chains.next }
        ensures { result.number ≡ slice_index self.now.chains.next.items (free_head self.now.limit.nodes) }
    {
        self.chains.next(self.limit.free())
    }

    /// Puts a new flow into a free node.
    pub fn insert(&mut self, entry: Entry)
        requires sound { Sound self.old }
        requires room { self.old.len < self.old.limit.nodes }
        requires absent { map.get (contents self.old.nodes.items) entry.hash ≡ None }
        requires latest { IsNotBefore entry.updated (contents self.old.nodes.items) }
        ensures sound { Sound self.new }
        ensures limit { self.new.limit ≡ self.old.limit }
        ensures contents { contents self.new.nodes.items
            ≡ map.insert (contents self.old.nodes.items) entry.hash (flow_of entry) }
    {
        let node = self.first_free();
        self.chains.move_to(node, self.limit.bucket(entry.hash));
        self.ages.link(node, self.limit.ages());
        self.nodes[node.number as usize] = Some(entry);
        self.len += 1;
    }

    /// Replaces the flow of a node by one of the same hash.
    pub fn renew(&mut self, node: Place, entry: Entry)
        requires sound { Sound self.old }
        requires kept { KeepsHash self.old.nodes.items entry.hash node.number }
        requires latest { IsNotBefore entry.updated (contents self.old.nodes.items) }
        ensures sound { Sound self.new }
        ensures limit { self.new.limit ≡ self.old.limit }
        ensures contents { contents self.new.nodes.items
            ≡ map.insert (contents self.old.nodes.items) entry.hash (flow_of entry) }
    {
        self.ages.move_to(node, self.limit.ages());
        self.nodes[node.number as usize] = Some(entry);
    }

    /// Takes the flow from a node, which is free from then on.
    pub fn remove(&mut self, node: Place)
        requires aged { HasAged self.old node.number }
        ensures sound { (before behind : List ℕ)
            → IsSound self.old (before ++ node.number ∷ behind) → IsSound self.new (before ++ behind) }
        ensures limit { self.new.limit ≡ self.old.limit }
        ensures nodes { self.new.nodes.items ≡ slice_set self.old.nodes.items node.number None }
        ensures len { self.new.len + 1 ≡ self.old.len }
    {
        self.ages.unlink(node);
        self.chains.move_to(node, self.limit.free());
        self.nodes[node.number as usize] = None;
        self.len -= 1;
    }

    /// Removes the flows of a queue.
    pub fn forget(&mut self, index: u16)
        requires { Sound self.old }
        ensures sound { Sound self.new }
        ensures limit { self.new.limit ≡ self.old.limit }
        ensures contents { contents self.new.nodes.items ≡ forgotten (contents self.old.nodes.items) index }
    {
        let mut node = self.oldest();
        for _ in 0..self.len {
            let after = self.ages.next(node);
            self.remove_of(index, node);
            node = after;
        }
    }

    /// Removes a node's flow if it is of a queue.
    fn remove_of(&mut self, index: u16, node: Place)
        requires aged { HasAged self.old node.number }
        ensures walk { (left : List ℕ) → IsWalked self.old index (node.number ∷ left) → IsWalked self.new index left }
        ensures limit { self.new.limit ≡ self.old.limit }
        ensures contents { forgotten (contents self.new.nodes.items) index
            ≡ forgotten (contents self.old.nodes.items) index }
    {
        if self.keeps_index(node, index) {
            self.remove(node);
        }
    }

    /// Removes the flows that are so old, from the oldest on.
    pub fn tick(&mut self, age: u64, now: u64)
        requires { Sound self.old }
        ensures sound { Sound self.new }
        ensures limit { self.new.limit ≡ self.old.limit }
        ensures contents { contents self.new.nodes.items ≡ ticked (contents self.old.nodes.items) age now }
    {
        for _ in 0..self.len {
            let oldest = self.oldest();
            if !self.keeps_stale(oldest, age, now) {
                return;
            }
            self.remove(oldest);
        }
    }
}

/// Whether a time is so long ago.
fn is_stale(updated: u64, age: u64, now: u64) -> bool
    ensures { IsTrue result ↔ (updated + age ≤ now) }
{
    now.checked_sub(updated).is_some_and(|passed| passed >= age)
}

/// Nodes that keep nothing.
fn free_nodes(alloc: Global, limit: Limit) -> Result<Vec<Option<Entry>>, AllocError>
    ensures sized { IfOk result (λ nodes. vec_len nodes ≡ limit.nodes) }
    ensures free { IfOk result (λ nodes. AreNone nodes.items) }
{
    vec![in alloc; None; limit.nodes as usize]
}

/// Links by which all nodes are in the free ring.
fn free_chain(alloc: Global, limit: Limit) -> Result<Links, AllocError>
    ensures { IfOk result (λ links. AreFree limit.nodes links.next.items links.previous.items limit.nodes) }
{
    let mut chains = Links::new(alloc, limit.nodes + CHAIN_HEADS)?;
    for number in 0..limit.nodes {
        chains.link(Place { number }, limit.free());
    }
    Ok(chains)
}
