//! The flows of a device, as callers see them.

ghost use Rattle.std.specs.Prelude.{◌≡◌, ℕ, ◌<◌, ◌≤◌, ◌↔◌, [], length, IsTrue, IfOk};

use crate::heads::{Limit, MAX_LIMIT};
use crate::table::{Entry, Table};
use std::alloc::{AllocError, Global};
use std::marker::Model;

/// After how many milliseconds a flow goes at the latest.
pub const MAX_AGE: u64 = 1_000_000_000;

/// How many flows a device keeps where nothing else is said, and for how many milliseconds.
pub const DEFAULT_LIMIT: u32 = 4096;

pub const DEFAULT_AGE: u64 = 3000;

/// What learning a flow did.
#[derive(Clone, Copy, Debug, PartialEq, Eq)]
pub enum Learnt {
    /// The flow is new, and was put in.
    Made,

    /// The flow was there, and its queue and time were replaced.
    Renewed,

    /// The flow is new, and there are as many as there may be: nothing changed.
    Full,
}

/// The flows of one device: for each hash the queue at which it was last seen, and when.
#[derive(Drop)]
pub struct Flows {
    table: Table,
    age: u64,
}

// Clauses see the limit, the age, and the flows in the order of their hashes.
impl Model for Flows {
    ghost use Rattle.tap_flows.specs.Flow.{FlowTable, coded_table};

    ghost Value = { FlowTable };

    ghost coded = { coded_table };

    ghost use Rattle.tap_flows.specs.Nodes.{listed_in, Sound};

    ghost view = { λ f. record { limit = f.table.limit.nodes; age = f.age; flows = listed_in f.table } };

    ghost invariant = { λ f. Sound f.table };
}

impl Flows {
    ghost use Rattle.tap_flows.specs.Flow.{Flow};
    ghost use Rattle.tap_flows.specs.FlowList.{AreInOrder, AreNotAfter, found, learn_outcome, learnt, forgotten, ticked};

    /// No flows, with memory for all that may come: at most `limit`, each for `age` milliseconds.
    pub fn new(alloc: Global, limit: u32, age: u64) -> Result<Flows, AllocError>
        requires some { 0 < limit }
        requires few { limit ≤ MAX_LIMIT }
        requires old { 0 < age }
        requires young { age ≤ MAX_AGE }
        ensures empty { IfOk result (λ flows. flows ≡ record { limit = limit; age = age; flows = [] }) }
    {
        Ok(Flows {
            table: Table::new(alloc, Limit { nodes: limit })?,
            age,
        })
    }

    /// How many flows there are.
    pub fn len(&self) -> usize
        ensures len { result ≡ length self.now.flows }
        ensures few { result ≤ self.now.limit }
        ensures in_order { AreInOrder self.now.flows }
    {
        self.table.len as usize
    }

    /// Whether there are no flows.
    pub fn is_empty(&self) -> bool
        ensures { IsTrue result ↔ (self.now.flows ≡ []) }
    {
        self.table.len == 0
    }

    /// Keeps a flow's queue and time, in milliseconds. Takes no memory.
    pub fn learn(&mut self, hash: u32, index: u16, now: u64) -> Learnt
        requires latest { AreNotAfter now self.old.flows }
        ensures learnt { result ≡ learn_outcome self.old.flows self.old.limit hash }
        ensures flows { let flow : Flow = record { index = index; updated = now }
            in self.new ≡ record self.old { flows = learnt self.old.flows self.old.limit hash flow } }
        ensures latest { AreNotAfter now self.new.flows }
    {
        let entry = Entry {
            hash,
            index,
            updated: now,
        };
        if let Some(node) = self.table.find(hash) {
            self.table.renew(node, entry);
            return Learnt::Renewed;
        }
        if self.table.len == self.table.limit.nodes {
            return Learnt::Full;
        }
        self.table.insert(entry);
        Learnt::Made
    }

    /// The queue of a hash's flow. None exactly where the flow is not there.
    pub fn find(&self, hash: u32) -> Option<u16>
        ensures { result ≡ found self.now.flows hash }
    {
        let node = self.table.find(hash)?;
        self.table.index_at(node)
    }

    /// Removes the flows of a queue.
    pub fn forget(&mut self, index: u16)
        ensures flows { self.new ≡ record self.old { flows = forgotten self.old.flows index } }
        ensures latest { (time : ℕ) → AreNotAfter time self.old.flows → AreNotAfter time self.new.flows }
    {
        self.table.forget(index);
    }

    /// Removes the flows that were updated as many milliseconds before `now` as the age, or earlier.
    pub fn tick(&mut self, now: u64)
        ensures flows { self.new ≡ record self.old { flows = ticked self.old.flows self.old.age now } }
        ensures latest { (time : ℕ) → AreNotAfter time self.old.flows → AreNotAfter time self.new.flows }
    {
        self.table.tick(self.age, now);
    }
}
