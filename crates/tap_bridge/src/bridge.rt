//! A learning bridge.
ghost use Rattle.std.specs.Prelude.{◌≡◌, ◌≤◌, true, [], length, IfOk, OnOk, OnErr};
ghost use Rattle.tap_bridge.specs.Bridge.{is_among, table_after, sent_on};
ghost use Rattle.tap_bridge.specs.Kept.{AreInOrder};

use crate::address::{Address, MOST, Seen};
use crate::table::{drop_old, fill, keep_ports, new_ports, put_source, trim};
use std::alloc::{AllocError, Global};
use std::collections::{BTreeMap, BTreeSet};
use std::marker::Model;

/// The table of a bridge.
#[derive(Drop)]
pub struct Bridge {
    alloc: Global,
    by_address: BTreeMap<Address, Seen>,
    by_time: BTreeSet<(u64, Address)>,
    ports: Vec<u16>,
}

impl Model for Bridge {
    ghost use Rattle.tap_bridge.specs.Bridge.{Table};

    ghost Value = { Table };

    ghost use Rattle.tap_bridge.specs.Inside.{IsKept};

    ghost view = { λ b. b.by_address.entries };

    ghost invariant = { IsKept };
}

impl Bridge {
    /// A bridge that knows no address.
    pub fn new(alloc: Global) -> Bridge
        ensures { result ≡ [] }
    {
        Bridge {
            alloc,
            by_address: BTreeMap::new(alloc),
            by_time: BTreeSet::new(alloc),
            ports: Vec::new(alloc),
        }
    }

    /// How many addresses it knows.
    pub fn len(&self) -> usize
        ensures len { result ≡ length self.now }
        ensures few { result ≤ MOST }
        ensures distinct { AreInOrder self.now }
    {
        self.by_address.len()
    }

    /// Learns from a frame that came in at a port, and tells at which of the ports it is sent on. Entries
    /// that are 300,000 milliseconds old go away before, and those whose port isn't one of the ports. It
    /// takes its memory first, so all is unchanged after want of memory.
    pub fn frame(
        &mut self,
        port: u16,
        bytes: &[u8],
        now: u64,
        ports: &[u16],
    ) -> Result<Vec<u16>, AllocError>
        requires long { 14 ≤ length bytes.now }
        requires own { is_among ports.now port ≡ true }
        ensures answer { IfOk result
            (λ sent. sent.items ≡ sent_on port bytes.now ports.now (table_after port bytes.now now ports.now self.old)) }
        ensures table { OnOk result (self.new ≡ table_after port bytes.now now ports.now self.old) }
        ensures unchanged { OnErr result (self.new ≡ self.old) }
    {
        let mut answer = Vec::with_capacity(self.alloc, ports.len())?;
        let next = new_ports(self.alloc, &self.ports, ports)?;
        let seen = Seen { port, time: now };
        put_source(&mut self.by_address, &mut self.by_time, bytes, seen)?;
        keep_ports(
            &mut self.by_address,
            &mut self.by_time,
            &mut self.ports,
            next,
            ports,
        );
        drop_old(&mut self.by_address, &mut self.by_time, now);
        trim(&mut self.by_address, &mut self.by_time, bytes, now);
        fill(&mut answer, &self.by_address, port, bytes, ports);
        Ok(answer)
    }
}
