//! The operations that were published, with the newest table.

ghost use Rattle.std.specs.Prelude.{◌≡◌, [], None, OnErr, OnOk, length};
ghost use Rattle.tap_steer.specs.Named.{IsNamed};
ghost use Rattle.tap_steer.specs.Rules.{refuse};
ghost use Rattle.tap_lines.specs.Told.{BeganAt, TableFollows, told_more};

use std::alloc::{AllocError, Global};
use std::marker::Model;
use tap_steer::Steer;
use tap_world::Published;

/// The operations that were published, in the order of the versions that they made, and the newest table.
#[derive(Drop)]
pub struct Ops {
    steer: Steer,
    ops: Vec<Published>,
}

impl Model for Ops {
    ghost use Rattle.tap_lines.specs.Told.{Told};

    ghost Value = { Told };

    ghost view = { λ t. record { table = t.steer; ops = t.ops.items } };
}

impl Ops {
    /// No operation yet, on the first table.
    pub fn new(alloc: Global, first: Steer) -> Ops
        ensures none { result ≡ record { table = first; ops = [] } }
        ensures began { BeganAt first result }
    {
        Ops {
            steer: first,
            ops: Vec::new(alloc),
        }
    }

    /// One more operation, which isn't refused, makes the next version.
    pub fn publish(&mut self, published: Published) -> Result<(), AllocError>
        requires named { IsNamed self.old.table published.op }
        requires lawful { refuse self.old.table published.op ≡ None }
        ensures ok { OnOk result (self.new ≡ told_more published self.old) }
        ensures err { OnErr result (self.new ≡ self.old) }
    {
        self.ops.push(published)?;
        self.steer.apply(&published.op);
        Ok(())
    }

    /// The newest table.
    pub fn table(&self) -> &Steer
        ensures { result.now ≡ self.now.table }
    {
        &self.steer
    }

    /// The newest version: how many operations were published.
    pub fn newest(&self) -> usize
        ensures { result ≡ length self.now.ops }
    {
        self.ops.len()
    }

    /// The operations, the first one first.
    pub fn ops(&self) -> &[Published]
        ensures { result.now ≡ self.now.ops }
    {
        &self.ops
    }
}

/// The table of operations that began at a first table stays theirs with each one that is published.
pub fn table_follows()
    ensures { TableFollows }
{}
