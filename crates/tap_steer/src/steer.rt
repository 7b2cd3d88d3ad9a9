//! The table, as callers see it.

ghost use Rattle.std.specs.Prelude.{◌≡◌, ◌<◌, length, None, IsTrue, IsNone, IfSome, IfOk, All, ◌↔◌};
ghost use Rattle.std.specs.Option.{option_map};

use crate::operation::Op;
use crate::selection::Select;
use crate::state::State;
use ebpf_code::Program;
use std::alloc::{AllocError, Global};
use std::marker::Model;
use tap_frame::Shape;
use tap_ledger::{Side, TapErr};

/// How many names of devices there are.
pub const NAMES: usize = 64;

/// The table of files and devices: which queue gets a frame.
#[derive(Drop)]
pub struct Steer {
    state: State,
}

// Clauses see the table.
impl Model for Steer {
    ghost use Rattle.tap_steer.specs.Table.{Table};

    ghost Value = { Table };

    ghost use Rattle.tap_steer.specs.Sound.{IsSound};

    ghost view = { λ s. s.state };

    ghost invariant = { λ s. IsSound s.state };
}

impl Steer {
    ghost use Rattle.tap_steer.specs.Table as word;
    ghost use Rattle.tap_steer.specs.Rules as rule;
    ghost use Rattle.tap_steer.specs.After.{after};
    ghost use Rattle.tap_steer.specs.Select as chosen;
    ghost use Rattle.tap_steer.specs.Named.{IsFile, IsNamed, AreLimits};

    /// The first table: files with these capacities, and names with these limits and ages of flows. Takes
    /// all memory.
    pub fn new(
        alloc: Global,
        programs: Vec<Program>,
        capacities: Vec<u16>,
        flows: Vec<(u32, u64)>,
    ) -> Result<Steer, AllocError>
        requires names { length flows.items ≡ NAMES }
        requires limits { All AreLimits flows.items }
        ensures { IfOk result (λ steer. steer ≡ word.first programs.items capacities.items flows.items) }
    {
        Ok(Steer {
            state: State::new(alloc, programs, &capacities, &flows)?,
        })
    }

    /// Whether the file, the device and the program that an operation names are there, and a capacity is
    /// 1 to 1,024.
    pub fn is_named(&self, op: &Op) -> bool
        ensures { IsTrue result ↔ IsNamed self.now op.now }
    {
        self.state.is_named(op)
    }

    /// The first rule that an operation breaks, if it breaks one.
    pub fn refuse(&self, op: &Op) -> Option<TapErr>
        requires { IsNamed self.now op.now }
        ensures { result ≡ rule.refuse self.now op.now }
    {
        self.state.refuse(op)
    }

    /// Does an operation that isn't refused.
    pub fn apply(&mut self, op: &Op)
        requires named { IsNamed self.old op.now }
        requires lawful { rule.refuse self.old op.now ≡ None }
        ensures { self.new ≡ after self.old op.now }
    {
        self.state.apply(op);
    }

    /// What becomes of a frame that is sent to a device.
    pub fn select(&self, device: u16, frame: &[u8]) -> Select
        requires { device < NAMES }
        ensures { result ≡ chosen.select self.now device frame.now }
    {
        self.state.select(device, frame)
    }

    /// What stands in front of a file's frames. None exactly where the file has no device.
    pub fn shape_of(&self, file: u16) -> Option<Shape>
        requires { IsFile self.now file }
        ensures shape { option_map chosen.parts_of result ≡ chosen.shape_of self.now file }
        ensures none { IsNone result ↔ IsNone (word.device_of self.now file) }
    {
        self.state.shape_of(file)
    }

    /// The device of a file. None exactly where it has none.
    pub fn device_of(&self, file: u16) -> Option<u16>
        requires { IsFile self.now file }
        ensures device { result ≡ word.device_of self.now file }
        ensures named { IfSome result (λ device. device < NAMES) }
    {
        self.state.device_of(file)
    }

    /// Whether a device exists.
    pub fn exists(&self, device: u16) -> bool
        requires { device < NAMES }
        ensures { result ≡ word.exists self.now device }
    {
        self.state.exists(device)
    }

    /// The time, in milliseconds.
    pub fn clock(&self) -> u64
        ensures { result ≡ self.now.clock }
    {
        self.state.clock
    }

    /// Whether a write to a file is learnt.
    pub fn learns(&self, file: u16) -> bool
        requires { IsFile self.now file }
        ensures { result ≡ chosen.learns self.now file }
    {
        self.state.learns(file)
    }

    /// Whether a file's queue is enabled.
    pub fn is_enabled(&self, file: u16) -> bool
        requires { IsFile self.now file }
        ensures { result ≡ word.is_enabled (word.file_at self.now file).attachment }
    {
        self.state.file(file).attachment.is_enabled()
    }

    /// How often a file was attached: 0 where it never was.
    pub fn epoch_of(&self, file: u16) -> u16
        requires { IsFile self.now file }
        ensures { result ≡ (word.file_at self.now file).epoch }
    {
        self.state.file(file).epoch
    }

    /// The vhost whose ring has a side of a file as its backend.
    pub fn backer_of(&self, file: u16, side: Side) -> Option<u16>
        requires { IsFile self.now file }
        ensures { result ≡ rule.backer side (word.file_at self.now file) }
    {
        self.state.file(file).backer(side)
    }

    /// How many frames the ring of a file holds.
    pub fn capacity_of(&self, file: u16) -> u16
        requires { IsFile self.now file }
        ensures { result ≡ chosen.capacity_of self.now file }
    {
        self.state.file(file).capacity
    }

    /// How often that was changed.
    pub fn resizes_of(&self, file: u16) -> u8
        requires { IsFile self.now file }
        ensures { result ≡ chosen.resizes_of self.now file }
    {
        self.state.file(file).resizes
    }
}
