//! What is kept for one name.

ghost use Rattle.std.specs.Prelude.{◌≡◌, ℕ, ◌+◌, ◌<◌, ◌≤◌, [], length, false, IsSome, IsSomeAnd, IfSome, IfOk, is_some, slice_get};
ghost use Rattle.std.specs.Option.{option_map, option_map_or, option_and_then};

use crate::operation::{IFF_MULTI_QUEUE, is_set};
use crate::selection::scaled;
use crate::settings::Settings;
use std::alloc::{AllocError, Global};
use std::marker::Model;
use tap_flow_key::flow_hash;
use tap_flows::{Flows, MAX_AGE, MAX_LIMIT};
use tap_frame::Shape;
use tap_queues::{MAX_QUEUES, Queues, Row};

/// One name: the memory for a device, and the device, where it exists.
#[derive(Drop)]
pub(crate) struct Slot {
    // None where the device doesn't exist; then nothing stands in what follows.
    settings: Option<Settings>,
    disabled: u16,
    queues: Queues,
    flows: Flows,
}

// Clauses see a name of the table.
impl Model for Slot {
    ghost use Rattle.tap_steer.specs.Table.{Named};

    ghost Value = { Named };

    ghost use Rattle.tap_steer.specs.Slot.{named_in, IsClean};

    ghost view = { named_in };

    ghost invariant = { IsClean };
}

impl Slot {
    ghost use Rattle.tap_steer.specs.Table.{Named, new_name};
    ghost use Rattle.tap_steer.specs.Sound.{rows_of, disabled_of};
    ghost use Rattle.tap_steer.specs.Rules.{differs_in_multi, is_single, has_its_one_queue, is_full};
    ghost use Rattle.tap_steer.specs.After.{joined, with_row, without_row, with_disabled, without_disabled, if_kept, with_settings, with_header_size, with_persistence, with_steering, with_filter, learning, is_learning, aged};
    ghost use Rattle.tap_steer.specs.Select.{index_by_flow, shape_in, parts_of};
    ghost use Rattle.tap_steer.specs.Slot.{with_its, HasSize, HasRoom, HasRow, IsEmptied, IsNotAhead};

    /// A name without a device, with memory for all that may come.
    pub fn new(alloc: Global, limit: u32, age: u64) -> Result<Slot, AllocError>
        requires some { 0 < limit }
        requires few { limit ≤ MAX_LIMIT }
        requires old { 0 < age }
        requires young { age ≤ MAX_AGE }
        ensures { IfOk result (λ slot. slot ≡ new_name (limit, age)) }
    {
        Ok(Slot {
            settings: None,
            disabled: 0,
            queues: Queues::new(alloc)?,
            flows: Flows::new(alloc, limit, age)?,
        })
    }

    /// Whether the device exists.
    pub fn exists(&self) -> bool
        ensures { result ≡ is_some self.now.device }
    {
        self.settings.is_some()
    }

    /// The settings of the device, if it exists.
    pub fn settings(&self) -> Option<Settings>
        ensures { result ≡ option_map (λ d. d.settings) self.now.device }
    {
        self.settings
    }

    /// Whether the device exists, and is asked for with several queues and has one, or the other way round.
    pub fn differs_in_multi(&self, flags: u16) -> bool
        ensures { result ≡ option_map_or (differs_in_multi flags) self.now.device false }
    {
        match self.settings {
            Some(settings) => settings.multi_queue != is_set(flags, IFF_MULTI_QUEUE),
            None => false,
        }
    }

    /// Whether the device exists, and has one queue for good.
    pub fn is_single(&self) -> bool
        ensures { result ≡ option_map_or is_single self.now.device false }
    {
        match self.settings {
            Some(settings) => !settings.multi_queue,
            None => false,
        }
    }

    /// Whether the device exists, and has the one queue that it may have.
    pub fn has_its_one_queue(&self) -> bool
        ensures { result ≡ option_map_or has_its_one_queue self.now.device false }
    {
        match self.settings {
            Some(settings) => !settings.multi_queue && self.queue_count() == 1,
            None => false,
        }
    }

    /// Whether the device exists, and has as many queues as a device may have.
    pub fn is_full(&self) -> bool
        ensures { result ≡ option_map_or is_full self.now.device false }
    {
        self.settings.is_some() && self.queue_count() >= MAX_QUEUES
    }

    /// Whether the device exists, and several of its queues are enabled, and no program steers.
    pub fn is_learning(&self) -> bool
        ensures { result ≡ option_map_or is_learning self.now.device false }
    {
        match self.settings {
            Some(settings) => self.queues.len() > 1 && settings.steering.is_none(),
            None => false,
        }
    }

    /// What stands in front of the frames of the device, if it exists.
    pub fn shape(&self) -> Option<Shape>
        requires { IfSome self.now.device HasSize }
        ensures { option_map parts_of result ≡ option_map shape_in self.now.device }
    {
        let settings = self.settings?;
        let hdr = if settings.header {
            Some(settings.header_size)
        } else {
            None
        };
        Some(Shape {
            pi: settings.pi,
            hdr,
        })
    }

    /// The row of a queue of the device, if it exists.
    pub fn at(&self, index: u16) -> Option<Row>
        ensures { result ≡ slice_get (rows_of self.now.device) index }
    {
        self.queues.at(index)
    }

    /// How many queues of the device are enabled.
    pub fn len(&self) -> u16
        ensures len { result ≡ length (rows_of self.now.device) }
        ensures few { result ≤ MAX_QUEUES }
    {
        self.queues.len()
    }

    /// The queue at which the flow of a frame was last seen, and else the share of its hash.
    pub fn index_by_flow(&self, frame: &[u8]) -> u16
        ensures { IfSome self.now.device (λ d. result ≡ index_by_flow d frame.now) }
    {
        let hash = flow_hash(frame);
        match self.flows.find(hash) {
            Some(index) => index,
            None => scaled(hash, self.queues.len()),
        }
    }

    /// Makes the device where there is none, and finds it otherwise.
    pub fn join(&mut self, flags: u16)
        ensures { self.new ≡ record self.old { device = Some (joined flags self.old.device) } }
    {
        let settings = match self.settings {
            Some(settings) if self.queue_count() == 0 => settings.with_front(flags),
            Some(settings) => settings,
            None => Settings::new(flags),
        };
        self.settings = Some(settings);
    }

    /// Gives the device a row for a file, the last.
    pub fn attach(&mut self, file: u16, epoch: u16)
        requires { IsSomeAnd self.old.device (HasRoom file) }
        ensures { self.new ≡ with_its self.old (with_row file epoch) }
    {
        self.queues.attach(file, epoch);
    }

    /// Takes the row of a file, and the flows of the index that is vacated.
    pub fn detach(&mut self, file: u16)
        requires { IsSomeAnd self.old.device (HasRow file) }
        ensures { self.new ≡ with_its self.old (without_row file) }
    {
        self.queues.detach(file);
        self.flows.forget(self.queues.len());
    }

    /// Counts one more disabled queue.
    pub fn disable(&mut self)
        requires { IsSomeAnd self.old.device (λ d. d.disabled ≤ 256) }
        ensures { self.new ≡ with_its self.old with_disabled }
    {
        self.disabled += 1;
    }

    /// Counts one less.
    pub fn enable(&mut self)
        requires { IsSomeAnd self.old.device (λ d. 0 < d.disabled) }
        ensures { self.new ≡ with_its self.old without_disabled }
    {
        self.disabled -= 1;
    }

    /// Ends the device if it has no files and isn't persistent.
    pub fn leave(&mut self)
        requires { IfSome self.old.device IsEmptied }
        ensures { self.new ≡ record self.old { device = option_and_then if_kept self.old.device } }
    {
        if let Some(settings) = self.settings
            && self.queue_count() == 0
            && !settings.persistent
        {
            self.settings = None;
        }
    }

    /// Sets the size of the header.
    pub fn set_header_size(&mut self, size: u16)
        ensures { self.new ≡ with_its self.old (with_settings (with_header_size size)) }
    {
        if let Some(settings) = &mut self.settings {
            settings.header_size = size;
        }
    }

    /// Says whether the device stays without files.
    pub fn set_persistent(&mut self, on: bool)
        ensures { self.new ≡ with_its self.old (with_settings (with_persistence on)) }
    {
        if let Some(settings) = &mut self.settings {
            settings.persistent = on;
        }
    }

    /// Sets the program that chooses the queue.
    pub fn set_steering(&mut self, program: Option<u16>)
        ensures { self.new ≡ with_its self.old (with_settings (with_steering program)) }
    {
        if let Some(settings) = &mut self.settings {
            settings.steering = program;
        }
    }

    /// Sets the program that cuts and drops frames.
    pub fn set_filter(&mut self, program: Option<u16>)
        ensures { self.new ≡ with_its self.old (with_settings (with_filter program)) }
    {
        if let Some(settings) = &mut self.settings {
            settings.filter = program;
        }
    }

    /// Learns that a flow was seen at the queue of a file, where the device learns.
    pub fn learn(&mut self, file: u16, hash: u32, now: u64)
        requires there { IsSomeAnd self.old.device (HasRow file) }
        requires latest { IfSome self.old.device (IsNotAhead now) }
        ensures { self.new ≡ with_its self.old (learning self.old.limit file hash now) }
    {
        if self.is_learning() {
            let index = self.queues.index_of(file).unwrap();
            let _ = self.flows.learn(hash, index, now);
        }
    }

    /// Removes the flows that are old.
    pub fn tick(&mut self, now: u64)
        ensures { self.new ≡ aged now self.old }
    {
        self.flows.tick(now);
    }

    // How many queues there are, enabled and disabled.
    fn queue_count(&self) -> usize
        ensures { result ≡ length (rows_of self.now.device) + disabled_of self.now.device }
    {
        usize::from(self.queues.len()) + usize::from(self.disabled)
    }
}
