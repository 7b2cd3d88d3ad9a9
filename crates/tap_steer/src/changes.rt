//! What operations change.

ghost use Rattle.std.specs.Prelude.{◌≡◌, ◌<◌, ◌≤◌, length, map, None, true};
ghost use Rattle.tap_steer.specs.After.{aged};

use crate::files::Attachment;
use crate::operation::{IFF_ATTACH_QUEUE, Op, is_set};
use crate::slot::Slot;
use crate::state::State;
use tap_ledger::Side;

impl State {
    ghost use Rattle.tap_steer.specs.Table.{file_at, is_set};
    ghost use Rattle.tap_ground.specs.Options.{first_that_holds as first_broken};
    ghost use Rattle.tap_steer.specs.Rules.{refuse, set_iff_rules, attach_rules};
    ghost use Rattle.tap_steer.specs.After as word;
    ghost use Rattle.tap_steer.specs.Sound.{IsSound};
    ghost use Rattle.tap_steer.specs.Named.{IsFile, IsNamed};

    /// Does an operation that isn't refused. Takes no memory.
    #[tactic(auto, using(crate::proofs::Lawful::operating), unfolding(crate::specs::Rules::refuse))]
    pub fn apply(&mut self, op: &Op)
        requires sound { IsSound self.old }
        requires named { IsNamed self.old op.now }
        requires lawful { refuse self.old op.now ≡ None }
        ensures { self.new ≡ word.after self.old op.now }
    {
        match *op {
            Op::SetIff {
                file,
                device,
                flags,
            } => self.set_iff(file, device, flags),
            Op::SetQueue { file, flags } => self.set_queue(file, flags),
            Op::Shut { file } => self.shut(file),
            Op::HdrSize { file, size } => self.set_hdr_size(file, size),
            Op::Persist { file, on } => self.set_persistent(file, on),
            Op::Learn { file, hash } => self.learn(file, hash),
            Op::Tick { now } => self.tick(now),
            Op::Steering { file, program } => self.set_steering(file, program),
            Op::Filter { file, program } => self.set_filter(file, program),
            Op::Back { file, side, vhost } => self.back(file, side, vhost),
            Op::Resize { file, capacity } => self.resize(file, capacity),
        }
    }

    #[tactic(auto, using(crate::proofs::Lawful::joining), unfolding(crate::specs::After::set_iff))]
    fn set_iff(&mut self, file: u16, device: u16, flags: u16)
        requires file { IsFile self.old file }
        requires name { device < length self.old.names }
        requires sound { IsSound self.old }
        requires lawful { first_broken (set_iff_rules self.old file device flags) ≡ None }
        ensures { self.new ≡ word.set_iff self.old file device flags }
    {
        let changed = self.files[usize::from(file)].attached(device);
        self.files[usize::from(file)] = changed;
        let slot = &mut self.slots[usize::from(device)];
        slot.join(flags);
        slot.attach(file, changed.epoch);
    }

    fn set_queue(&mut self, file: u16, flags: u16)
        requires file { IsFile self.old file }
        requires sound { IsSound self.old }
        requires lawful { is_set flags IFF_ATTACH_QUEUE ≡ true → first_broken (attach_rules self.old file) ≡ None }
        ensures { self.new ≡ word.set_queue self.old file flags }
    {
        if is_set(flags, IFF_ATTACH_QUEUE) {
            self.attach_queue(file);
        } else {
            self.detach_queue(file);
        }
    }

    #[tactic(auto, using(crate::proofs::Lawful::attaching), unfolding(crate::specs::After::attach_queue))]
    fn attach_queue(&mut self, file: u16)
        requires file { IsFile self.old file }
        requires sound { IsSound self.old }
        requires lawful { first_broken (attach_rules self.old file) ≡ None }
        ensures { self.new ≡ word.attach_queue self.old file }
    {
        let entry = self.file(file);
        if let Attachment::Disabled(device) = entry.attachment {
            let changed = entry.attached(device);
            self.files[usize::from(file)] = changed;
            let slot = &mut self.slots[usize::from(device)];
            slot.enable();
            slot.attach(file, changed.epoch);
        }
    }

    #[tactic(auto, using(crate::proofs::Homes::enabled_is_name), unfolding(crate::specs::After::detach_queue))]
    fn detach_queue(&mut self, file: u16)
        requires file { IsFile self.old file }
        requires sound { IsSound self.old }
        ensures { self.new ≡ word.detach_queue self.old file }
    {
        let entry = self.file(file);
        if let Attachment::Enabled(device) = entry.attachment {
            self.files[usize::from(file)] = entry.standing(Attachment::Disabled(device));
            let slot = &mut self.slots[usize::from(device)];
            slot.detach(file);
            slot.disable();
        }
    }

    #[tactic(auto, using(crate::proofs::Homes::homes), unfolding(crate::specs::After::shut))]
    fn shut(&mut self, file: u16)
        requires file { IsFile self.old file }
        requires sound { IsSound self.old }
        ensures { self.new ≡ word.shut self.old file }
    {
        let entry = self.file(file);
        self.files[usize::from(file)] = entry.standing(Attachment::Unattached);
        match entry.attachment {
            Attachment::Enabled(device) => {
                let slot = &mut self.slots[usize::from(device)];
                slot.detach(file);
                slot.leave();
            }
            Attachment::Disabled(device) => {
                let slot = &mut self.slots[usize::from(device)];
                slot.enable();
                slot.leave();
            }
            Attachment::Unattached => {}
        }
    }

    #[tactic(auto, using(crate::proofs::Homes::home_is_name), unfolding(crate::specs::After::set_device))]
    fn set_hdr_size(&mut self, file: u16, size: u32)
        requires file { IsFile self.old file }
        requires sound { IsSound self.old }
        requires most { size ≤ 128 }
        ensures { self.new ≡ word.set_hdr_size self.old file size }
    {
        if let Some(device) = self.device_of(file) {
            self.slots[usize::from(device)].set_header_size(size as u16);
        }
    }

    #[tactic(auto, using(crate::proofs::Homes::home_is_name), unfolding(crate::specs::After::set_device))]
    fn set_persistent(&mut self, file: u16, on: bool)
        requires file { IsFile self.old file }
        requires sound { IsSound self.old }
        ensures { self.new ≡ word.set_persistent self.old file on }
    {
        if let Some(device) = self.device_of(file) {
            self.slots[usize::from(device)].set_persistent(on);
        }
    }

    #[tactic(auto, using(crate::proofs::Homes::home_is_name), unfolding(crate::specs::After::set_device))]
    fn set_steering(&mut self, file: u16, program: Option<u16>)
        requires file { IsFile self.old file }
        requires sound { IsSound self.old }
        ensures { self.new ≡ word.set_steering self.old file program }
    {
        if let Some(device) = self.device_of(file) {
            self.slots[usize::from(device)].set_steering(program);
        }
    }

    #[tactic(auto, using(crate::proofs::Homes::home_is_name), unfolding(crate::specs::After::set_device))]
    fn set_filter(&mut self, file: u16, program: Option<u16>)
        requires file { IsFile self.old file }
        requires sound { IsSound self.old }
        ensures { self.new ≡ word.set_filter self.old file program }
    {
        if let Some(device) = self.device_of(file) {
            self.slots[usize::from(device)].set_filter(program);
        }
    }

    #[tactic(auto, using(crate::proofs::Homes::enabled_is_name), unfolding(crate::specs::After::learn))]
    fn learn(&mut self, file: u16, hash: u32)
        requires file { IsFile self.old file }
        requires sound { IsSound self.old }
        ensures { self.new ≡ word.learn self.old file hash }
    {
        if let Attachment::Enabled(device) = self.file(file).attachment {
            self.slots[usize::from(device)].learn(file, hash, self.clock);
        }
    }

    #[tactic(auto, unfolding(crate::specs::After::tick))]
    fn tick(&mut self, now: u64)
        ensures { self.new ≡ word.tick self.old now }
    {
        self.clock = now;
        tick_all(&mut self.slots, now);
    }

    #[tactic(auto, unfolding(crate::specs::After::back))]
    fn back(&mut self, file: u16, side: Side, vhost: Option<u16>)
        requires { IsFile self.old file }
        ensures { self.new ≡ word.back self.old file side vhost }
    {
        let entry = self.file(file);
        self.files[usize::from(file)] = entry.backed(side, vhost);
    }

    #[tactic(auto, unfolding(crate::specs::After::resize))]
    fn resize(&mut self, file: u16, capacity: u16)
        requires file { IsFile self.old file }
        requires few { (file_at self.old file).resizes < 127 }
        ensures { self.new ≡ word.resize self.old file capacity }
    {
        let entry = self.file(file);
        self.files[usize::from(file)] = entry.resized(capacity);
    }
}

/// Removes the flows that are old, of each name.
fn tick_all(slots: &mut [Slot], now: u64)
    ensures { slots.new ≡ map (aged now) slots.old }
{
    for slot in slots.iter_mut() {
        slot.tick(now);
    }
}
