//! Which operations are refused: the rules of each in their order.

ghost use Rattle.std.specs.Prelude.{◌≡◌, ◌<◌, ◌≤◌, length, None};

use crate::operation::{
    IFF_ATTACH_QUEUE, IFF_DETACH_QUEUE, IFF_TAP, IFF_TUN_EXCL, IFF_UNSUPPORTED, Op, is_set,
};
use crate::state::State;
use tap_ledger::{Busy, Invalid, Side, TapErr, TooBig};

/// How many devices there may be.
pub const MAX_DEVICES: usize = 16;
/// How often a file may be attached.
pub const MAX_EPOCH: u16 = 65_535;
/// How often a file may be resized.
pub const MAX_RESIZES: u8 = 127;
/// The least size that a header may have.
pub const LEAST_HEADER_SIZE: u32 = 10;
/// The greatest size that a header may have.
pub const MOST_HEADER_SIZE: u32 = 128;

impl State {
    ghost use Rattle.tap_steer.specs.Table.{exists, at_home};
    ghost use Rattle.tap_steer.specs.Rules as word;
    ghost use Rattle.tap_steer.specs.Sound.{IsSound};
    ghost use Rattle.tap_steer.specs.Named.{IsFile, IsNamed};

    /// The first rule that an operation breaks, if it breaks one.
    #[tactic(auto, unfolding(crate::specs::Rules::refuse))]
    pub fn refuse(&self, op: &Op) -> Option<TapErr>
        requires sound { IsSound self.now }
        requires named { IsNamed self.now op.now }
        ensures { result ≡ word.refuse self.now op.now }
    {
        match *op {
            Op::SetIff {
                file,
                device,
                flags,
            } => self.refuse_set_iff(file, device, flags),
            Op::SetQueue { file, flags } => self.refuse_set_queue(file, flags),
            Op::Shut { file } => self.refuse_shut(file),
            Op::HdrSize { file, size } => self.refuse_hdr_size(file, size),
            Op::Persist { file, .. } | Op::Steering { file, .. } | Op::Filter { file, .. } => {
                self.refuse_setting(file)
            }
            Op::Learn { .. } => None,
            Op::Tick { now } => self.refuse_tick(now),
            Op::Back { file, side, vhost } => self.refuse_back(file, side, vhost),
            Op::Resize { file, .. } => self.refuse_resize(file),
        }
    }

    #[tactic(auto, unfolding(crate::specs::Rules::set_iff_rules))]
    fn refuse_set_iff(&self, file: u16, device: u16, flags: u16) -> Option<TapErr>
        requires file { IsFile self.now file }
        requires name { device < length self.now.names }
        ensures { result ≡ word.first_broken (word.set_iff_rules self.now file device flags) }
    {
        let slot = &self.slots[usize::from(device)];
        if self.has_device(file) {
            return Some(TapErr::EEXIST);
        }
        if is_set(flags, IFF_UNSUPPORTED) {
            return Some(TapErr::ENOTSUP);
        }
        if slot.exists() && is_set(flags, IFF_TUN_EXCL) {
            return Some(TapErr::EBUSY(Busy::Exclusive));
        }
        if !is_set(flags, IFF_TAP) {
            return Some(TapErr::EINVAL(Invalid::Kind));
        }
        if slot.differs_in_multi(flags) {
            return Some(TapErr::EINVAL(Invalid::Multi));
        }
        if slot.has_its_one_queue() {
            return Some(TapErr::EBUSY(Busy::OneQueue));
        }
        if slot.is_full() {
            return Some(TapErr::E2BIG(TooBig::Queues));
        }
        if !slot.exists() && self.device_count() >= MAX_DEVICES {
            return Some(TapErr::ENFILE);
        }
        if self.has_spent_epochs(file) {
            return Some(TapErr::E2BIG(TooBig::Epochs));
        }
        None
    }

    fn refuse_set_queue(&self, file: u16, flags: u16) -> Option<TapErr>
        requires file { IsFile self.now file }
        requires sound { IsSound self.now }
        ensures { result ≡ word.first_broken (word.set_queue_rules self.now file flags) }
    {
        if is_set(flags, IFF_ATTACH_QUEUE) {
            return self.refuse_attach(file);
        }
        if is_set(flags, IFF_DETACH_QUEUE) {
            return self.refuse_detach(file);
        }
        Some(TapErr::EINVAL(Invalid::NoFlag))
    }

    #[tactic(auto, unfolding(crate::specs::Rules::attach_rules))]
    fn refuse_attach(&self, file: u16) -> Option<TapErr>
        requires { IsFile self.now file }
        ensures { result ≡ word.first_broken (word.attach_rules self.now file) }
    {
        if !self.file(file).attachment.is_disabled() {
            return Some(TapErr::EINVAL(Invalid::NotDetached));
        }
        if self.has_spent_epochs(file) {
            return Some(TapErr::E2BIG(TooBig::Epochs));
        }
        None
    }

    #[tactic(auto, unfolding(crate::specs::Rules::detach_rules))]
    fn refuse_detach(&self, file: u16) -> Option<TapErr>
        requires file { IsFile self.now file }
        requires sound { IsSound self.now }
        ensures { result ≡ word.first_broken (word.detach_rules self.now file) }
    {
        if !self.has_device(file) {
            return Some(TapErr::EINVAL(Invalid::NoDevice));
        }
        if self.is_single(file) {
            return Some(TapErr::EINVAL(Invalid::NotMulti));
        }
        if self.file(file).attachment.is_disabled() {
            return Some(TapErr::EINVAL(Invalid::Detached));
        }
        None
    }

    fn refuse_shut(&self, file: u16) -> Option<TapErr>
        requires { IsFile self.now file }
        ensures { result ≡ word.first_broken (word.shut_rules self.now file) }
    {
        if self.file(file).is_backed() {
            return Some(TapErr::EBUSY(Busy::Backed));
        }
        None
    }

    fn refuse_setting(&self, file: u16) -> Option<TapErr>
        requires { IsFile self.now file }
        ensures { result ≡ word.first_broken (word.device_rules self.now file) }
    {
        if !self.has_device(file) {
            return Some(TapErr::EBADFD);
        }
        None
    }

    fn refuse_hdr_size(&self, file: u16, size: u32) -> Option<TapErr>
        requires { IsFile self.now file }
        ensures { result ≡ word.first_broken (word.hdr_size_rules self.now file size) }
    {
        if !self.has_device(file) {
            return Some(TapErr::EBADFD);
        }
        if size < LEAST_HEADER_SIZE || size > MOST_HEADER_SIZE {
            return Some(TapErr::EINVAL(Invalid::HdrSize));
        }
        None
    }

    fn refuse_tick(&self, now: u64) -> Option<TapErr>
        ensures { result ≡ word.first_broken (word.tick_rules self.now now) }
    {
        if now < self.clock {
            return Some(TapErr::EINVAL(Invalid::Clock));
        }
        None
    }

    fn refuse_back(&self, file: u16, side: Side, vhost: Option<u16>) -> Option<TapErr>
        requires { IsFile self.now file }
        ensures { result ≡ word.first_broken (word.back_rules self.now file side vhost) }
    {
        vhost?;
        if !self.has_device(file) {
            return Some(TapErr::EBADFD);
        }
        if self.file(file).backer(side).is_some() {
            return Some(TapErr::EBUSY(Busy::Backed));
        }
        None
    }

    fn refuse_resize(&self, file: u16) -> Option<TapErr>
        requires { IsFile self.now file }
        ensures { result ≡ word.first_broken (word.resize_rules self.now file) }
    {
        if !self.has_device(file) {
            return Some(TapErr::EBADFD);
        }
        if self.file(file).resizes >= MAX_RESIZES {
            return Some(TapErr::E2BIG(TooBig::Resizes));
        }
        None
    }

    fn has_device(&self, file: u16) -> bool
        requires { IsFile self.now file }
        ensures { result ≡ word.has_device self.now file }
    {
        self.device_of(file).is_some()
    }

    #[tactic(auto, using(crate::proofs::Homes::home_is_name))]
    fn is_single(&self, file: u16) -> bool
        requires file { IsFile self.now file }
        requires sound { IsSound self.now }
        ensures { result ≡ at_home self.now file word.is_single }
    {
        match self.device_of(file) {
            Some(device) => self.slots[usize::from(device)].is_single(),
            None => false,
        }
    }

    fn has_spent_epochs(&self, file: u16) -> bool
        requires { IsFile self.now file }
        ensures { result ≡ word.has_spent_epochs self.now file }
    {
        self.file(file).epoch >= MAX_EPOCH
    }

    fn device_count(&self) -> usize
        ensures { result ≡ word.device_count self.now }
    {
        self.slots.iter().filter(|slot| slot.exists()).count()
    }
}
