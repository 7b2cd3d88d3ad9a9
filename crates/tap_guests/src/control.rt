//! The control calls of a vhost.

ghost use Rattle.std.specs.Prelude.{◌≡◌, IfOk, OnErr, is_ok, true, false};
ghost use Rattle.guest_mem.specs.Memory.{Contents};
ghost use Rattle.scen_words.specs.declared.command.Command.TheVariants as command;
ghost use Rattle.tap_guests.specs.Calls.{Calls, IsUnserved, with_vhost};
ghost use Rattle.tap_guests.specs.Side.{is_served};
ghost use Rattle.tap_guests.specs.Within.{StaysIn};

use crate::called::{Called, on_ring};
use crate::side::VhostSide;
use crate::words::{answer_of, base_answer};
use guest_mem::Memory;
use std::alloc::AllocError;
use tap_trace::Kind;

impl VhostSide {
    /// `features`: sets the feature bits. It is refused where a ring has a backend (EBUSY), and where a bit is set
    /// that isn't offered (ENOTSUP).
    pub fn set_features(&mut self, vhost: u16, bits: u64) -> Result<Called, AllocError>
        requires rx { is_served 0 self.old ≡ false }
        requires tx { is_served 1 self.old ≡ false }
        ensures call { IfOk result
            (λ c. (m : Contents) → Calls (command.Features vhost bits) self.old.vhost m c self.new.vhost m) }
        ensures answers { is_ok result ≡ true }
        ensures only { self.new ≡ with_vhost self.new.vhost self.old }
        ensures within { StaysIn self.old self.new }
    {
        let answer = answer_of(self.dev.set_features(bits))?;
        Ok(Called {
            answer,
            step: Some(Kind::Features { vhost }),
        })
    }

    /// `vnum`: gives a ring another queue size. It is refused where there is no such ring (ENOBUFS), where it has a
    /// backend (EBUSY), and where the number is no queue size (EINVAL).
    pub fn set_num(&mut self, vhost: u16, ring: u16, num: u64) -> Result<Called, AllocError>
        requires unserved { IsUnserved ring self.old }
        ensures call { IfOk result
            (λ c. (m : Contents) → Calls (command.VNum vhost ring num) self.old.vhost m c self.new.vhost m) }
        ensures answers { is_ok result ≡ true }
        ensures only { self.new ≡ with_vhost self.new.vhost self.old }
        ensures within { StaysIn self.old self.new }
    {
        let answer = answer_of(self.dev.set_num(ring, num))?;
        Ok(Called {
            answer,
            step: on_ring(ring, Kind::Num { vhost, ring }),
        })
    }

    /// `vbase`: begins a list of positions in a ring. It is refused where there is no such ring (ENOBUFS), where it
    /// has a backend (EBUSY), and above 65,535 (EINVAL).
    pub fn set_base(&mut self, vhost: u16, ring: u16, base: u64) -> Result<Called, AllocError>
        requires unserved { IsUnserved ring self.old }
        ensures call { IfOk result
            (λ c. (m : Contents) → Calls (command.VBase vhost ring base) self.old.vhost m c self.new.vhost m) }
        ensures unchanged { OnErr result (self.new ≡ self.old) }
        ensures only { self.new ≡ with_vhost self.new.vhost self.old }
        ensures within { StaysIn self.old self.new }
    {
        let answer = answer_of(self.dev.set_base(ring, base))?;
        Ok(Called {
            answer,
            step: on_ring(ring, Kind::Base { vhost, ring }),
        })
    }

    /// `vaddr`: places the parts of a ring. It is refused where there is no such ring (ENOBUFS), where it has a
    /// backend (EBUSY), where an address isn't aligned (EINVAL), and where a part isn't in the memory (EFAULT).
    pub fn set_addr(
        &mut self,
        vhost: u16,
        ring: u16,
        desc: u64,
        avail: u64,
        used: u64,
        mem: &Memory,
    ) -> Result<Called, AllocError>
        requires unserved { IsUnserved ring self.old }
        ensures call { IfOk result (λ c. Calls (command.VAddr vhost ring desc avail used) self.old.vhost mem.now
            c self.new.vhost mem.now) }
        ensures answers { is_ok result ≡ true }
        ensures only { self.new ≡ with_vhost self.new.vhost self.old }
        ensures within { StaysIn self.old self.new }
    {
        let answer = answer_of(self.dev.set_addr(ring, desc, avail, used, mem))?;
        Ok(Called {
            answer,
            step: on_ring(ring, Kind::Addr { vhost, ring }),
        })
    }

    /// `getbase`: the position of a ring's next chain. It is refused where there is no such ring (ENOBUFS).
    pub fn get_base(&self, vhost: u16, ring: u16) -> Result<Called, AllocError>
        ensures call { IfOk result
            (λ c. (m : Contents) → Calls (command.GetBase vhost ring) self.now.vhost m c self.now.vhost m) }
        ensures answers { is_ok result ≡ true }
    {
        let answer = base_answer(self.dev.get_base(ring))?;
        Ok(Called {
            answer,
            step: on_ring(ring, Kind::GetBase { vhost, ring }),
        })
    }
}
