//! The device.
ghost use Rattle.std.specs.Prelude.{◌≡◌, ◌<◌, IsTrue, IfOk, OnOk, OnErr, IsOkUnless, IsErrOf, MatchOption, Ok, None};
ghost use Rattle.vhost_queue.specs.Queue.{IsGood, IsQueueSize};
ghost use Rattle.vhost_dev.specs.Settings.{ring_of, ring_at, hdr_of};
ghost use Rattle.vhost_dev.specs.Refusals.{base_refusal, ready_refusal};
ghost use Rattle.vhost_dev.specs.Calls as calls;
ghost use Rattle.vhost_dev.specs.Device.{first_device, queue_of, BeginAtZero};

use crate::error::VhostErr;
use crate::ring::Ring;
use guest_mem::Memory;
use std::alloc::{AllocError, Global};
use std::marker::Model;
use tap_frame::Shape;
use vhost_queue::Vq;
use vring_split::Layout;

/// VIRTIO_NET_F_MRG_RXBUF: a frame may take several receive chains.
const MRG_RXBUF: u64 = 1 << 15;
/// VIRTIO_F_INDIRECT_DESC: a descriptor may refer to a table of others.
const INDIRECT_DESC: u64 = 1 << 28;
/// VIRTIO_F_EVENT_IDX: each side says from which position on it wants a notice.
const EVENT_IDX: u64 = 1 << 29;
/// VIRTIO_F_VERSION_1: the device follows VIRTIO 1.
const VERSION_1: u64 = 1 << 32;
/// The features that the device offers.
const OFFERED: u64 = MRG_RXBUF | INDIRECT_DESC | EVENT_IDX | VERSION_1;

/// A network device with a receive and a transmit ring in a guest's memory.
#[derive(Debug, Drop)]
pub struct VhostDev {
    mrg: bool,
    version_1: bool,
    rx: Ring,
    tx: Ring,
}

impl Model for VhostDev {
    ghost use Rattle.vhost_dev.specs.Device.{Device};

    ghost Value = { Device };

    ghost use Rattle.vhost_dev.specs.Kept.{device_of};

    ghost view = { device_of };
}

impl VhostDev {
    /// A device with no feature and no backend, whose rings have one entry and begin at position 0.
    pub fn new(alloc: Global) -> Result<VhostDev, AllocError>
        ensures { IfOk result (λ d. d ≡ first_device) }
    {
        Ok(VhostDev {
            mrg: false,
            version_1: false,
            rx: Ring::new(alloc, true)?,
            tx: Ring::new(alloc, false)?,
        })
    }

    /// Sets the features that were agreed on, bit by bit: 15 for frames in several receive chains, 28
    /// for indirect tables, 29 for event indexes, 32 for VIRTIO 1. It is refused where a ring has a
    /// backend (EBUSY), and else where another bit is set (ENOTSUP).
    pub fn set_features(&mut self, bits: u64) -> Result<(), VhostErr>
        requires rx_idle { calls.IsIdleRing self.old.settings.rx }
        requires tx_idle { calls.IsIdleRing self.old.settings.tx }
        ensures answer { result ≡ (calls.set_features bits self.old.settings).answer }
        ensures settings { self.new
            ≡ record self.old { settings = (calls.set_features bits self.old.settings).settings } }
    {
        if self.rx.is_backed() || self.tx.is_backed() {
            return Err(VhostErr::EBUSY);
        }
        if bits | OFFERED != OFFERED {
            return Err(VhostErr::ENOTSUP);
        }
        self.mrg = bits & MRG_RXBUF != 0;
        self.version_1 = bits & VERSION_1 != 0;
        let indirect = bits & INDIRECT_DESC != 0;
        let event = bits & EVENT_IDX != 0;
        self.rx.agree(indirect, event);
        self.tx.agree(indirect, event);
        Ok(())
    }

    /// Gives a ring, 0 to receive and 1 to transmit, another queue size. It is refused where there is no
    /// such ring (ENOBUFS), where it has a backend (EBUSY), and where the number is no power of two up
    /// to 32,768 (EINVAL), in this order.
    pub fn set_num(&mut self, ring: u16, num: u64) -> Result<(), VhostErr>
        requires idle { ring < 2 → calls.IsIdleRing (ring_at ring self.old.settings) }
        ensures answer { result ≡ (calls.set_num ring num self.old.settings).answer }
        ensures settings { self.new
            ≡ record self.old { settings = (calls.set_num ring num self.old.settings).settings } }
    {
        match ring {
            0 => self.rx.set_num(num),
            1 => self.tx.set_num(num),
            _ => Err(VhostErr::ENOBUFS),
        }
    }

    /// Begins a list of positions in a ring, from this one on. It is refused where there is no such
    /// ring (ENOBUFS), where it has a backend (EBUSY), and above 65,535 (EINVAL), in this order.
    pub fn set_base(&mut self, ring: u16, base: u64) -> Result<(), VhostErr>
        requires idle { ring < 2 → calls.IsIdleRing (ring_at ring self.old.settings) }
        ensures refused { MatchOption (base_refusal ring base self.old.settings)
            (IsOkUnless result VhostErr.NoMemory) (IsErrOf result) }
        ensures begun { OnOk result
            (self.new ≡ record self.old { settings = calls.with_base ring base self.old.settings }) }
        ensures unchanged { OnErr result (self.new ≡ self.old) }
    {
        match ring {
            0 => self.rx.set_base(base),
            1 => self.tx.set_base(base),
            _ => Err(VhostErr::ENOBUFS),
        }
    }

    /// The position of a ring's next chain. It is refused where there is no such ring (ENOBUFS).
    pub fn get_base(&self, ring: u16) -> Result<u16, VhostErr>
        ensures { result ≡ calls.get_base ring self.now.settings }
    {
        match ring {
            0 => Ok(self.rx.base()),
            1 => Ok(self.tx.base()),
            _ => Err(VhostErr::ENOBUFS),
        }
    }

    /// Places a ring's descriptor table, available ring and used ring at these addresses of the guest.
    /// It is refused where there is no such ring (ENOBUFS), where it has a backend (EBUSY), where the
    /// addresses are no multiples of 16, 2 and 4 (EINVAL), and where a part, for the queue size of the
    /// moment, isn't in the memory (EFAULT), in this order.
    pub fn set_addr(
        &mut self,
        ring: u16,
        desc: u64,
        avail: u64,
        used: u64,
        mem: &Memory,
    ) -> Result<(), VhostErr>
        requires idle { ring < 2 → calls.IsIdleRing (ring_at ring self.old.settings) }
        ensures answer { result ≡ (calls.set_addr ring desc avail used mem.now self.old.settings).answer }
        ensures settings { self.new
            ≡ record self.old {
              settings = (calls.set_addr ring desc avail used mem.now self.old.settings).settings;
            } }
    {
        match ring {
            0 => self.rx.set_addr(desc, avail, used, mem),
            1 => self.tx.set_addr(desc, avail, used, mem),
            _ => Err(VhostErr::ENOBUFS),
        }
    }

    /// Whether a ring's backend may be set: it is refused where there is no such ring (ENOBUFS), where
    /// it has a backend (EBUSY), and where a part of it isn't in the memory (EFAULT), in this order.
    pub fn ready(&self, ring: u16, mem: &Memory) -> Result<(), VhostErr>
        ensures answer { result ≡ calls.ready ring mem.now self.now.settings }
        ensures good { OnOk result (IsGood (ring_at ring self.now.settings).queue mem.now) }
    {
        match ring {
            0 => self.rx.ready(mem),
            1 => self.tx.ready(mem),
            _ => Err(VhostErr::ENOBUFS),
        }
    }

    /// Whether frames of this shape can be a ring's: it is refused (EHDR) exactly where packet
    /// information stands in front of them, or their header hasn't the size of the device's; no header
    /// counts as one of size 0.
    pub fn fits(&self, shape: Shape) -> Result<(), VhostErr>
        ensures { result ≡ calls.fits (shape.pi, shape.hdr) self.now.settings }
    {
        let want = self.hdr();
        let have = shape.hdr.unwrap_or(0);
        if shape.pi || have != want {
            return Err(VhostErr::EHDR { want, have });
        }
        Ok(())
    }

    /// Makes a file the backend of a ring that is ready for one: takes the ring's used index from the
    /// memory, and clears the fault that stopped it.
    pub fn set_backend(&mut self, ring: u16, file: u16, mem: &Memory)
        requires idle { calls.IsIdleRing (ring_at ring self.old.settings) }
        requires ready { calls.ready ring mem.now self.old.settings ≡ Ok tt }
        ensures { self.new ≡ record self.old { settings = calls.set_backend ring file mem.now self.old.settings } }
    {
        match ring {
            0 => self.rx.set_backend(file, mem),
            _ => self.tx.set_backend(file, mem),
        }
    }

    /// Takes a ring's backend away, and tells which file it was, if it had one. A stopped ring stays
    /// stopped. It is refused where there is no such ring (ENOBUFS).
    pub fn unset_backend(&mut self, ring: u16) -> Result<Option<u16>, VhostErr>
        requires idle { ring < 2 → calls.IsIdleRing (ring_at ring self.old.settings) }
        ensures answer { result ≡ (calls.unset_backend ring self.old.settings).answer }
        ensures settings { self.new
            ≡ record self.old { settings = (calls.unset_backend ring self.old.settings).settings } }
    {
        match ring {
            0 => Ok(self.rx.unset_backend()),
            1 => Ok(self.tx.unset_backend()),
            _ => Err(VhostErr::ENOBUFS),
        }
    }

    /// The file that a ring serves, if it has a backend.
    pub fn backend(&self, rx: bool) -> Option<u16>
        ensures { result ≡ (ring_of rx self.now.settings).file }
    {
        if rx { self.rx.file() } else { self.tx.file() }
    }

    /// Where a ring lies, and how it is used.
    pub fn layout(&self, rx: bool) -> Layout
        ensures layout { result ≡ (ring_of rx self.now.settings).queue.layout }
        ensures size { IsQueueSize result.num }
    {
        self.queue(rx).layout()
    }

    /// The size of the header in front of each frame: 12 bytes where a frame may take several chains or
    /// the device follows VIRTIO 1, else 10 (VIRTIO 1.2, 5.1.6).
    pub fn hdr(&self) -> u16
        ensures { result ≡ hdr_of self.now.settings }
    {
        if self.mrg || self.version_1 { 12 } else { 10 }
    }

    /// Whether a frame may take several receive chains (VIRTIO 1.2, 5.1.6.3).
    pub fn mrg(&self) -> bool
        ensures { result ≡ self.now.settings.mrg }
    {
        self.mrg
    }

    /// A ring's lists of positions: the base of each, and how many chains had been published before it.
    /// The first is (0, 0).
    pub fn lists(&self, rx: bool) -> &[(u16, u64)]
        ensures lists { result.now ≡ (ring_of rx self.now.settings).lists }
        ensures first { BeginAtZero result.now }
    {
        if rx { self.rx.lists() } else { self.tx.lists() }
    }

    /// A ring's queue, to be looked at.
    pub fn queue(&self, rx: bool) -> &Vq
        ensures { result.now ≡ queue_of rx self.now }
    {
        if rx { self.rx.queue() } else { self.tx.queue() }
    }
}

impl VhostDev {
    ghost use Rattle.std.specs.Borrow.{sem};
    ghost use Rattle.vhost_dev.specs.Lending.{LendsQueue};

    /// A ring's queue, to be served. What is done to it shows in the device, whose other ring and
    /// settings stay.
    pub fn vq(&mut self, rx: bool) -> &mut Vq
        ensures* lends { sem 𝓛 (LendsQueue rx self.entry result) }
        ensures queue { result.now ≡ queue_of rx self.old }
    {
        if rx { self.rx.vq() } else { self.tx.vq() }
    }
}
