//! A vhost with its device, its drivers and its workers.

ghost use Rattle.std.specs.Prelude.{◌≡◌, IfOk, List, false};
ghost use Rattle.std.specs.Option.{option_copied};
ghost use Rattle.guest_mem.specs.declared.region.Region.{Region};
ghost use Rattle.tap_world.specs.Guests.{turn_of, with_turn};
ghost use Rattle.tap_guests.specs.Calls.{with_vhost};
ghost use Rattle.tap_guests.specs.Side.{IsSide, device_in, is_served, new_side};
ghost use Rattle.tap_guests.specs.Within.{IsIn, StaysIn};

use std::alloc::{AllocError, Global};
use std::marker::Model;
use vhost_dev::VhostDev;
use vhost_rx::RxWorker;
use vhost_tx::TxWorker;
use vring_drive::Driver;

/// A vhost: its device, the drivers of its rings, who holds the rings' turns, and the worker of each ring while a
/// turn is under way. Rings are numbered: 0 receives, 1 transmits, and there is no other.
pub struct VhostSide {
    pub(crate) guest: u16,
    pub(crate) dev: VhostDev,
    pub(crate) rx_driver: Option<Driver>,
    pub(crate) tx_driver: Option<Driver>,
    // Who holds a ring's turn, by whatever numbers its user gives: actors or commands.
    pub(crate) rx_turn: Option<u32>,
    pub(crate) tx_turn: Option<u32>,
    pub(crate) rx: Option<RxWorker>,
    pub(crate) tx: Option<TxWorker>,
}

impl Model for VhostSide {
    ghost use Rattle.tap_guests.specs.Side.{Side};

    ghost Value = { Side };

    ghost use Rattle.tap_guests.specs.Kept.{side_of, IsKept};

    ghost view = { side_of };

    ghost invariant = { IsKept };
}

impl VhostSide {
    /// A vhost over the memory of this guest, with the first settings and no driver.
    pub fn new(alloc: Global, guest: u16) -> Result<VhostSide, AllocError>
        ensures begins { IfOk result (λ s. s ≡ new_side guest) }
        ensures within { IfOk result (λ s. (rs : List Region) → IsIn rs s) }
    {
        Ok(VhostSide {
            guest,
            dev: VhostDev::new(alloc)?,
            rx_driver: None,
            tx_driver: None,
            rx_turn: None,
            tx_turn: None,
            rx: None,
            tx: None,
        })
    }

    /// The guest whose memory its rings lie in.
    pub fn guest(&self) -> u16
        ensures { result ≡ self.now.vhost.guest }
    {
        self.guest
    }

    /// Its device, to be looked at.
    pub fn dev(&self) -> &VhostDev
        ensures { result.now ≡ device_in self.now }
    {
        &self.dev
    }

    /// Who holds a ring's turn.
    pub fn turn(&self, ring: u16) -> Option<u32>
        ensures { result ≡ turn_of ring self.now.vhost }
    {
        if ring == 0 {
            self.rx_turn
        } else {
            self.tx_turn
        }
    }

    /// The worker of the receive ring, while a turn is under way on it.
    pub fn rx_worker(&self) -> Option<&RxWorker>
        ensures { option_copied result ≡ self.now.rx }
    {
        self.rx.as_ref()
    }

    /// The worker of the transmit ring, while a turn is under way on it.
    pub fn tx_worker(&self) -> Option<&TxWorker>
        ensures { option_copied result ≡ self.now.tx }
    {
        self.tx.as_ref()
    }

    /// Whether a worker serves a ring.
    pub fn is_served(&self, ring: u16) -> bool
        ensures { result ≡ is_served ring self.now }
    {
        if ring == 0 {
            self.rx.is_some()
        } else {
            self.tx.is_some()
        }
    }

    /// What holds of every vhost: each of its rings is idle, or served by a worker that fits it.
    pub fn is_sound(&self)
        ensures { IsSide self.now }
    {
        let _guest = self.guest;
    }

    /// Somebody holds the turn of a ring that no worker serves, or nobody does.
    pub fn set_turn(&mut self, ring: u16, holder: Option<u32>)
        requires unserved { is_served ring self.old ≡ false }
        ensures turn { self.new ≡ with_vhost (with_turn ring holder self.old.vhost) self.old }
        ensures within { StaysIn self.old self.new }
    {
        if ring == 0 {
            self.rx_turn = holder;
        } else {
            self.tx_turn = holder;
        }
    }

    /// Ends the frames that its workers hold.
    pub fn abandon(self) {
        let VhostSide {
            guest: _,
            dev: _,
            rx_driver: _,
            tx_driver: _,
            rx_turn: _,
            tx_turn: _,
            rx,
            tx,
        } = self;
        if let Some(worker) = rx {
            worker.abandon();
        }
        if let Some(worker) = tx {
            worker.abandon();
        }
    }
}
