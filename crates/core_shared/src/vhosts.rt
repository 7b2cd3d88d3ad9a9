//! Vhosts by number.

ghost use Rattle.std.specs.Prelude.{◌≡◌, ◌++◌, ◌∷◌, [], IsSome, OnErr, OnOk, Some, is_some};
ghost use Rattle.std.specs.Borrow.{sem};
ghost use Rattle.std.specs.Option.{option_copied};
ghost use Rattle.tap_world.specs.ByNumber.{at};

use std::alloc::{AllocError, Global};
use std::marker::Model;
use tap_guests::VhostSide;

/// Vhosts by number, with the workers of the turns that are under way on their rings. Some aren't there.
///
/// To a contract it is the list of them. Workers have frames, so it can't be dropped: [`Vhosts::abandon`] ends them.
pub struct Vhosts {
    sides: Vec<Option<VhostSide>>,
}

impl Model for Vhosts {
    ghost use Rattle.std.specs.Prelude.{List, Option};
    ghost use Rattle.tap_guests.specs.Side.{Side};

    ghost Value = { List (Option Side) };

    ghost view = { λ v. v.sides.items };
}

impl Vhosts {
    ghost use Rattle.core_shared.specs.Lending.{LendsVhost};

    /// No vhosts.
    pub fn new(alloc: Global) -> Vhosts
        ensures { result ≡ [] }
    {
        Vhosts {
            sides: Vec::new(alloc),
        }
    }

    /// One vhost more, or a number that has none. Where memory runs out, the frames of its workers are ended.
    pub fn push(&mut self, side: Option<VhostSide>) -> Result<(), AllocError>
        ensures ok { OnOk result (self.new ≡ self.old ++ side ∷ []) }
        ensures err { OnErr result (self.new ≡ self.old) }
    {
        match self.sides.reserve(1) {
            Ok(()) => {
                self.sides.push_reserved(side);
                Ok(())
            }
            Err(error) => {
                if let Some(side) = side {
                    side.abandon();
                }
                Err(error)
            }
        }
    }

    /// The vhosts, the first one first.
    pub fn sides(&self) -> &[Option<VhostSide>]
        ensures { result.now ≡ self.now }
    {
        self.sides.as_slice()
    }

    /// The vhost of a number, if there is one.
    pub fn get(&self, vhost: u16) -> Option<&VhostSide>
        ensures { option_copied result ≡ at self.now vhost }
    {
        self.sides.get(usize::from(vhost))?.as_ref()
    }

    /// The vhost of a number.
    pub fn side(&self, vhost: u16) -> &VhostSide
        requires { IsSome (at self.now vhost) }
        ensures { at self.now vhost ≡ Some result.now }
    {
        self.sides[usize::from(vhost)].as_ref().unwrap()
    }

    /// The vhost of a number, to be changed.
    pub fn side_mut(&mut self, vhost: u16) -> &mut VhostSide
        requires { IsSome (at self.old vhost) }
        ensures* lends { sem 𝓛 (LendsVhost self.entry vhost result) }
        ensures value { at self.old vhost ≡ Some result.now }
    {
        self.sides[usize::from(vhost)].as_mut().unwrap()
    }

    /// Ends the frames that its workers hold.
    pub fn abandon(self) {
        let Vhosts { mut sides } = self;
        while let Some(slot) = sides.pop() {
            if let Some(side) = slot {
                side.abandon();
            }
        }
        sides.destroy_empty();
    }
}
