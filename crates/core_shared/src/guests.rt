//! Guests by number.

ghost use Rattle.std.specs.Prelude.{◌≡◌, ◌++◌, ◌∷◌, [], IsSome, OnErr, OnOk, Some, is_some};
ghost use Rattle.std.specs.Borrow.{sem};
ghost use Rattle.tap_world.specs.ByNumber.{at};

use std::alloc::{AllocError, Global};
use std::marker::Model;
use tap_guests::GuestMem;

/// Guests by number, of which some aren't there.
///
/// To a contract it is the list of them.
#[derive(Drop)]
pub struct Guests {
    items: Vec<Option<GuestMem>>,
}

impl Model for Guests {
    ghost use Rattle.std.specs.Prelude.{List, Option};
    ghost use Rattle.tap_world.specs.Guests.{Guest};

    ghost Value = { List (Option Guest) };

    ghost view = { λ g. g.items.items };
}

impl Guests {
    ghost use Rattle.core_shared.specs.Lending.{LendsGuest};

    /// No guests.
    pub fn new(alloc: Global) -> Guests
        ensures { result ≡ [] }
    {
        Guests {
            items: Vec::new(alloc),
        }
    }

    /// One guest more, or a number that has none.
    pub fn push(&mut self, guest: Option<GuestMem>) -> Result<(), AllocError>
        ensures ok { OnOk result (self.new ≡ self.old ++ guest ∷ []) }
        ensures err { OnErr result (self.new ≡ self.old) }
    {
        self.items.push(guest)?;
        Ok(())
    }

    /// The guests, the first one first.
    pub fn items(&self) -> &[Option<GuestMem>]
        ensures { result.now ≡ self.now }
    {
        self.items.as_slice()
    }

    /// The guests, the first one first.
    pub fn into_items(self) -> Vec<Option<GuestMem>>
        ensures { result.items ≡ self }
    {
        self.items
    }

    /// The guest of a number.
    pub fn guest(&self, guest: u16) -> &GuestMem
        requires { IsSome (at self.now guest) }
        ensures { at self.now guest ≡ Some result.now }
    {
        self.items[usize::from(guest)].as_ref().unwrap()
    }

    /// The guest of a number, to be changed.
    pub fn guest_mut(&mut self, guest: u16) -> &mut GuestMem
        requires { IsSome (at self.old guest) }
        ensures* lends { sem 𝓛 (LendsGuest self.entry guest result) }
        ensures value { at self.old guest ≡ Some result.now }
    {
        self.items[usize::from(guest)].as_mut().unwrap()
    }
}
