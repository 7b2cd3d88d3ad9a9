//! The registers.

ghost use Rattle.std.specs.Prelude.{◌≡◌, ℕ, ◌<◌};

use std::marker::Model;

/// One of the registers R0 to R10, which a contract sees as its number.
#[derive(Clone, Copy, Debug, PartialEq, Eq)]
pub struct Register {
    number: u8,
}

impl Model for Register {
    ghost Value = { ℕ };

    ghost view = { λ r. r.number };

    ghost invariant = { λ r. r.number < 11 };

    ghost inverse = { λ n. record { number = n } };
}

impl Register {
    /// The register of this number, 0 to 10.
    pub fn new(number: u8) -> Register
        requires { number < 11 }
        ensures { result ≡ number }
    {
        Register { number }
    }

    /// The number, 0 to 10.
    pub fn number(self) -> u8
        ensures value { result ≡ self }
        ensures within { result < 11 }
    {
        self.number
    }
}
