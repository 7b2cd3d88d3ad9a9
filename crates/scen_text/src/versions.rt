//! A scenario of version 2 out of any.

ghost use Rattle.std.specs.Prelude.{◌≡◌};

use crate::scenario::Scenario;

/// The same scenario as one of version 2.
pub fn upgrade(scenario: Scenario) -> Scenario
    ensures { result ≡ record scenario { version = 2 } }
{
    Scenario {
        version: 2,
        ..scenario
    }
}
