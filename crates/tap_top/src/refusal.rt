//! The line of a refusal.

ghost use Rattle.std.specs.Prelude.{◌≡◌, IfOk, string_bytes};
ghost use Rattle.tap_top.specs.Top.{refusal_line};

use scen_text::ScenFault;
use std::alloc::{AllocError, Global};

/// The line `refused LINE WHY`, with the further numbers.
pub fn refusal_line(alloc: Global, fault: ScenFault) -> Result<String, AllocError>
    ensures { IfOk result (λ text. string_bytes text ≡ refusal_line fault) }
{
    format!(in alloc; "{fault}\n")
}
