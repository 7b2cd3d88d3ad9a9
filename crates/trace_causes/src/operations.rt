//! Operations on the queue table.

ghost use Rattle.std.specs.Prelude.{◌≡◌, ◌++◌, OnOk, string_bytes};
ghost use Rattle.scen_words.specs.Field.{line};
ghost use Rattle.trace_causes.specs.Operations.{op_fields};

use crate::shown::{Hash, NumberOrDash, four_digits};
use crate::table::Word;
use scen_words::put_command;
use std::alloc::AllocError;
use std::fmt::Write;
use tap_trace::OpText;

/// Adds an operation, up to the end of the line.
pub fn put_op_text(out: &mut String, op: &OpText) -> Result<(), AllocError>
    ensures { OnOk result (string_bytes out.new ≡ string_bytes out.old ++ line (op_fields op.now)) }
{
    match op {
        OpText::SetIff { file, name, flags } => {
            writeln!(
                out,
                "setiff {file} {} {}",
                name.as_str(),
                four_digits(*flags)
            )
        }
        OpText::Words(command) => put_command(out, &[], command),
        OpText::Learn { file, hash } => writeln!(out, "learn {file} {}", Hash(*hash)),
        OpText::Back { file, side, vhost } => {
            let word = side.spelling();
            writeln!(out, "back {file} {word} {}", NumberOrDash(*vhost))
        }
    }
}
