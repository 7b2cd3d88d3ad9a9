//! The lines of operations.

ghost use Rattle.std.specs.Prelude.{◌≡◌, ◌++◌, IfOk, OnOk, string_bytes};
ghost use Rattle.scen_words.specs.Field.{line};
ghost use Rattle.trace_words.specs.LineReading.{op_in};
ghost use Rattle.trace_words.specs.Operations.{op_line};

use std::alloc::{AllocError, Global};
use std::fmt::Write;
use tap_trace::OpLine;
use text_fields::Fields;
use trace_causes::fields::{number32, number64};
use trace_causes::{op_text, put_op_text};

/// Adds the line of an operation.
pub fn put_op(out: &mut String, op: &OpLine) -> Result<(), AllocError>
    ensures { OnOk result (string_bytes out.new ≡ string_bytes out.old ++ line (op_line op.now)) }
{
    write!(out, "op {} {} ", op.version, op.command)?;
    put_op_text(out, &op.text)
}

/// What stands behind `op`.
#[tactic(auto, unfolding(crate::specs::LineReading::op_in))]
pub fn op(alloc: Global, fields: Fields<'_>) -> Result<Option<OpLine>, AllocError>
    ensures { IfOk result (λ o. o ≡ op_in fields.entry) }
{
    let Some((version, fields)) = number64(fields) else {
        return Ok(None);
    };
    let Some((command, fields)) = number32(fields) else {
        return Ok(None);
    };
    match op_text(alloc, fields)? {
        Some(text) => Ok(Some(OpLine {
            version,
            command,
            text,
        })),
        None => Ok(None),
    }
}
