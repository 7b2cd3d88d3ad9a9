//! The lines of frames that had a place.

ghost use Rattle.std.specs.Prelude.{◌≡◌, ◌++◌, OnOk, string_bytes};
ghost use Rattle.scen_words.specs.Field.{line};
ghost use Rattle.trace_words.specs.Places.{place_in, place_line};

use std::alloc::AllocError;
use std::fmt::Write;
use tap_trace::PlaceLine;
use text_fields::Fields;
use trace_causes::fields::{name, number16, number32, number64};
use trace_causes::{FrameName, fate, put_fated};

/// Adds the line of a frame that had a place.
pub fn put_place(out: &mut String, place: &PlaceLine) -> Result<(), AllocError>
    ensures { OnOk result (string_bytes out.new ≡ string_bytes out.old ++ line (place_line place.now)) }
{
    write!(
        out,
        "line {} {} {} ",
        place.place,
        place.epoch,
        FrameName(place.name)
    )?;
    put_fated(out, place.len, place.fate)
}

/// What stands behind `line`.
#[tactic(auto, unfolding(crate::specs::Places::place_in))]
pub fn place(fields: Fields<'_>) -> Option<PlaceLine>
    ensures { result ≡ place_in fields.entry }
{
    let (place, fields) = number64(fields)?;
    let (epoch, fields) = number16(fields)?;
    let (name, fields) = name(fields)?;
    let (len, fields) = number32(fields)?;
    let fate = fate(fields)?;
    Some(PlaceLine {
        place,
        epoch,
        name,
        len,
        fate,
    })
}
