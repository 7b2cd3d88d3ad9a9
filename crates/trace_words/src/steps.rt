//! The lines of steps on a guest.

ghost use Rattle.std.specs.Prelude.{◌≡◌, ◌++◌, OnOk, string_bytes};
ghost use Rattle.scen_words.specs.Field.{line};
ghost use Rattle.trace_words.specs.Steps.{kind_fields, step_line};

use std::alloc::AllocError;
use std::fmt::Write;
use tap_trace::{Kind, StepLine};
use trace_causes::{NameOrDash, Word};

// What a step did, up to the end of the line.
fn put_kind(out: &mut String, kind: Kind) -> Result<(), AllocError>
    ensures { OnOk result (string_bytes out.new ≡ string_bytes out.old ++ line (kind_fields kind)) }
{
    match kind {
        Kind::Fetch {
            vhost,
            ring,
            position,
            head,
        } => writeln!(out, "fetch {vhost} {ring} {position} {head}"),
        Kind::None { vhost, ring } => writeln!(out, "none {vhost} {ring}"),
        Kind::Crowded { vhost, ring } => writeln!(out, "crowded {vhost} {ring}"),
        Kind::Halt { vhost, ring, fault } => writeln!(out, "halt {vhost} {ring} {fault}"),
        Kind::Copy {
            vhost,
            ring,
            position,
            name,
        } => writeln!(out, "copy {vhost} {ring} {position} {}", NameOrDash(name)),
        Kind::Publish {
            vhost,
            ring,
            count,
            call,
        } => writeln!(out, "publish {vhost} {ring} {count} {}", call.spelling()),
        Kind::Notices { vhost, ring, on } => writeln!(
            out,
            "notices {vhost} {ring} {}",
            on.spelling()
        ),
        Kind::Off { vhost, ring } => writeln!(out, "off {vhost} {ring}"),
        Kind::Stopped { vhost, ring } => writeln!(out, "stopped {vhost} {ring}"),
        Kind::Features { vhost } => writeln!(out, "features {vhost}"),
        Kind::Num { vhost, ring } => writeln!(out, "num {vhost} {ring}"),
        Kind::Base { vhost, ring } => writeln!(out, "base {vhost} {ring}"),
        Kind::Addr { vhost, ring } => writeln!(out, "addr {vhost} {ring}"),
        Kind::GetBase { vhost, ring } => writeln!(out, "getbase {vhost} {ring}"),
        Kind::Backend { vhost, ring, set } => {
            writeln!(out, "backend {vhost} {ring} {}", set.spelling())
        }
        Kind::Poke => out.push_str("poke\n"),
        Kind::Peek => out.push_str("peek\n"),
        Kind::Drive { vhost, ring } => writeln!(out, "drive {vhost} {ring}"),
        Kind::Post { vhost, ring } => writeln!(out, "post {vhost} {ring}"),
        Kind::Harvest { vhost, ring } => writeln!(out, "harvest {vhost} {ring}"),
    }
}

/// Adds the line of a step.
pub fn put_step(out: &mut String, step: &StepLine) -> Result<(), AllocError>
    ensures { OnOk result (string_bytes out.new ≡ string_bytes out.old ++ line (step_line step.now)) }
{
    write!(out, "step {} {} ", step.actor, step.command)?;
    put_kind(out, step.kind)
}
