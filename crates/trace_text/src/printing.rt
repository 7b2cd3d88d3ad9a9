//! The text of a trace.

ghost use Rattle.std.specs.Prelude.{◌≡◌, ◌++◌, OnOk, IfOk, map, string_bytes};
ghost use Rattle.std.specs.List.{flat_map};
ghost use Rattle.scen_words.specs.Field.{text};
ghost use Rattle.trace_words.specs.Answers.{answer_lines};
ghost use Rattle.trace_words.specs.Operations.{op_line};
ghost use Rattle.trace_text.specs.Parts.{file_part, guest_part, list_part, phase_part, phase_parts, ring_part};
ghost use Rattle.trace_words.specs.Places.{place_line, used_line};
ghost use Rattle.trace_words.specs.Steps.{step_line};
ghost use Rattle.trace_text.specs.TraceText.{trace_text};

use std::alloc::{AllocError, Global};
use std::fmt::Write;
use tap_trace::{
    AnswerLine, FilePart, GuestPart, OpLine, PhasePart, PlaceLine, PositionList, RingPart,
    StepLine, Trace,
};
use trace_words::{put_answer, put_op, put_place, put_step};

fn put_ops(out: &mut String, ops: &[OpLine]) -> Result<(), AllocError>
    ensures { OnOk result (string_bytes out.new ≡ string_bytes out.old ++ text (map op_line ops.now)) }
{
    for op in ops {
        put_op(out, op)?;
    }
    Ok(())
}

fn put_answers(out: &mut String, answers: &[AnswerLine]) -> Result<(), AllocError>
    ensures { OnOk result (string_bytes out.new ≡ string_bytes out.old ++ text (flat_map answer_lines answers.now)) }
{
    for answer in answers {
        put_answer(out, answer)?;
    }
    Ok(())
}

fn put_phase(out: &mut String, number: usize, phase: &PhasePart) -> Result<(), AllocError>
    ensures { OnOk result (string_bytes out.new ≡ string_bytes out.old ++ text (phase_part number phase.now)) }
{
    writeln!(out, "phase {number} {}", phase.actors)?;
    put_ops(out, phase.ops.as_slice())?;
    put_answers(out, phase.answers.as_slice())
}

fn put_phases(out: &mut String, phases: &[PhasePart]) -> Result<(), AllocError>
    ensures { OnOk result (string_bytes out.new ≡ string_bytes out.old ++ text (phase_parts 0 phases.now)) }
{
    for (number, phase) in phases.iter().enumerate() {
        put_phase(out, number, phase)?;
    }
    Ok(())
}

fn put_places(out: &mut String, places: &[PlaceLine]) -> Result<(), AllocError>
    ensures { OnOk result (string_bytes out.new ≡ string_bytes out.old ++ text (map place_line places.now)) }
{
    for place in places {
        put_place(out, place)?;
    }
    Ok(())
}

fn put_file(out: &mut String, file: &FilePart) -> Result<(), AllocError>
    ensures { OnOk result (string_bytes out.new ≡ string_bytes out.old ++ text (file_part file.now)) }
{
    writeln!(out, "file {} {} {}", file.file, file.claimed, file.freed)?;
    put_places(out, file.lines.as_slice())
}

fn put_files(out: &mut String, files: &[FilePart]) -> Result<(), AllocError>
    ensures { OnOk result (string_bytes out.new ≡ string_bytes out.old ++ text (flat_map file_part files.now)) }
{
    for file in files {
        put_file(out, file)?;
    }
    Ok(())
}

fn put_steps(out: &mut String, steps: &[StepLine]) -> Result<(), AllocError>
    ensures { OnOk result (string_bytes out.new ≡ string_bytes out.old ++ text (map step_line steps.now)) }
{
    for step in steps {
        put_step(out, step)?;
    }
    Ok(())
}

fn put_guest(out: &mut String, guest: &GuestPart) -> Result<(), AllocError>
    ensures { OnOk result (string_bytes out.new ≡ string_bytes out.old ++ text (guest_part guest.now)) }
{
    writeln!(out, "guest {}", guest.guest)?;
    put_steps(out, guest.steps.as_slice())
}

fn put_guests(out: &mut String, guests: &[GuestPart]) -> Result<(), AllocError>
    ensures { OnOk result (string_bytes out.new ≡ string_bytes out.old ++ text (flat_map guest_part guests.now)) }
{
    for guest in guests {
        put_guest(out, guest)?;
    }
    Ok(())
}

fn put_used(out: &mut String, chains: &[(u16, u16, u32)]) -> Result<(), AllocError>
    ensures { OnOk result (string_bytes out.new ≡ string_bytes out.old ++ text (map used_line chains.now)) }
{
    for (position, head, len) in chains {
        writeln!(out, "used {position} {head} {len}")?;
    }
    Ok(())
}

fn put_list(out: &mut String, list: &PositionList) -> Result<(), AllocError>
    ensures { OnOk result (string_bytes out.new ≡ string_bytes out.old ++ text (list_part list.now)) }
{
    writeln!(out, "base {}", list.base)?;
    put_used(out, list.used.as_slice())
}

fn put_lists(out: &mut String, lists: &[PositionList]) -> Result<(), AllocError>
    ensures { OnOk result (string_bytes out.new ≡ string_bytes out.old ++ text (flat_map list_part lists.now)) }
{
    for list in lists {
        put_list(out, list)?;
    }
    Ok(())
}

fn put_ring(out: &mut String, ring: &RingPart) -> Result<(), AllocError>
    ensures { OnOk result (string_bytes out.new ≡ string_bytes out.old ++ text (ring_part ring.now)) }
{
    writeln!(out, "ring {} {}", ring.vhost, ring.ring)?;
    put_lists(out, ring.lists.as_slice())
}

fn put_rings(out: &mut String, rings: &[RingPart]) -> Result<(), AllocError>
    ensures { OnOk result (string_bytes out.new ≡ string_bytes out.old ++ text (flat_map ring_part rings.now)) }
{
    for ring in rings {
        put_ring(out, ring)?;
    }
    Ok(())
}

/// The text of a trace.
pub fn print_trace(alloc: Global, trace: &Trace) -> Result<String, AllocError>
    ensures { IfOk result (λ s. string_bytes s ≡ trace_text trace.now) }
{
    let mut out = String::new(alloc);
    out.push_str("taptrace 1\n")?;
    put_phases(&mut out, trace.phases.as_slice())?;
    put_files(&mut out, trace.files.as_slice())?;
    put_guests(&mut out, trace.guests.as_slice())?;
    put_rings(&mut out, trace.rings.as_slice())?;
    out.push_str("end\n")?;
    Ok(out)
}
