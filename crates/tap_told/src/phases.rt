//! The parts of phases.

ghost use Rattle.std.specs.Prelude.{◌≡◌, [], IfOk, OnOk, map};
ghost use Rattle.std.specs.List.{AllByRecursion};
ghost use Rattle.tap_world.specs.Project.{phase_parts, with_versions};
ghost use Rattle.tap_world.specs.Setup.{setup_of};
ghost use Rattle.tap_told.specs.Phases.{answers_told, in_order, ops_told, untold};
ghost use Rattle.tap_told.specs.Devices.{HasDevice};
ghost use Rattle.tap_told.specs.Told.{told_world};

use crate::commands::commands_of;
use crate::open_part::{OpenPart, tell_answer};
use crate::operations::tell_ops;
use scen_text::{Phase, Scenario};
use sqlite_items::Items;
use std::alloc::{AllocError, Global};
use tap_trace::PhasePart;
use tap_world::{Published, Said};

// A part for each phase, with nothing in it.
fn open_parts(alloc: Global, phases: &[Phase]) -> Result<Vec<OpenPart>, AllocError>
    ensures { IfOk result (λ parts. parts.items ≡ map untold phases.now) }
{
    let mut parts = Vec::new(alloc);
    for phase in phases {
        parts.push(OpenPart::new(alloc, phase.actors))?;
    }
    Ok(parts)
}

// Tells each answer in the part of its phase.
fn tell_answers(parts: &mut [OpenPart], said: Vec<Said>) -> Result<(), AllocError>
    ensures { OnOk result (parts.new ≡ answers_told parts.old said.items) }
{
    for answer in said {
        tell_answer(parts, answer)?;
    }
    Ok(())
}

// The parts, with the answers of each by actor.
fn close_parts(alloc: Global, parts: Vec<OpenPart>) -> Result<Items<PhasePart>, AllocError>
    ensures { IfOk result (λ closed. closed ≡ map in_order parts.items) }
{
    let mut closed = Items::new(alloc);
    for part in parts {
        closed.push(part.close()?)?;
    }
    Ok(closed)
}

// Tells operations and answers in the parts of their phases.
fn tell_all(
    alloc: Global,
    parts: &mut [OpenPart],
    scenario: &Scenario,
    ops: &[Published],
    said: Vec<Said>,
) -> Result<(), AllocError>
    requires { AllByRecursion (HasDevice scenario.now.names) ops.now }
    ensures { OnOk result (parts.new
        ≡ answers_told (ops_told (setup_of scenario.now) parts.old (with_versions 1 ops.now)) said.items) }
{
    let commands = commands_of(alloc, scenario.phases.as_slice())?;
    tell_ops(alloc, parts, scenario, &commands, ops)?;
    tell_answers(parts, said)?;
    Ok(())
}

/// The parts of a scenario's phases, with these operations and answers.
pub(crate) fn phase_parts(
    alloc: Global,
    scenario: &Scenario,
    ops: &[Published],
    said: Vec<Said>,
) -> Result<Items<PhasePart>, AllocError>
    requires { AllByRecursion (HasDevice scenario.now.names) ops.now }
    ensures { IfOk result (λ parts. parts ≡ phase_parts (setup_of scenario.now)
        (told_world ops.now said.items [] [] []) 0 (setup_of scenario.now).phases) }
{
    let mut parts = open_parts(alloc, scenario.phases.as_slice())?;
    tell_all(alloc, &mut parts, scenario, ops, said)?;
    close_parts(alloc, parts)
}
