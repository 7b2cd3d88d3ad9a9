//! The commands of a scenario, by number.

ghost use Rattle.std.specs.Prelude.{◌≡◌, ◌++◌, IfOk, OnOk, map, slice_get};
ghost use Rattle.std.specs.Option.{option_copied};
ghost use Rattle.scen_text.specs.declared.scenario.Line.{Line};
ghost use Rattle.tap_told.specs.Phases.{commands_of};

use scen_text::{Command, Line, Phase};
use std::alloc::{AllocError, Global};

fn push_commands<'a>(commands: &mut Vec<&'a Command>, lines: &'a [Line]) -> Result<(), AllocError>
    ensures { OnOk result (map (λ c. c.now) commands.new.items
        ≡ map (λ c. c.now) commands.old.items ++ map (λ (l : Line). l.command) lines.now) }
{
    for line in lines {
        commands.push(&line.command)?;
    }
    Ok(())
}

/// The commands of phases, in the order of their numbers.
pub(crate) fn commands_of<'a>(
    alloc: Global,
    phases: &'a [Phase],
) -> Result<Vec<&'a Command>, AllocError>
    ensures { IfOk result (λ commands. map (λ c. c.now) commands.items ≡ commands_of phases.now) }
{
    let mut commands = Vec::new(alloc);
    for phase in phases {
        push_commands(&mut commands, phase.lines.as_slice())?;
    }
    Ok(commands)
}

/// The command of a number.
pub(crate) fn command_at<'a>(commands: &[&'a Command], number: u32) -> Option<&'a Command>
    ensures { option_copied result ≡ slice_get (map (λ c. c.now) commands.now) number }
{
    commands.get(number as usize).copied()
}
