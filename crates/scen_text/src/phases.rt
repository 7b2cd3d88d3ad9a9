//! A phase made of its lines.

ghost use Rattle.std.specs.Prelude.{◌≡◌, [], ◌∷◌, ◌++◌, IfOk, OnOk};
ghost use Rattle.scen_text.specs.Before.{phase_of, script_of, scripts_from};

use crate::scenario::{Line, Phase, Script};
use scen_words::Command;
use sqlite_items::Items;
use std::alloc::{AllocError, Global};

// Adds the command of a line, where it is the actor's.
fn add_command(
    commands: &mut Items<Command>,
    alloc: Global,
    line: &Line,
    actor: u16,
) -> Result<(), AllocError>
    ensures { OnOk result (commands.new ≡ commands.old ++ (script_of (line.now ∷ []) actor).commands) }
{
    if line.actor == actor {
        commands.push(line.command.duplicate(alloc)?)?;
    }
    Ok(())
}

// The commands of an actor among the lines.
fn script_of(alloc: Global, lines: &[Line], actor: u16) -> Result<Script, AllocError>
    ensures { IfOk result (λ script. script ≡ script_of lines.now actor) }
{
    let mut commands = Items::new(alloc);
    for line in lines {
        add_command(&mut commands, alloc, line, actor)?;
    }
    Ok(Script { commands })
}

// The scripts of all actors.
fn scripts_of(alloc: Global, lines: &[Line], actors: u16) -> Result<Items<Script>, AllocError>
    ensures { IfOk result (λ scripts. scripts ≡ scripts_from lines.now 0 actors) }
{
    let mut scripts = Items::new(alloc);
    for actor in 0..actors {
        scripts.push(script_of(alloc, lines, actor)?)?;
    }
    Ok(scripts)
}

/// The phase of so many actors with these lines.
#[tactic(auto, unfolding(crate::specs::Before::phase_of))]
pub fn phase_of(alloc: Global, actors: u16, lines: Items<Line>) -> Result<Phase, AllocError>
    ensures { IfOk result (λ phase. phase ≡ phase_of actors lines) }
{
    let scripts = scripts_of(alloc, lines.as_slice(), actors)?;
    Ok(Phase {
        actors,
        scripts,
        lines,
    })
}
