//! The text of a scenario.

ghost use Rattle.std.specs.Prelude.{◌≡◌, ◌++◌, false, OnOk, IfOk, map, string_bytes};
ghost use Rattle.scen_words.specs.Field.{line, text};
ghost use Rattle.scen_words.specs.Rows.{declaration_row};
ghost use Rattle.scen_text.specs.ScenarioText.{actor_row, bare_row, block_rows, is_bare, phase_rows, phases_rows, scenario_text};

use crate::scenario::{Line, Phase, Scenario};
use scen_words::{Declaration, put_command, put_declaration};
use std::alloc::{AllocError, Global};
use std::fmt::Write;
use text_fields::DeviceName;

// A command's line outside a block.
fn put_bare(out: &mut String, names: &[DeviceName], each: &Line) -> Result<(), AllocError>
    ensures { OnOk result (string_bytes out.new ≡ string_bytes out.old ++ line (bare_row names.now each.now)) }
{
    put_command(out, names, &each.command)
}

// A command's line in a block.
fn put_actor(out: &mut String, names: &[DeviceName], each: &Line) -> Result<(), AllocError>
    ensures { OnOk result (string_bytes out.new ≡ string_bytes out.old ++ line (actor_row names.now each.now)) }
{
    write!(out, "@{} ", each.actor)?;
    put_bare(out, names, each)?;
    Ok(())
}

fn put_declarations(
    out: &mut String,
    alloc: Global,
    names: &[DeviceName],
    declarations: &[Declaration],
) -> Result<(), AllocError>
    ensures { OnOk result (string_bytes out.new ≡ string_bytes out.old
        ++ text (map (declaration_row names.now) declarations.now)) }
{
    for declaration in declarations {
        put_declaration(out, alloc, names, declaration)?;
    }
    Ok(())
}

fn put_bare_lines(out: &mut String, names: &[DeviceName], lines: &[Line]) -> Result<(), AllocError>
    ensures { OnOk result (string_bytes out.new ≡ string_bytes out.old ++ text (map (bare_row names.now) lines.now)) }
{
    for each in lines {
        put_bare(out, names, each)?;
    }
    Ok(())
}

fn put_actor_lines(out: &mut String, names: &[DeviceName], lines: &[Line]) -> Result<(), AllocError>
    ensures { OnOk result (string_bytes out.new ≡ string_bytes out.old ++ text (map (actor_row names.now) lines.now)) }
{
    for each in lines {
        put_actor(out, names, each)?;
    }
    Ok(())
}

fn put_block(out: &mut String, names: &[DeviceName], phase: &Phase) -> Result<(), AllocError>
    ensures { OnOk result (string_bytes out.new ≡ string_bytes out.old ++ text (block_rows names.now phase.now)) }
{
    writeln!(out, "phase {}", phase.actors)?;
    put_actor_lines(out, names, phase.lines.as_slice())?;
    out.push_str("end\n")
}

// Whether the phase is written as its commands alone.
fn is_bare(after_bare: bool, phase: &Phase) -> bool
    ensures { result ≡ is_bare after_bare phase.now }
{
    !after_bare & (phase.actors == 1) & (phase.lines.len() != 0)
}

fn put_phase(
    out: &mut String,
    names: &[DeviceName],
    bare: bool,
    phase: &Phase,
) -> Result<(), AllocError>
    ensures { OnOk result (string_bytes out.new ≡ string_bytes out.old ++ text (phase_rows names.now bare phase.now)) }
{
    if bare {
        put_bare_lines(out, names, phase.lines.as_slice())
    } else {
        put_block(out, names, phase)
    }
}

fn put_phases(out: &mut String, names: &[DeviceName], phases: &[Phase]) -> Result<(), AllocError>
    ensures { OnOk result (string_bytes out.new ≡ string_bytes out.old
        ++ text (phases_rows names.now false phases.now)) }
{
    let mut bare = false;
    for phase in phases {
        bare = is_bare(bare, phase);
        put_phase(out, names, bare, phase)?;
    }
    Ok(())
}

/// The text of a scenario. A first place of 0 isn't written, and a phase of one actor is written as its commands
/// alone where it has some and the phase before it isn't written so.
pub fn print_scenario(alloc: Global, scenario: &Scenario) -> Result<String, AllocError>
    ensures { IfOk result (λ text. string_bytes text ≡ scenario_text scenario.now) }
{
    let mut out = String::new(alloc);
    let names = scenario.names.as_slice();
    writeln!(out, "tapscen {}", scenario.version)?;
    put_declarations(&mut out, alloc, names, scenario.declarations.as_slice())?;
    put_phases(&mut out, names, scenario.phases.as_slice())?;
    Ok(out)
}
