//! The operations on the queue table.

ghost use Rattle.std.specs.Prelude.{◌≡◌, ◌<◌, [], IfOk, OnOk, map, length, slice_index_or};
ghost use Rattle.std.specs.List.{AllByRecursion};
ghost use Rattle.tap_world.specs.Project.{op_line, with_versions, words_of};
ghost use Rattle.tap_world.specs.Setup.{setup_of};
ghost use Rattle.tap_told.specs.Phases.{commands_of, ops_told};
ghost use Rattle.tap_told.specs.Devices.{HasDevice};

use crate::commands::command_at;
use crate::open_part::{OpenPart, tell_op};
use scen_text::{Command, Scenario};
use std::alloc::{AllocError, Global};
use tap_steer::Op;
use tap_trace::{OpLine, OpText};
use tap_world::Published;
use text_fields::DeviceName;

fn name_of(scenario: &Scenario, device: u16) -> DeviceName
    requires { device < length scenario.now.names }
    ensures { result ≡ slice_index_or (setup_of scenario.now).names device [] }
{
    scenario.names.as_slice()[usize::from(device)].duplicate()
}

// The words of an operation: its own, the name of its device, or those of its command.
fn words_of(
    alloc: Global,
    scenario: &Scenario,
    command: &Command,
    published: &Published,
) -> Result<OpText, AllocError>
    requires { HasDevice scenario.now.names published.now }
    ensures { IfOk result (λ text. text ≡ words_of (setup_of scenario.now) command.now published.now.op) }
{
    match published.op {
        Op::SetIff {
            file,
            device,
            flags,
        } => Ok(OpText::SetIff {
            file,
            name: name_of(scenario, device),
            flags,
        }),
        Op::Learn { file, hash } => Ok(OpText::Learn { file, hash }),
        Op::Back { file, side, vhost } => Ok(OpText::Back { file, side, vhost }),
        Op::SetQueue { .. }
        | Op::Shut { .. }
        | Op::HdrSize { .. }
        | Op::Persist { .. }
        | Op::Tick { .. }
        | Op::Steering { .. }
        | Op::Filter { .. }
        | Op::Resize { .. } => Ok(OpText::Words(command.duplicate(alloc)?)),
    }
}

// The line of the operation that made a version, where its command is one of the scenario's.
fn op_line(
    alloc: Global,
    scenario: &Scenario,
    commands: &[&Command],
    version: u64,
    published: &Published,
) -> Result<Option<OpLine>, AllocError>
    requires commands { map (λ c. c.now) commands.now ≡ commands_of scenario.now.phases }
    requires device { HasDevice scenario.now.names published.now }
    ensures { IfOk result (λ line. line ≡ op_line (setup_of scenario.now) (version, published.now)) }
{
    match command_at(commands, published.command) {
        Some(command) => Ok(Some(OpLine {
            version,
            command: published.command,
            text: words_of(alloc, scenario, command, published)?,
        })),
        None => Ok(None),
    }
}

/// Tells each operation in the part of its phase.
pub(crate) fn tell_ops(
    alloc: Global,
    parts: &mut [OpenPart],
    scenario: &Scenario,
    commands: &[&Command],
    ops: &[Published],
) -> Result<(), AllocError>
    requires commands { map (λ c. c.now) commands.now ≡ commands_of scenario.now.phases }
    requires devices { AllByRecursion (HasDevice scenario.now.names) ops.now }
    ensures { OnOk result (parts.new ≡ ops_told (setup_of scenario.now) parts.old (with_versions 1 ops.now)) }
{
    for (index, published) in ops.iter().enumerate() {
        let version = index as u64 + 1;
        let line = op_line(alloc, scenario, commands, version, published)?;
        tell_op(parts, published.phase, line)?;
    }
    Ok(())
}
