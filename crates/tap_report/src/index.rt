//! What the report looks up: the commands by number, the attachments and the backends.

ghost use Rattle.std.specs.Prelude.{◌≡◌, ◌++◌, OnOk, IfOk, map, option_to_list};
ghost use Rattle.std.specs.List.{flat_map};
ghost use Rattle.tap_report.specs.Index.{attached, backed, backing_at, device_at, line_role, number_among, phase_roles, phase_settings, role_at, role_of, set_by};
ghost use Rattle.tap_report.specs.Rows.{index_of};

use crate::history::{History, Setting};
use scen_text::{Line, Phase, Scenario};
use scen_words::Command;
use sqlite_items::Items;
use std::alloc::{AllocError, Global};
use tap_trace::{OpLine, OpText, PhasePart, Side, Trace};
use text_fields::DeviceName;

/// No frame is longer.
const MAX_LEN: usize = 4_294_967_295;

/// What a command is to the report.
#[derive(Clone, Copy, Debug, PartialEq, Eq)]
pub enum Role {
    /// It sends a frame of so many bytes to the device of the name with this number.
    Sends { name: u16, len: u32 },
    /// It writes a frame to this file.
    Writes { file: u16 },
    /// A turn of this vhost's receive worker.
    Receives { vhost: u16 },
    /// A turn of this vhost's transmit worker.
    Transmits { vhost: u16 },
    /// It gives a ring a backend.
    Backs,
    /// Anything else.
    Other,
}

/// All that is looked up.
#[derive(Debug, Drop)]
pub struct Index {
    /// What each command is, by its number.
    pub roles: Items<Role>,
    /// The attachments, in the order of the trace.
    pub attachments: History,
    /// The transmit backends, in the order of the trace.
    pub backings: History,
}

fn role_of(command: &Command) -> Role
    ensures { result ≡ role_of command.now }
{
    match command {
        Command::Send { name, bytes, .. } => Role::Sends {
            name: *name,
            len: bytes.len().min(MAX_LEN) as u32,
        },
        Command::Write { file, .. } => Role::Writes { file: *file },
        Command::RxTurn { vhost } => Role::Receives { vhost: *vhost },
        Command::TxTurn { vhost } => Role::Transmits { vhost: *vhost },
        Command::Backend { file: Some(_), .. } => Role::Backs,
        _ => Role::Other,
    }
}

fn push_lines(out: &mut Items<Role>, lines: &[Line]) -> Result<(), AllocError>
    ensures { OnOk result (out.new ≡ out.old ++ map line_role lines.now) }
{
    for line in lines {
        out.push(role_of(&line.command))?;
    }
    Ok(())
}

fn push_phase(out: &mut Items<Role>, phase: &Phase) -> Result<(), AllocError>
    ensures { OnOk result (out.new ≡ out.old ++ phase_roles phase.now) }
{
    push_lines(out, phase.lines.as_slice())
}

fn roles(alloc: Global, phases: &[Phase]) -> Result<Items<Role>, AllocError>
    ensures { IfOk result (λ r. r ≡ flat_map phase_roles phases.now) }
{
    let mut out = Items::new(alloc);
    for phase in phases {
        push_phase(&mut out, phase)?;
    }
    Ok(out)
}

/// What the command of this number is.
pub fn role_at(roles: &[Role], number: u32) -> Role
    ensures { result ≡ role_at roles.now number }
{
    match roles.get(number as usize) {
        Some(role) => *role,
        None => Role::Other,
    }
}

// The number of a name among the names.
fn number_among(names: &[DeviceName], name: &DeviceName) -> Option<usize>
    ensures { result ≡ number_among names.now name.now }
{
    names.iter().position(|n| n.as_bytes() == name.as_bytes())
}

/// Which operations are looked up.
#[derive(Clone, Copy)]
pub enum Wanted {
    /// Attachments of files to devices.
    Attachments,
    /// Backends of transmit rings.
    Backings,
}

fn attached(names: &[DeviceName], version: u64, op: &OpText) -> Option<Setting>
    ensures { option_to_list result ≡ attached names.now version op.now }
{
    match op {
        OpText::SetIff { file, name, .. } => Some(Setting {
            version,
            key: *file,
            value: number_among(names, name),
        }),
        _ => None,
    }
}

fn backed(version: u64, op: &OpText) -> Option<Setting>
    ensures { option_to_list result ≡ backed version op.now }
{
    match op {
        OpText::Back {
            file,
            side: Side::Tx,
            vhost: Some(vhost),
        } => Some(Setting {
            version,
            key: *vhost,
            value: Some(usize::from(*file)),
        }),
        _ => None,
    }
}

// What an operation sets, where it is wanted.
fn set_by(wanted: Wanted, names: &[DeviceName], op: &OpLine) -> Option<Setting>
    ensures { option_to_list result ≡ set_by wanted names.now op.now }
{
    match wanted {
        Wanted::Attachments => attached(names, op.version, &op.text),
        Wanted::Backings => backed(op.version, &op.text),
    }
}

fn push_op(
    out: &mut Items<Setting>,
    wanted: Wanted,
    names: &[DeviceName],
    op: &OpLine,
) -> Result<(), AllocError>
    ensures { OnOk result (out.new ≡ out.old ++ set_by wanted names.now op.now) }
{
    match set_by(wanted, names, op) {
        Some(setting) => out.push(setting),
        None => Ok(()),
    }
}

fn push_ops(
    out: &mut Items<Setting>,
    wanted: Wanted,
    names: &[DeviceName],
    ops: &[OpLine],
) -> Result<(), AllocError>
    ensures { OnOk result (out.new ≡ out.old ++ flat_map (set_by wanted names.now) ops.now) }
{
    for op in ops {
        push_op(out, wanted, names, op)?;
    }
    Ok(())
}

fn push_settings(
    out: &mut Items<Setting>,
    wanted: Wanted,
    names: &[DeviceName],
    phase: &PhasePart,
) -> Result<(), AllocError>
    ensures { OnOk result (out.new ≡ out.old ++ phase_settings wanted names.now phase.now) }
{
    push_ops(out, wanted, names, phase.ops.as_slice())
}

// All that is wanted, in the order of the trace.
fn settings(
    alloc: Global,
    wanted: Wanted,
    names: &[DeviceName],
    phases: &[PhasePart],
) -> Result<Items<Setting>, AllocError>
    ensures { IfOk result (λ r. r ≡ flat_map (phase_settings wanted names.now) phases.now) }
{
    let mut out = Items::new(alloc);
    for phase in phases {
        push_settings(&mut out, wanted, names, phase)?;
    }
    Ok(out)
}

/// What is looked up for a trace of a scenario.
pub fn index_of(alloc: Global, scenario: &Scenario, trace: &Trace) -> Result<Index, AllocError>
    ensures { IfOk result (λ x. x ≡ index_of scenario.now trace.now) }
{
    let phases = trace.phases.as_slice();
    let names = scenario.names.as_slice();
    Ok(Index {
        roles: roles(alloc, scenario.phases.as_slice())?,
        attachments: History::of(alloc, settings(alloc, Wanted::Attachments, names, phases)?)?,
        backings: History::of(alloc, settings(alloc, Wanted::Backings, names, phases)?)?,
    })
}

/// The device to which a file was attached by its last attachment up to a version.
pub fn device_at(attachments: &History, file: usize, seen: u64) -> Option<usize>
    ensures { result ≡ device_at attachments.now file seen }
{
    match attachments.latest(file, seen) {
        Some(attachment) => attachment.value,
        None => None,
    }
}

/// The transmit backend of a vhost: the last one up to a version, and where there is none the first one after it.
pub fn backing_at(backings: &History, vhost: usize, seen: u64) -> Option<Setting>
    ensures { result ≡ backing_at backings.now vhost seen }
{
    match backings.latest(vhost, seen) {
        Some(backing) => Some(backing),
        None => backings.first(vhost),
    }
}
