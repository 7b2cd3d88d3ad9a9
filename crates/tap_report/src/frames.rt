//! The frames of a trace.

ghost use Rattle.std.specs.Prelude.{◌≡◌, ◌++◌, OnOk, IfOk, map};
ghost use Rattle.std.specs.List.{flat_map};
ghost use Rattle.tap_report.specs.Frames.{answered, chain_frames, file_frames, frames, frames_of, hosting_device, hosting_file, phase_frames, placed, sent_device, sent_len};

use crate::index::{Index, Role, backing_at, device_at, role_at};
use sqlite_items::Items;
use std::alloc::{AllocError, Global};
use tap_ledger::Fate;
use tap_trace::{Answer, AnswerLine, ChainText, FilePart, PhasePart, PlaceLine, Trace};

/// One frame: what became of it, its length, and the number of the name of the device for which it counts.
#[derive(Clone, Copy, Debug, PartialEq, Eq)]
pub struct Counted {
    pub fate: Fate,
    pub len: u32,
    pub device: Option<usize>,
}

// The name in a `send`.
fn sent_device(role: Role) -> Option<usize>
    ensures { result ≡ sent_device role }
{
    match role {
        Role::Sends { name, len: _ } => Some(name as usize),
        _ => None,
    }
}

// The length of the frame of a `send`, and 0 where the command is none.
fn sent_len(role: Role) -> u32
    ensures { result ≡ sent_len role }
{
    match role {
        Role::Sends { name: _, len } => len,
        _ => 0,
    }
}

// The file that a `write` or a transmit turn has a frame of.
fn hosting_file(index: &Index, seen: u64, role: Role) -> Option<usize>
    ensures { result ≡ hosting_file index.now seen role }
{
    match role {
        Role::Writes { file } => Some(usize::from(file)),
        Role::Transmits { vhost } => {
            let backing = backing_at(&index.backings, usize::from(vhost), seen)?;
            backing.value
        }
        _ => None,
    }
}

// The device for which its hosted frames count.
fn hosting_device(index: &Index, seen: u64, role: Role) -> Option<usize>
    ensures { result ≡ hosting_device index.now seen role }
{
    let file = hosting_file(index, seen, role)?;
    device_at(&index.attachments, file, seen)
}

fn push_chain(
    out: &mut Items<Counted>,
    device: Option<usize>,
    chain: &ChainText,
) -> Result<(), AllocError>
    ensures { OnOk result (out.new ≡ out.old ++ chain_frames device chain.now) }
{
    match chain {
        ChainText::Got { len, .. } => out.push(Counted {
            fate: Fate::Host,
            len: *len,
            device,
        }),
        ChainText::Refused { .. } => Ok(()),
    }
}

fn push_chains(
    out: &mut Items<Counted>,
    device: Option<usize>,
    chains: &[ChainText],
) -> Result<(), AllocError>
    ensures { OnOk result (out.new ≡ out.old ++ flat_map (chain_frames device) chains.now) }
{
    for chain in chains {
        push_chain(out, device, chain)?;
    }
    Ok(())
}

// The frames that an answer says to be discarded or hosted.
fn push_frames(
    out: &mut Items<Counted>,
    index: &Index,
    seen: u64,
    role: Role,
    answer: &Answer,
) -> Result<(), AllocError>
    ensures { OnOk result (out.new ≡ out.old ++ frames_of index.now seen role answer.now) }
{
    match answer {
        Answer::Dropped { cause, .. } => out.push(Counted {
            fate: Fate::Discarded(*cause),
            len: sent_len(role),
            device: sent_device(role),
        }),
        Answer::Host { len, .. } => out.push(Counted {
            fate: Fate::Host,
            len: *len,
            device: hosting_device(index, seen, role),
        }),
        Answer::Turn { chains, .. } => {
            push_chains(out, hosting_device(index, seen, role), chains.as_slice())
        }
        _ => Ok(()),
    }
}

fn push_answered(
    out: &mut Items<Counted>,
    index: &Index,
    answer: &AnswerLine,
) -> Result<(), AllocError>
    ensures { OnOk result (out.new ≡ out.old ++ answered index.now answer.now) }
{
    let role = role_at(index.roles.as_slice(), answer.command);
    push_frames(out, index, answer.seen, role, &answer.answer)
}

fn push_answers(
    out: &mut Items<Counted>,
    index: &Index,
    answers: &[AnswerLine],
) -> Result<(), AllocError>
    ensures { OnOk result (out.new ≡ out.old ++ flat_map (answered index.now) answers.now) }
{
    for answer in answers {
        push_answered(out, index, answer)?;
    }
    Ok(())
}

fn push_phase(out: &mut Items<Counted>, index: &Index, phase: &PhasePart) -> Result<(), AllocError>
    ensures { OnOk result (out.new ≡ out.old ++ phase_frames index.now phase.now) }
{
    push_answers(out, index, phase.answers.as_slice())
}

fn push_phases(
    out: &mut Items<Counted>,
    index: &Index,
    phases: &[PhasePart],
) -> Result<(), AllocError>
    ensures { OnOk result (out.new ≡ out.old ++ flat_map (phase_frames index.now) phases.now) }
{
    for phase in phases {
        push_phase(out, index, phase)?;
    }
    Ok(())
}

// A frame that had a place.
fn placed(index: &Index, line: &PlaceLine) -> Counted
    ensures { result ≡ placed index.now line.now }
{
    let role = role_at(index.roles.as_slice(), line.name.turn);
    Counted {
        fate: line.fate,
        len: line.len,
        device: sent_device(role),
    }
}

fn push_lines(
    out: &mut Items<Counted>,
    index: &Index,
    lines: &[PlaceLine],
) -> Result<(), AllocError>
    ensures { OnOk result (out.new ≡ out.old ++ map (placed index.now) lines.now) }
{
    for line in lines {
        out.push(placed(index, line))?;
    }
    Ok(())
}

fn push_file(out: &mut Items<Counted>, index: &Index, file: &FilePart) -> Result<(), AllocError>
    ensures { OnOk result (out.new ≡ out.old ++ file_frames index.now file.now) }
{
    push_lines(out, index, file.lines.as_slice())
}

fn push_files(out: &mut Items<Counted>, index: &Index, files: &[FilePart]) -> Result<(), AllocError>
    ensures { OnOk result (out.new ≡ out.old ++ flat_map (file_frames index.now) files.now) }
{
    for file in files {
        push_file(out, index, file)?;
    }
    Ok(())
}

/// All frames: first those that the answers say to be discarded or hosted, then those that had a place.
pub fn frames(alloc: Global, index: &Index, trace: &Trace) -> Result<Items<Counted>, AllocError>
    ensures { IfOk result (λ f. f ≡ frames index.now trace.now) }
{
    let mut out = Items::new(alloc);
    push_phases(&mut out, index, trace.phases.as_slice())?;
    push_files(&mut out, index, trace.files.as_slice())?;
    Ok(out)
}
