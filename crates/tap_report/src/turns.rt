//! The turns of the workers.

ghost use Rattle.std.specs.Prelude.{◌≡◌, ◌++◌, OnOk, IfOk, count_by};
ghost use Rattle.std.specs.List.{flat_map};
ghost use Rattle.tap_report.specs.Turns.{answer_turn, is_got, is_refused, is_turn_of, phase_turns, turn_of, turned};

use crate::index::{Role, role_at};
use sqlite_items::Items;
use std::alloc::{AllocError, Global};
use tap_trace::{Answer, AnswerLine, ChainText, PhasePart};

/// One turn of a worker.
#[derive(Clone, Copy, Debug, PartialEq, Eq)]
pub struct Turned {
    pub vhost: u16,
    /// 0 for a turn of the receive worker, 1 for one of the transmit worker.
    pub ring: u16,
    pub bytes: u64,
    /// How many frames it accepted.
    pub got: u64,
    /// How many frames it refused.
    pub refused: u64,
}

fn is_got(chain: &ChainText) -> bool
    ensures { result ≡ is_got chain.now }
{
    match chain {
        ChainText::Got { .. } => true,
        ChainText::Refused { .. } => false,
    }
}

fn is_refused(chain: &ChainText) -> bool
    ensures { result ≡ is_refused chain.now }
{
    match chain {
        ChainText::Got { .. } => false,
        ChainText::Refused { .. } => true,
    }
}

fn accepted(chains: &[ChainText]) -> u64
    ensures { result ≡ count_by is_got chains.now }
{
    chains.iter().filter(|chain| is_got(chain)).count() as u64
}

fn refused(chains: &[ChainText]) -> u64
    ensures { result ≡ count_by is_refused chains.now }
{
    chains.iter().filter(|chain| is_refused(chain)).count() as u64
}

fn push_turned(
    out: &mut Items<Turned>,
    vhost: u16,
    ring: u16,
    bytes: u64,
    chains: &[ChainText],
) -> Result<(), AllocError>
    ensures { OnOk result (out.new ≡ out.old ++ turned vhost ring bytes chains.now) }
{
    out.push(Turned {
        vhost,
        ring,
        bytes,
        got: accepted(chains),
        refused: refused(chains),
    })
}

// The turn that a command and its answer are.
fn push_turn(out: &mut Items<Turned>, role: Role, answer: &Answer) -> Result<(), AllocError>
    ensures { OnOk result (out.new ≡ out.old ++ turn_of role answer.now) }
{
    match (role, answer) {
        (Role::Receives { vhost }, Answer::Turn { bytes, chains, .. }) => {
            push_turned(out, vhost, 0, *bytes, chains.as_slice())
        }
        (Role::Transmits { vhost }, Answer::Turn { bytes, chains, .. }) => {
            push_turned(out, vhost, 1, *bytes, chains.as_slice())
        }
        _ => Ok(()),
    }
}

fn push_answer(
    out: &mut Items<Turned>,
    roles: &[Role],
    answer: &AnswerLine,
) -> Result<(), AllocError>
    ensures { OnOk result (out.new ≡ out.old ++ answer_turn roles.now answer.now) }
{
    push_turn(out, role_at(roles, answer.command), &answer.answer)
}

fn push_answers(
    out: &mut Items<Turned>,
    roles: &[Role],
    answers: &[AnswerLine],
) -> Result<(), AllocError>
    ensures { OnOk result (out.new ≡ out.old ++ flat_map (answer_turn roles.now) answers.now) }
{
    for answer in answers {
        push_answer(out, roles, answer)?;
    }
    Ok(())
}

fn push_phase(out: &mut Items<Turned>, roles: &[Role], phase: &PhasePart) -> Result<(), AllocError>
    ensures { OnOk result (out.new ≡ out.old ++ phase_turns roles.now phase.now) }
{
    push_answers(out, roles, phase.answers.as_slice())
}

/// The turns of some phases.
pub fn turns(
    alloc: Global,
    roles: &[Role],
    phases: &[PhasePart],
) -> Result<Items<Turned>, AllocError>
    ensures { IfOk result (λ u. u ≡ flat_map (phase_turns roles.now) phases.now) }
{
    let mut out = Items::new(alloc);
    for phase in phases {
        push_phase(&mut out, roles, phase)?;
    }
    Ok(out)
}

/// Whether it is a turn of this ring.
pub fn is_turn_of(vhost: u16, ring: u16, turn: &Turned) -> bool
    ensures { result ≡ is_turn_of vhost ring turn.now }
{
    turn.vhost == vhost && turn.ring == ring
}
