//! The phases of a trace, to which lines are added at the end.

ghost use Rattle.std.specs.Prelude.{◌≡◌, IfOk};
ghost use Rattle.trace_text.specs.Building.{Opens, Takes, behind_answer, in_phase, is_at_phases, may_follow, phase_back, with_answer, with_chain, with_op, with_phase, with_resize};
ghost use Rattle.trace_text.specs.Ordered.{answer_before, op_before};

use crate::items::{last, none_yet, pair_before};
use sqlite_items::Items;
use std::alloc::{AllocError, Global};
use tap_trace::{Answer, AnswerLine, ChainText, OpLine, PhasePart, Trace};

// Whether nothing stands behind the phases.
fn is_at_phases(trace: &Trace) -> bool
    ensures { result ≡ is_at_phases trace.now }
{
    none_yet(&trace.files) & none_yet(&trace.guests) & none_yet(&trace.rings)
}

/// `phase`: it has the next number.
pub fn add_phase(
    trace: &mut Trace,
    alloc: Global,
    number: u64,
    actors: u16,
) -> Result<bool, AllocError>
    ensures { IfOk result (λ taken. Takes (with_phase number actors trace.old) taken trace.new) }
{
    let is_next = number == trace.phases.len() as u64;
    if !(is_at_phases(trace) & is_next) {
        return Ok(false);
    }
    trace.phases.push(PhasePart {
        actors,
        ops: Items::new(alloc),
        answers: Items::new(alloc),
    })?;
    Ok(true)
}

// The last phase, taken out of the trace, where a line can stand in it.
fn open_phase(trace: &mut Trace) -> Option<PhasePart>
    ensures { Opens (λ f. in_phase f trace.old) (phase_back trace.new) result }
{
    if !is_at_phases(trace) {
        return None;
    }
    trace.phases.pop()
}

fn op_follows(ops: &Items<OpLine>, op: &OpLine) -> bool
    ensures { result ≡ may_follow op_before ops.now op.now }
{
    match last(ops) {
        Some(last) => last.version < op.version,
        None => true,
    }
}

fn put_op(phase: &mut PhasePart, op: OpLine) -> Result<bool, AllocError>
    ensures { IfOk result (λ taken. Takes (with_op op phase.old) taken phase.new) }
{
    if !(none_yet(&phase.answers) & op_follows(&phase.ops, &op)) {
        return Ok(false);
    }
    phase.ops.push(op)?;
    Ok(true)
}

/// `op`: behind the other operations and before the answers.
pub fn add_op(trace: &mut Trace, op: OpLine) -> Result<bool, AllocError>
    ensures { IfOk result (λ taken. Takes (in_phase (with_op op) trace.old) taken trace.new) }
{
    let Some(mut phase) = open_phase(trace) else {
        return Ok(false);
    };
    if !put_op(&mut phase, op)? {
        return Ok(false);
    }
    trace.phases.push(phase)?;
    Ok(true)
}

fn answer_follows(answers: &Items<AnswerLine>, line: &AnswerLine) -> bool
    ensures { result ≡ may_follow answer_before answers.now line.now }
{
    match last(answers) {
        Some(last) => pair_before(last.actor, last.command, line.actor, line.command),
        None => true,
    }
}

fn put_answer(phase: &mut PhasePart, line: AnswerLine) -> Result<bool, AllocError>
    ensures { IfOk result (λ taken. Takes (with_answer line phase.old) taken phase.new) }
{
    if !answer_follows(&phase.answers, &line) {
        return Ok(false);
    }
    phase.answers.push(line)?;
    Ok(true)
}

/// `ans`: behind the other answers.
pub fn add_answer(trace: &mut Trace, line: AnswerLine) -> Result<bool, AllocError>
    ensures { IfOk result (λ taken. Takes (in_phase (with_answer line) trace.old) taken trace.new) }
{
    let Some(mut phase) = open_phase(trace) else {
        return Ok(false);
    };
    if !put_answer(&mut phase, line)? {
        return Ok(false);
    }
    trace.phases.push(phase)?;
    Ok(true)
}

// An answer that is a version, with the new places of the ring.
fn resized(answer: Answer, claimed: u64, freed: u64, cut: u64) -> Option<Answer>
    ensures { result ≡ with_resize claimed freed cut answer }
{
    match answer {
        Answer::Version(version) => Some(Answer::Resized {
            version,
            claimed,
            freed,
            cut,
        }),
        _ => None,
    }
}

fn put_resize(phase: &mut PhasePart, claimed: u64, freed: u64, cut: u64) -> Result<bool, AllocError>
    ensures { IfOk result (λ taken. Takes (behind_answer (with_resize claimed freed cut) phase.old) taken phase.new) }
{
    let Some(line) = phase.answers.pop() else {
        return Ok(false);
    };
    let AnswerLine {
        actor,
        command,
        seen,
        answer,
    } = line;
    let Some(answer) = resized(answer, claimed, freed, cut) else {
        return Ok(false);
    };
    phase.answers.push(AnswerLine {
        actor,
        command,
        seen,
        answer,
    })?;
    Ok(true)
}

/// `resize`: behind an answer that is a version and no more.
pub fn add_resize(trace: &mut Trace, claimed: u64, freed: u64, cut: u64) -> Result<bool, AllocError>
    ensures { IfOk result (λ taken.
        Takes (in_phase (behind_answer (with_resize claimed freed cut)) trace.old) taken trace.new) }
{
    let Some(mut phase) = open_phase(trace) else {
        return Ok(false);
    };
    if !put_resize(&mut phase, claimed, freed, cut)? {
        return Ok(false);
    }
    trace.phases.push(phase)?;
    Ok(true)
}

// The answer of a turn, with one chain more.
fn chained(answer: Answer, chain: ChainText) -> Result<Option<Answer>, AllocError>
    ensures { IfOk result (λ made. made ≡ with_chain chain answer) }
{
    match answer {
        Answer::Turn {
            packets,
            bytes,
            end,
            mut chains,
        } => {
            chains.push(chain)?;
            Ok(Some(Answer::Turn {
                packets,
                bytes,
                end,
                chains,
            }))
        }
        _ => Ok(None),
    }
}

fn put_chain(phase: &mut PhasePart, chain: ChainText) -> Result<bool, AllocError>
    ensures { IfOk result (λ taken. Takes (behind_answer (with_chain chain) phase.old) taken phase.new) }
{
    let Some(line) = phase.answers.pop() else {
        return Ok(false);
    };
    let AnswerLine {
        actor,
        command,
        seen,
        answer,
    } = line;
    let Some(answer) = chained(answer, chain)? else {
        return Ok(false);
    };
    phase.answers.push(AnswerLine {
        actor,
        command,
        seen,
        answer,
    })?;
    Ok(true)
}

/// `got` or `refused`: behind the answer of a turn, and the chains before.
pub fn add_chain(trace: &mut Trace, chain: ChainText) -> Result<bool, AllocError>
    ensures { IfOk result (λ taken. Takes (in_phase (behind_answer (with_chain chain)) trace.old) taken trace.new) }
{
    let Some(mut phase) = open_phase(trace) else {
        return Ok(false);
    };
    if !put_chain(&mut phase, chain)? {
        return Ok(false);
    }
    trace.phases.push(phase)?;
    Ok(true)
}
