//! The part of a phase while it is filled.

ghost use Rattle.std.specs.Prelude.{◌≡◌, ◌∷◌, [], IfOk, OnOk, option_to_list};
ghost use Rattle.tap_told.specs.Phases.{answer_told, by_actors, changed_from, in_order, with_answer, with_ops};

use sqlite_items::Items;
use std::alloc::{AllocError, Global};
use std::marker::Model;
use tap_trace::{AnswerLine, OpLine, PhasePart};
use tap_world::Said;

/// The part of a phase while it is filled, with its answers in the order given.
#[derive(Drop)]
pub(crate) struct OpenPart {
    actors: u16,
    ops: Items<OpLine>,
    answers: Vec<AnswerLine>,
}

impl Model for OpenPart {
    ghost use Rattle.tap_trace.specs.declared.trace.PhasePart.{PhasePart};

    ghost Value = { PhasePart };

    ghost view = { λ p. record { actors = p.actors; ops = p.ops; answers = p.answers.items } };
}

// The answers of actors below a number, actor by actor.
fn by_actors(mut answers: Vec<AnswerLine>, actors: u16) -> Result<Items<AnswerLine>, AllocError>
    ensures { IfOk result (λ lines. lines ≡ by_actors 0 actors answers.items) }
{
    answers.retain(|line| line.actor < actors);
    answers.sort_by_key(|line| line.actor)?;
    Ok(Items::from_vec(answers))
}

impl OpenPart {
    /// A part of so many actors, with nothing in it.
    pub(crate) fn new(alloc: Global, actors: u16) -> OpenPart
        ensures { result ≡ record { actors = actors; ops = []; answers = [] } }
    {
        OpenPart {
            actors,
            ops: Items::new(alloc),
            answers: Vec::new(alloc),
        }
    }

    fn push_op(&mut self, line: OpLine) -> Result<(), AllocError>
        ensures { OnOk result (self.new ≡ with_ops (line ∷ []) self.old) }
    {
        self.ops.push(line)
    }

    fn push_answer(&mut self, line: AnswerLine) -> Result<(), AllocError>
        ensures { OnOk result (self.new ≡ with_answer line self.old) }
    {
        self.answers.push(line)?;
        Ok(())
    }

    /// The part, with its answers by actor.
    pub(crate) fn close(self) -> Result<PhasePart, AllocError>
        ensures { IfOk result (λ part. part ≡ in_order self) }
    {
        let OpenPart {
            actors,
            ops,
            answers,
        } = self;
        Ok(PhasePart {
            actors,
            ops,
            answers: by_actors(answers, actors)?,
        })
    }
}

// Tells the line of an operation in the part of a phase, where there is such a phase.
fn tell_line(parts: &mut [OpenPart], phase: u32, line: OpLine) -> Result<(), AllocError>
    ensures { OnOk result (parts.new ≡ changed_from 0 phase (with_ops (line ∷ [])) parts.old) }
{
    let index = phase as usize;
    if index < parts.len() {
        parts[index].push_op(line)?;
    }
    Ok(())
}

/// Tells an operation, where it has a line, in the part of a phase.
pub(crate) fn tell_op(
    parts: &mut [OpenPart],
    phase: u32,
    line: Option<OpLine>,
) -> Result<(), AllocError>
    ensures { OnOk result (parts.new ≡ changed_from 0 phase (with_ops (option_to_list line)) parts.old) }
{
    match line {
        Some(line) => tell_line(parts, phase, line),
        None => Ok(()),
    }
}

/// Tells an answer in the part of its phase, where there is such a phase.
pub(crate) fn tell_answer(parts: &mut [OpenPart], said: Said) -> Result<(), AllocError>
    ensures { OnOk result (parts.new ≡ answer_told parts.old said) }
{
    let index = said.phase as usize;
    if index < parts.len() {
        parts[index].push_answer(said.line)?;
    }
    Ok(())
}
