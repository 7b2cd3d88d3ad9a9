//! A trace that is built line by line.

ghost use Rattle.std.specs.Prelude.{◌≡◌, IfOk};
ghost use Rattle.trace_text.specs.Building.{Takes, start, with_line};

use crate::parts::{
    add_base, add_file, add_guest, add_place, add_ring, add_step, add_used, are_listed,
};
use crate::phases::{add_answer, add_chain, add_op, add_phase, add_resize};
use sqlite_items::Items;
use std::alloc::{AllocError, Global};
use tap_trace::Trace;
use trace_words::Said;

/// Where a text stands: before `taptrace 1`, behind it, or behind `end`.
#[derive(Clone, Copy, Debug, PartialEq, Eq)]
pub enum Stage {
    Start,
    Inside,
    Ended,
}

impl Stage {
    ghost use Rattle.trace_text.specs.Building.{stage_after};

    // Where the text stands behind this line, where the line can stand there.
    fn after(self, said: &Said) -> Option<Stage>
        ensures { result ≡ stage_after self said.now }
    {
        match self {
            Stage::Start => match said {
                Said::Begins => Some(Stage::Inside),
                _ => None,
            },
            Stage::Inside => match said {
                Said::Begins => None,
                Said::End => Some(Stage::Ended),
                _ => Some(Stage::Inside),
            },
            Stage::Ended => None,
        }
    }
}

// Adds a line to a trace, where it can stand at its end.
fn add_line(trace: &mut Trace, alloc: Global, said: Said) -> Result<bool, AllocError>
    ensures { IfOk result (λ taken. Takes (with_line said trace.old) taken trace.new) }
{
    match said {
        Said::Begins => Ok(true),
        Said::Phase { number, actors } => add_phase(trace, alloc, number, actors),
        Said::Op(op) => add_op(trace, op),
        Said::Answer(line) => add_answer(trace, line),
        Said::Resize {
            claimed,
            freed,
            cut,
        } => add_resize(trace, claimed, freed, cut),
        Said::Chain(chain) => add_chain(trace, chain),
        Said::File {
            file,
            claimed,
            freed,
        } => add_file(trace, alloc, file, claimed, freed),
        Said::Place(line) => add_place(trace, line),
        Said::Guest { guest } => add_guest(trace, alloc, guest),
        Said::Step(step) => add_step(trace, step),
        Said::Ring { vhost, ring } => add_ring(trace, alloc, vhost, ring),
        Said::Base { base } => add_base(trace, alloc, base),
        Said::Used {
            position,
            head,
            len,
        } => add_used(trace, (position, head, len)),
        Said::End => Ok(are_listed(trace)),
    }
}

/// What is built of a trace by the lines so far.
#[derive(Drop)]
pub struct Builder {
    pub stage: Stage,
    pub trace: Trace,
}

impl Builder {
    ghost use Rattle.trace_text.specs.Building.{step};
    ghost use Rattle.trace_text.specs.Reading.{ended_trace};

    /// Nothing is built yet.
    pub fn new(alloc: Global) -> Builder
        ensures { result ≡ start }
    {
        Builder {
            stage: Stage::Start,
            trace: Trace {
                phases: Items::new(alloc),
                files: Items::new(alloc),
                guests: Items::new(alloc),
                rings: Items::new(alloc),
            },
        }
    }

    /// Adds a line, where it can stand behind the lines so far. Behind one that can't, nothing more is said of the
    /// builder.
    pub fn take(&mut self, alloc: Global, said: Said) -> Result<bool, AllocError>
        ensures { IfOk result (λ taken. Takes (step self.old said) taken self.new) }
    {
        let Some(stage) = self.stage.after(&said) else {
            return Ok(false);
        };
        if !add_line(&mut self.trace, alloc, said)? {
            return Ok(false);
        }
        self.stage = stage;
        Ok(true)
    }

    /// The trace, if its `end` was there.
    pub fn ended(self) -> Option<Trace>
        ensures { result ≡ ended_trace self }
    {
        match self.stage {
            Stage::Ended => Some(self.trace),
            _ => None,
        }
    }
}
