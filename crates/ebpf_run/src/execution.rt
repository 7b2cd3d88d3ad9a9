//! The run of a program.

ghost use Rattle.std.specs.Prelude.{◌≡◌, ◌+◌, ◌-◌, ◌<◌, ◌≤◌};
ghost use Rattle.ebpf_run.specs.Laws.{ProgramsEnd, ProgramsNeverStick, ProgramsGoForward};
ghost use Rattle.ebpf_run.specs.Meaning.{start, EndsAfter, result_of, instruction_count};

use crate::machine::{Machine, Next};
use crate::steps::Steps;
use ebpf_code::{Program, program_laws};
use std::marker::Brand;
use std::sync::ledger::{Blank, Ledger};

/// The low half of R0 where the program ends on a frame. It counts each instruction that it executes.
pub fn run<L: Ledger>(program: &Program, frame: &[u8], steps: &mut Steps<L>) -> u32
    ensures value { result ≡ result_of program.now frame.now }
    ensures steps { EndsAfter program.now frame.now (steps.new - steps.old) 0 (start frame.now) result }
    ensures bound { steps.new ≤ steps.old + instruction_count program.now }
{
    let code = program.steps();
    let mut machine = Machine::start(frame);
    let mut place = 0;
    'turns: loop {
        steps.tick();
        match machine.step(&code[place], frame, place) {
            Next::At(next) => place = next,
            Next::End(result) => return result,
        }
    }
}

/// The same, where nobody counts.
pub fn evaluate(program: &Program, frame: &[u8]) -> u32
    ensures { result ≡ result_of program.now frame.now }
{
    evaluate_on::<Brand>(program, frame, Blank::new(1))
}

fn evaluate_on<L: Ledger>(program: &Program, frame: &[u8], blank: Blank) -> u32
    requires name { blank.name ≡ L.name }
    requires parts { blank.parts ≡ L.parts }
    requires some { 0 < blank.parts }
    ensures { result ≡ result_of program.now frame.now }
{
    let mut steps = Steps::<L>::new(blank);
    run(program, frame, &mut steps)
}

/// A program without faults is never stuck: it goes only forward, and on each frame it ends, with at most
/// as many steps as it has instructions.
pub fn never_stuck()
    ensures ends { ProgramsEnd }
    ensures stuck { ProgramsNeverStick }
    ensures forward { ProgramsGoForward }
{
    program_laws();
}
