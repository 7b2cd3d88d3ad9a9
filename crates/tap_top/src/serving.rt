//! The text for a good scenario.

ghost use Rattle.std.specs.Prelude.{◌≡◌, ◌+◌, ◌≤◌, true, IfOk, string_bytes};
ghost use Rattle.scen_laid.specs.Laid.{IsLaid};
ghost use Rattle.tap_top.specs.Top.{IsText, PlainText, command_count, count_line, is_built, made_text, reads};

use crate::output::output_of;
use scen_gen::generate;
use scen_plain::run_plain;
use scen_text::{Phase, Scenario, print_scenario, upgrade};
use std::alloc::{AllocError, Global};
use std::fmt::Write;
use tap_words::Request;

// A sum, where the machine has as much memory.
fn sum(first: usize, second: usize) -> Result<usize, AllocError>
    ensures { IfOk result (λ n. n ≡ first + second) }
{
    match first.checked_add(second) {
        Some(sum) => Ok(sum),
        None => Err(AllocError),
    }
}

// How many commands there are.
fn command_count(phases: &[Phase]) -> Result<usize, AllocError>
    ensures { IfOk result (λ n. n ≡ command_count phases.now) }
{
    let mut count: usize = 0;
    for phase in phases {
        count = sum(count, phase.lines.len())?;
    }
    Ok(count)
}

#[tactic(auto, unfolding(crate::specs::Top::count_line))]
fn count_line(alloc: Global, count: usize) -> Result<String, AllocError>
    ensures { IfOk result (λ text. string_bytes text ≡ count_line count) }
{
    let mut text = String::new(alloc);
    writeln!(text, "ok {count}")?;
    Ok(text)
}

// A run on one thread, as the seed picks.
fn plain(alloc: Global, json: bool, seed: u64, scenario: &Scenario) -> Result<String, AllocError>
    requires { IsLaid scenario.now }
    ensures { IfOk result (λ text. PlainText json seed scenario.now (string_bytes text)) }
{
    let trace = run_plain(alloc, scenario, seed)?;
    output_of(alloc, json, scenario, &trace)
}

/// The text for a good scenario, where a request is built that reads one.
pub fn serve(alloc: Global, request: Request, scenario: Scenario) -> Result<String, AllocError>
    requires built { is_built request ≡ true }
    requires read { reads request ≡ true }
    requires laid { IsLaid scenario }
    ensures { IfOk result (λ text. IsText request scenario (string_bytes text)) }
{
    match request {
        Request::Check => count_line(alloc, command_count(scenario.phases.as_slice())?),
        Request::Upgrade => print_scenario(alloc, &upgrade(scenario)),
        Request::Plain { seed, json } => plain(alloc, json, seed, &scenario),
        Request::Live { .. } => unreachable!(),
        Request::Audit => unreachable!(),
        Request::Gen { .. } => unreachable!(),
    }
}

/// The text of the scenario that is made for so many sends.
pub fn made(alloc: Global, count: u32) -> Result<String, AllocError>
    requires some { 1 ≤ count }
    requires most { count ≤ 100000 }
    ensures { IfOk result (λ text. string_bytes text ≡ made_text count) }
{
    print_scenario(alloc, &generate(alloc, count)?)
}
