//! What is written for the trace of a run.

ghost use Rattle.std.specs.Prelude.{◌≡◌, IfOk, string_bytes};
ghost use Rattle.tap_report.specs.Report.{shown};
ghost use Rattle.tap_top.specs.Output.{output_of, report_as};

use scen_text::Scenario;
use std::alloc::{AllocError, Global};
use tap_report::{Summary, report, report_json, report_text};
use tap_trace::Trace;
use trace_text::print_trace;

fn report_as(alloc: Global, json: bool, summary: &Summary) -> Result<String, AllocError>
    ensures { IfOk result (λ text. string_bytes text ≡ report_as json (shown summary.now)) }
{
    if json {
        let mut line = report_json(alloc, summary)?;
        line.push_str("\n")?;
        Ok(line)
    } else {
        report_text(alloc, summary)
    }
}

/// The trace of a scenario, and then its report, as text or as one line of JSON.
pub fn output_of(
    alloc: Global,
    json: bool,
    scenario: &Scenario,
    trace: &Trace,
) -> Result<String, AllocError>
    ensures { IfOk result (λ out. string_bytes out ≡ output_of json scenario.now trace.now) }
{
    let summary = report(alloc, scenario, trace)?;
    let mut out = print_trace(alloc, trace)?;
    out.push_str(report_as(alloc, json, &summary)?.as_str())?;
    Ok(out)
}
