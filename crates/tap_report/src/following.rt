//! What may follow a trace.

ghost use Rattle.std.specs.Prelude.{◌≡◌, IfOk};
ghost use Rattle.tap_report.specs.Following.{is_json, is_text, may_follow};
ghost use Rattle.tap_report.specs.Report.{shown};

use crate::json::report_json;
use crate::printing::report_text;
use crate::summary::Summary;
use std::alloc::{AllocError, Global};

fn is_text(alloc: Global, summary: &Summary, behind: &[u8]) -> Result<bool, AllocError>
    ensures { IfOk result (λ b. b ≡ is_text (shown summary.now) behind.now) }
{
    let text = report_text(alloc, summary)?;
    Ok(behind == text.as_bytes())
}

fn is_json(alloc: Global, summary: &Summary, behind: &[u8]) -> Result<bool, AllocError>
    ensures { IfOk result (λ b. b ≡ is_json (shown summary.now) behind.now) }
{
    let mut json = report_json(alloc, summary)?;
    json.push_str("\n")?;
    Ok(behind == json.as_bytes())
}

/// Whether these bytes may follow a trace with this report: nothing, the report's text, or its line of JSON.
pub fn may_follow(alloc: Global, summary: &Summary, behind: &[u8]) -> Result<bool, AllocError>
    ensures { IfOk result (λ b. b ≡ may_follow (shown summary.now) behind.now) }
{
    if behind.is_empty() {
        return Ok(true);
    }
    if is_text(alloc, summary, behind)? {
        return Ok(true);
    }
    is_json(alloc, summary, behind)
}
