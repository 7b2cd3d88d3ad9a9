//! The report as JSON.

ghost use Rattle.std.specs.Prelude.{◌≡◌, IfOk, map, string_bytes};
ghost use Rattle.serde_json.specs.Data.{array};
ghost use Rattle.serde_json.specs.View.{items_of, view};
ghost use Rattle.tap_report.specs.Json.{device_data, file_data, report_data, report_json, ring_data, total_data};
ghost use Rattle.tap_report.specs.Report.{shown, total_in};

use crate::printing::{delivered, discarded};
use crate::summary::{DeviceRow, FileRow, RingRow, Summary};
use serde_json::{Value, json};
use std::alloc::{AllocError, Global};
use tap_ledger::Counters;

fn device_value(alloc: Global, row: &DeviceRow) -> Result<Value, AllocError>
    ensures { IfOk result (λ v. view v ≡ device_data row.now) }
{
    let name = row.name.as_str();
    json!(in alloc; {"dropped": row.dropped, "name": name, "rx": row.rx, "tx": row.tx})
}

fn device_values(alloc: Global, rows: &[DeviceRow]) -> Result<Value, AllocError>
    ensures { IfOk result (λ v. view v ≡ array (items_of (map device_data rows.now))) }
{
    let mut values = Vec::new(alloc);
    for row in rows {
        values.push(device_value(alloc, row)?)?;
    }
    Ok(Value::Array(values))
}

fn file_value(alloc: Global, row: &FileRow) -> Result<Value, AllocError>
    ensures { IfOk result (λ v. view v ≡ file_data row.now) }
{
    json!(in alloc; {
        "cut": row.cut, "file": row.file, "guest": row.guest, "overrun": row.overrun,
        "purged": row.purged, "read": row.read, "waiting": row.waiting
    })
}

fn file_values(alloc: Global, rows: &[FileRow]) -> Result<Value, AllocError>
    ensures { IfOk result (λ v. view v ≡ array (items_of (map file_data rows.now))) }
{
    let mut values = Vec::new(alloc);
    for row in rows {
        values.push(file_value(alloc, row)?)?;
    }
    Ok(Value::Array(values))
}

fn ring_value(alloc: Global, row: &RingRow) -> Result<Value, AllocError>
    ensures { IfOk result (λ v. view v ≡ ring_data row.now) }
{
    json!(in alloc; {
        "bad": row.bad, "bytes": row.bytes, "calls": row.calls, "chains": row.chains,
        "frames": row.frames, "ring": row.ring, "stopped": row.stopped, "vhost": row.vhost
    })
}

fn ring_values(alloc: Global, rows: &[RingRow]) -> Result<Value, AllocError>
    ensures { IfOk result (λ v. view v ≡ array (items_of (map ring_data rows.now))) }
{
    let mut values = Vec::new(alloc);
    for row in rows {
        values.push(ring_value(alloc, row)?)?;
    }
    Ok(Value::Array(values))
}

fn total_value(alloc: Global, total: &Counters) -> Result<Value, AllocError>
    ensures { IfOk result (λ v. view v ≡ total_data (total_in total.now)) }
{
    let delivered = delivered(total);
    let discarded = discarded(total);
    json!(in alloc; {
        "accepted": total.accepted, "delivered": delivered, "discarded": discarded, "waiting": total.waiting
    })
}

fn summary_value(alloc: Global, summary: &Summary) -> Result<Value, AllocError>
    ensures { IfOk result (λ v. view v ≡ report_data (shown summary.now)) }
{
    let devices = device_values(alloc, summary.devices.as_slice())?;
    let files = file_values(alloc, summary.files.as_slice())?;
    let rings = ring_values(alloc, summary.rings.as_slice())?;
    let total = total_value(alloc, &summary.total)?;
    json!(in alloc; {"devices": devices, "files": files, "rings": rings, "total": total})
}

/// The report as one line of compact JSON, without a LF.
pub fn report_json(alloc: Global, summary: &Summary) -> Result<String, AllocError>
    ensures { IfOk result (λ s. string_bytes s ≡ report_json (shown summary.now)) }
{
    let value = summary_value(alloc, summary)?;
    value.to_string(alloc)
}
