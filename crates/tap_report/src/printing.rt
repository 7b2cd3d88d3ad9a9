//! The text of the report.

ghost use Rattle.std.specs.Prelude.{◌≡◌, ◌++◌, ◌<◌, ◌^◌, OnOk, IfOk, map, string_bytes, sum};
ghost use Rattle.scen_words.specs.Field.{line, text};
ghost use Rattle.tap_report.specs.Report.{delivered, discarded, shown, total_in};
ghost use Rattle.tap_report.specs.ReportText.{counts_line, device_line, file_line, report_text, ring_line, total_line};

use crate::summary::{DeviceRow, FileRow, RingRow, Summary};
use std::alloc::{AllocError, Global};
use std::fmt::Write;
use tap_ledger::Counters;

/// The frames that were delivered to a reader, to a guest or to the host.
pub fn delivered(total: &Counters) -> u64
    ensures { result ≡ delivered total.now }
{
    total.read + total.guest + total.host
}

fn sum_of(counts: &[u64]) -> u64
    requires { sum counts.now < 2 ^ 64 }
    ensures { result ≡ sum counts.now }
{
    counts.iter().sum()
}

/// The frames that were discarded.
pub fn discarded(total: &Counters) -> u64
    ensures { result ≡ discarded total.now }
{
    let _all = total.accepted;
    sum_of(&total.by_cause)
}

fn put_device(out: &mut String, row: &DeviceRow) -> Result<(), AllocError>
    ensures { OnOk result (string_bytes out.new ≡ string_bytes out.old ++ line (device_line row.now)) }
{
    let name = row.name.as_str();
    writeln!(
        out,
        "device {name} rx {} tx {} dropped {}",
        row.rx, row.tx, row.dropped
    )
}

fn put_devices(out: &mut String, rows: &[DeviceRow]) -> Result<(), AllocError>
    ensures { OnOk result (string_bytes out.new ≡ string_bytes out.old ++ text (map device_line rows.now)) }
{
    for row in rows {
        put_device(out, row)?;
    }
    Ok(())
}

fn put_file(out: &mut String, row: &FileRow) -> Result<(), AllocError>
    ensures { OnOk result (string_bytes out.new ≡ string_bytes out.old ++ line (file_line row.now)) }
{
    write!(
        out,
        "file {} waiting {} read {} guest {}",
        row.file, row.waiting, row.read, row.guest
    )?;
    writeln!(
        out,
        " purged {} overrun {} cut {}",
        row.purged, row.overrun, row.cut
    )
}

fn put_files(out: &mut String, rows: &[FileRow]) -> Result<(), AllocError>
    ensures { OnOk result (string_bytes out.new ≡ string_bytes out.old ++ text (map file_line rows.now)) }
{
    for row in rows {
        put_file(out, row)?;
    }
    Ok(())
}

fn put_ring(out: &mut String, row: &RingRow) -> Result<(), AllocError>
    ensures { OnOk result (string_bytes out.new ≡ string_bytes out.old ++ line (ring_line row.now)) }
{
    write!(
        out,
        "ring {} {} chains {} frames {}",
        row.vhost, row.ring, row.chains, row.frames
    )?;
    writeln!(
        out,
        " bytes {} calls {} bad {} stopped {}",
        row.bytes, row.calls, row.bad, row.stopped
    )
}

fn put_rings(out: &mut String, rows: &[RingRow]) -> Result<(), AllocError>
    ensures { OnOk result (string_bytes out.new ≡ string_bytes out.old ++ text (map ring_line rows.now)) }
{
    for row in rows {
        put_ring(out, row)?;
    }
    Ok(())
}

#[tactic(auto, unfolding(crate::specs::ReportText::counts_line))]
fn put_counts(
    out: &mut String,
    accepted: u64,
    waiting: u64,
    given: u64,
    dropped: u64,
) -> Result<(), AllocError>
    ensures { OnOk result (string_bytes out.new
        ≡ string_bytes out.old ++ line (counts_line accepted waiting given dropped)) }
{
    write!(
        out,
        "total accepted {accepted} waiting {waiting} delivered {given} discarded {dropped}"
    )?;
    out.push_str("\n")
}

fn put_total(out: &mut String, total: &Counters) -> Result<(), AllocError>
    ensures { OnOk result (string_bytes out.new ≡ string_bytes out.old ++ line (total_line (total_in total.now))) }
{
    put_counts(
        out,
        total.accepted,
        total.waiting,
        delivered(total),
        discarded(total),
    )
}

/// The text of a report.
pub fn report_text(alloc: Global, summary: &Summary) -> Result<String, AllocError>
    ensures { IfOk result (λ s. string_bytes s ≡ report_text (shown summary.now)) }
{
    let mut out = String::new(alloc);
    out.push_str("report\n")?;
    put_devices(&mut out, summary.devices.as_slice())?;
    put_files(&mut out, summary.files.as_slice())?;
    put_rings(&mut out, summary.rings.as_slice())?;
    put_total(&mut out, &summary.total)?;
    Ok(out)
}
