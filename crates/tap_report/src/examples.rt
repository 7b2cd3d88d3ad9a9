//! Worked examples of the report.

ghost use Rattle.tap_report.specs.Examples.{HostedCountAtSeen, StoppedUntilBacked};

/// A hosted frame counts for the device that its command had seen; a ring stays stopped until it has a new backend.
pub fn worked_examples()
    ensures hosted { HostedCountAtSeen }
    ensures stopped { StoppedUntilBacked }
{}
