//! Numbers that count or don't.

ghost use Rattle.std.specs.Prelude.{◌≡◌, if◌then◌else◌};

/// A number, where it counts.
pub fn counted(counts: bool, number: u64) -> u64
    ensures { result ≡ (if counts then number else 0) }
{
    if counts { number } else { 0 }
}

/// One, where it counts.
pub fn one_if(counts: bool) -> u64
    ensures { result ≡ (if counts then 1 else 0) }
{
    if counts { 1 } else { 0 }
}
