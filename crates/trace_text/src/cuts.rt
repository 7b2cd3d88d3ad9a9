//! Bytes, cut behind their first LF.

ghost use Rattle.std.specs.Prelude.{◌≡◌, ◌==◌, ◌<◌, length, position, IfSome, MatchOption};
ghost use Rattle.trace_text.specs.Reading.{IsCut, IsInner};

/// The place of the first LF.
pub fn place_of(bytes: &[u8]) -> Option<usize>
    ensures place { result ≡ position (λ b. b == 10) bytes.now }
    ensures within { IfSome result (λ place. place < length bytes.now) }
{
    bytes.iter().position(|b| *b == b'\n')
}

/// The first line that has its LF, and what stands behind it.
pub fn cut_line(bytes: &[u8]) -> Option<(&[u8], &[u8])>
    ensures { MatchOption result (IsInner bytes.now) (λ parts. IsCut bytes.now parts.0.now parts.1.now) }
{
    match place_of(bytes) {
        Some(place) => Some((&bytes[..place], &bytes[place + 1..])),
        None => None,
    }
}
