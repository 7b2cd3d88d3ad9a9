//! The parts of an input: a scenario, its trace, and what follows.

ghost use Rattle.std.specs.Prelude.{◌≡◌, [], ◌||◌, drop, MatchOption};
ghost use Rattle.std.specs.Str.{bytes_eq};
ghost use Rattle.text_fields.specs.Lines.{ended};
ghost use Rattle.trace_text.specs.BadLine.{behind_part, pieces, scenario_part, trace_part};
ghost use Rattle.trace_text.specs.Input.{IsPiece, IsSplit};

use crate::cuts::place_of;

/// The parts of an input that has a scenario, its trace, and what follows: slices of the input, in its order.
#[derive(Clone, Copy)]
pub struct InputParts<'a> {
    /// The lines before the first that is `taptrace 1`, or all.
    pub scenario: &'a [u8],
    /// The lines from there on to the first that is `end`, or all from there on.
    pub trace: &'a [u8],
    /// What stands behind `end`.
    pub behind: &'a [u8],
}

// The first line with its LF, where it has one, and what stands behind it.
fn next_piece(bytes: &[u8]) -> Option<(&[u8], &[u8])>
    ensures { MatchOption result (pieces bytes.now ≡ []) (λ parts. IsPiece bytes.now parts.0.now parts.1.now) }
{
    if bytes.is_empty() {
        return None;
    }
    match place_of(bytes) {
        Some(place) => Some((&bytes[..place + 1], &bytes[place + 1..])),
        None => Some((bytes, &[])),
    }
}

// Whether a piece is a line, without or with its LF.
fn is_line(piece: &[u8], plain: &[u8], whole: &[u8]) -> bool
    ensures { result ≡ (bytes_eq piece.now plain.now || bytes_eq piece.now whole.now) }
{
    piece == plain || piece == whole
}

// What stands before the first line that is this one, and the bytes from it on.
fn split_at_line<'a>(bytes: &'a [u8], plain: &[u8], whole: &[u8]) -> (&'a [u8], &'a [u8])
    requires { whole.now ≡ ended plain.now }
    ensures { IsSplit plain.now bytes.now result.0.now result.1.now }
{
    let mut rest = bytes;
    'pieces: while let Some((piece, behind)) = next_piece(rest) {
        if is_line(piece, plain, whole) {
            break;
        }
        rest = behind;
    }
    (&bytes[..bytes.len() - rest.len()], rest)
}

// What stands behind the first piece.
fn behind_first(bytes: &[u8]) -> &[u8]
    ensures { pieces result.now ≡ drop 1 (pieces bytes.now) }
{
    match next_piece(bytes) {
        Some((_, behind)) => behind,
        None => bytes,
    }
}

/// The parts of an input.
pub fn split_input(bytes: &[u8]) -> InputParts<'_>
    ensures scenario { result.scenario.now ≡ scenario_part bytes.now }
    ensures trace { result.trace.now ≡ trace_part bytes.now }
    ensures behind { result.behind.now ≡ behind_part bytes.now }
{
    let (scenario, rest) = split_at_line(bytes, b"taptrace 1", b"taptrace 1\n");
    let (_, from_end) = split_at_line(rest, b"end", b"end\n");
    let behind = behind_first(from_end);
    InputParts {
        scenario,
        trace: &rest[..rest.len() - behind.len()],
        behind,
    }
}
