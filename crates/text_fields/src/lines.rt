//! The lines of a text and the fields of a line, cut from it as they are asked for.

ghost use Rattle.std.specs.Prelude.{◌≡◌, ◌==◌, [], ◌∷◌, ◌^◌, ◌<◌, length, IfSome, MatchOption, position};
ghost use Rattle.std.specs.List.{slice_split};
ghost use Rattle.text_fields.specs.Lines.{fields_of, is_text_line, lines_of};

use std::marker::Model;

// The first place of this byte.
fn place_of(bytes: &[u8], at: u8) -> Option<usize>
    ensures place { result ≡ position (λ b. b == at) bytes.now }
    ensures within { IfSome result (λ place. place < length bytes.now) }
{
    bytes.iter().position(|b| *b == at)
}

// What stands before the first of these bytes, and what behind it.
fn cut(bytes: &[u8], at: u8) -> Option<(&[u8], &[u8])>
    ensures { MatchOption result (slice_split (λ b. b == at) bytes.now ≡ bytes.now ∷ [])
        (λ parts. slice_split (λ b. b == at) bytes.now ≡ parts.0.now ∷ slice_split (λ b. b == at) parts.1.now) }
{
    match place_of(bytes, at) {
        Some(place) => Some((&bytes[..place], &bytes[place + 1..])),
        None => None,
    }
}

/// The lines of a text. Contracts see those that are left.
#[derive(Drop)]
pub struct Lines<'a> {
    rest: &'a [u8],
}

impl<'a> Model for Lines<'a> {
    ghost use Rattle.std.specs.Prelude.{List, ℕ};
    ghost use Rattle.text_fields.specs.Lines.{lines_of};

    ghost Value = { List (List ℕ) };

    ghost view = { λ l. lines_of l.rest.now };
}

impl<'a> Lines<'a> {
    /// All lines of a text.
    pub fn new(text: &'a [u8]) -> Lines<'a>
        ensures { result ≡ lines_of text.now }
    {
        Lines { rest: text }
    }

    /// The next line, without its LF.
    pub fn next(&mut self) -> Option<&'a [u8]>
        ensures { MatchOption result ((self.old ≡ []) × (self.new ≡ [])) (λ line. self.old ≡ line.now ∷ self.new) }
    {
        let text = self.rest;
        if text.is_empty() {
            return None;
        }
        match cut(text, b'\n') {
            Some((line, rest)) => {
                self.rest = rest;
                Some(line)
            }
            None => {
                self.rest = &[];
                Some(text)
            }
        }
    }
}

/// The fields of a line. Contracts see those that are left.
#[derive(Drop)]
pub struct Fields<'a> {
    rest: Option<&'a [u8]>,
}

impl<'a> Model for Fields<'a> {
    ghost use Rattle.std.specs.Prelude.{List, ℕ, IfSome, length, ◌<◌, ◌^◌};
    ghost use Rattle.text_fields.specs.Lines.{fields_left};

    ghost Value = { List (List ℕ) };

    ghost view = { λ f. fields_left f.rest };

    // As long as a slice can be.
    ghost invariant = { λ f. IfSome f.rest (λ rest. length rest.now < 2 ^ 63) };
}

impl<'a> Fields<'a> {
    /// All fields of a line.
    pub fn new(line: &'a [u8]) -> Fields<'a>
        ensures { result ≡ fields_of line.now }
    {
        Fields { rest: Some(line) }
    }

    /// The next field.
    pub fn next(&mut self) -> Option<&'a [u8]>
        ensures { MatchOption result ((self.old ≡ []) × (self.new ≡ [])) (λ field. self.old ≡ field.now ∷ self.new) }
    {
        let rest = self.rest?;
        match cut(rest, b' ') {
            Some((field, rest)) => {
                self.rest = Some(rest);
                Some(field)
            }
            None => {
                self.rest = None;
                Some(rest)
            }
        }
    }

    /// The same fields once more.
    pub fn again(&self) -> Fields<'a>
        ensures same { result ≡ self.now }
        ensures bound { length self.now < 2 ^ 64 }
    {
        Fields { rest: self.rest }
    }
}

/// Whether a line has no byte but 0x20 to 0x7e.
pub fn is_text_line(line: &[u8]) -> bool
    ensures { result ≡ is_text_line line.now }
{
    line.iter().all(|b| 0x20 <= *b && *b <= 0x7e)
}
