//! Words, of which a field is one.

ghost use Rattle.std.specs.Prelude.{◌≡◌, ℕ, List};
ghost use Rattle.trace_causes.specs.Reading.{first_by};
ghost use Rattle.trace_causes.specs.Table.{word_in};

use crate::fields::first;
use text_fields::Fields;

/// One of a few words, each spelled in its own way. The same table serves reading and printing.
pub trait Word: Copy + 'static {
    ghost spelling: { Self → List ℕ };

    ghost words: { List Self };

    /// How the word is spelled.
    fn spelling(self) -> &'static str
        ensures { result.now ≡ spelling self };

    /// All words that are read.
    fn words() -> &'static [Self]
        ensures { result.now ≡ words };
}

/// The word that a field is.
#[tactic(auto, unfolding(crate::specs::Table::word_in))]
pub fn word_of<W: Word>(field: &[u8]) -> Option<W>
    ensures { result ≡ word_in W.spelling W.words field.now }
{
    W::words()
        .iter()
        .copied()
        .find(|word| word.spelling().as_bytes() == field)
}

/// A word, and the fields behind it.
pub fn next_word<W: Word>(fields: Fields<'_>) -> Option<(W, Fields<'_>)>
    ensures { result ≡ first_by (word_in W.spelling W.words) fields.entry }
{
    let (field, fields) = first(fields)?;
    let word = word_of(field)?;
    Some((word, fields))
}
