//! What a line says by itself.

use crate::word::{CommandWord, DeclarationWord};
use sqlite_items::Items;
use text_fields::Value;

/// What a line says by itself.
#[derive(Debug, Drop)]
pub enum Sentence {
    /// Nothing: it is empty, or begins with `#`.
    Skipped,
    /// A declaration.
    Declares {
        word: DeclarationWord,
        values: Items<Value>,
    },
    /// A command, of this actor where it stands behind `@K`.
    Orders {
        actor: Option<u64>,
        word: CommandWord,
        values: Items<Value>,
    },
    /// `phase N`: a block of so many actors begins.
    Opens {
        actors: u16,
    },
    /// `end`: the block ends.
    Ends,
}
