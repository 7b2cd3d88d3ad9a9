//! The words of a scenario: what a line says by itself, and how it is written.
//!
//! A line is nothing, a declaration, a command, or the beginning or the end of a block: a [`Sentence`], made of a word
//! and values of the word's form. A [`Declaration`] and a [`Command`] are what a word and its values are, with the number
//! of the name in it; to a contract each of them is a record of numbers and lists.
//!
//! `specs/Kinds.antt` has the kinds of fields with their ranges, `specs/Words.antt` the words with their spellings and
//! forms, `specs/Sentences.antt` what a line says, `specs/Commands.antt` which command a word and its values are and the
//! other way round, `specs/Rows.antt` the fields of the line that is written, and `specs/Laws.antt` that both agree.
//! `specs/Why.antt` has the numbers of the refusals, and `src/limits.rt` the limits.
#![tactic(auto)]

mod command;
mod declaration;
mod fault;
mod kinds;
mod laws;
mod limits;
pub mod meaning;
mod saying;
mod sentence;
mod word;
mod writing;

pub use command::Command;
pub use declaration::Declaration;
pub use fault::Why;
pub use laws::{command_laws, declaration_laws, line_laws, sentence_laws};
pub use limits::{
    MAX_BYTES, MAX_COMMANDS, MAX_FILE, MAX_FIRST, MAX_NAMES, MAX_PLACES, MAX_ROOM, MAX_TURNS,
};
pub use saying::{sentence_of, version_of};
pub use sentence::Sentence;
pub use tap_ground::OrMemory;
pub use word::{CommandWord, DeclarationWord, Word};
pub use writing::{put_command, put_declaration};
