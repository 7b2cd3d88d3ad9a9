//! What the words of a scenario and the lines that are written with them have to do with one another.

ghost use Rattle.scen_words.specs.Laws.{ActorsAreReadAgain, CommandsAreReadAgain, DeclarationValuesAreKept, DeclarationWordsAreKept, DeclarationsAreReadAgain, EndingsAreReadAgain, OpeningsAreReadAgain, SentencesFit, ValuesAreKept, WordsAreKept};

/// The word and the values of a command are those of which it was made.
pub fn command_laws()
    ensures words { WordsAreKept }
    ensures values { ValuesAreKept }
{}

/// The word and the values of a declaration are those of which it was made.
pub fn declaration_laws()
    ensures words { DeclarationWordsAreKept }
    ensures values { DeclarationValuesAreKept }
{}

/// The lines that are written for a scenario are read as what they were written for.
pub fn line_laws()
    ensures commands { CommandsAreReadAgain }
    ensures actors { ActorsAreReadAgain }
    ensures declarations { DeclarationsAreReadAgain }
    ensures openings { OpeningsAreReadAgain }
    ensures endings { EndingsAreReadAgain }
{
    text_fields::line_laws();
    text_fields::value_laws();
    text_fields::form_laws();
}

/// What a line says fits the forms of its words.
pub fn sentence_laws()
    ensures { SentencesFit }
{
    text_fields::form_laws();
}
