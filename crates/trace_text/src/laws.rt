//! What traces and their texts have to do with one another.

ghost use Rattle.trace_text.specs.Laws.{OneBadLine, OneText};

use trace_words::said_laws;

/// Two traces with one text are one.
pub fn one_text()
    ensures { OneText }
{
    said_laws();
}

/// The first bad line of a text is one.
pub fn one_bad_line()
    ensures { OneBadLine }
{}
