//! What lines have to do with what they say.

ghost use Rattle.trace_words.specs.Laws.{LinesAreText, LinesHaveNoEnd, LinesSayOneThing};

/// A line says one thing at most; a line that says something has the bytes of a line, and no LF.
pub fn said_laws()
    ensures one { LinesSayOneThing }
    ensures text { LinesAreText }
    ensures no_end { LinesHaveNoEnd }
{
    text_fields::line_laws();
    trace_causes::field_laws();
    trace_causes::cause_laws();
}
