//! What fields and causes have to do with what they say.

ghost use Rattle.trace_causes.specs.Laws.{CauseLaws, FieldLaws};

/// What is written for a number, a flag, a name, a hash or bytes is read as it, and what is read of a field is written
/// so.
pub fn field_laws()
    ensures { FieldLaws }
{
    text_fields::value_laws();
}

/// What is written for a cause, a fate, the end of a turn or an operation is read as it, and what is read of fields is
/// written so.
pub fn cause_laws()
    ensures { CauseLaws }
{
    text_fields::value_laws();
    text_fields::form_laws();
    scen_words::command_laws();
}
