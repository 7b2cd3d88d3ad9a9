//! What is written is read again, and what is read is written again.

ghost use Rattle.text_fields.specs.Laws.{FieldsAreCutAgain, FieldsAreWrittenAgain, FieldsMakeLines, FormsAreReadAgain, FormsAreWrittenAgain, FormsMakeFields, LinesAreCutAgain, LinesAreJoinedAgain, ValuesAreReadAgain, ValuesMakeFields, WordsAreSpaced};

/// Lines and fields are cut as they were joined, and joined as they were cut.
pub fn line_laws()
    ensures lines { LinesAreCutAgain }
    ensures fields { FieldsAreCutAgain }
    ensures joined { LinesAreJoinedAgain }
    ensures spaced { WordsAreSpaced }
    ensures line { FieldsMakeLines }
{}

/// A value of a kind is written as a field that is read as it, and a field that is read is written again.
pub fn value_laws()
    ensures read { ValuesAreReadAgain }
    ensures written { FieldsAreWrittenAgain }
    ensures field { ValuesMakeFields }
{}

/// The values of a form are written as fields that are read as them, and fields that are read are written again.
pub fn form_laws()
    ensures read { FormsAreReadAgain }
    ensures written { FormsAreWrittenAgain }
    ensures fields { FormsMakeFields }
{}
