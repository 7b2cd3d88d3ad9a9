//! The fields of a line read by a form.

ghost use Rattle.std.specs.Prelude.{◌≡◌, ◌≤◌, not, [], length, true, false, MatchOption};
ghost use Rattle.std.specs.List.{list_all};
ghost use Rattle.tap_ground.specs.Errors.{Gives};
ghost use Rattle.text_fields.specs.Finished.{finished};
ghost use Rattle.text_fields.specs.Forms.{is_empty, kinds_for, values_of, values_under};

use crate::fault::FieldFault;
use crate::fields::read_or_bad_digits;
use crate::form::Form;
use crate::lines::Fields;
use crate::value::Value;
use sqlite_items::Items;
use std::alloc::Global;
use tap_ground::OrMemory;

// How many fields there are, where none is empty.
fn count_of(fields: &Fields<'_>) -> Option<usize>
    ensures { MatchOption result (list_all (λ field. not (is_empty field)) fields.now ≡ false)
        (λ count. (list_all (λ field. not (is_empty field)) fields.now ≡ true) × (count ≡ length fields.now)) }
{
    let mut left = fields.again();
    let mut count = 0;
    while let Some(field) = left.next() {
        if field.is_empty() {
            return None;
        }
        count += 1;
    }
    Some(count)
}

// What the values so far come to where no more are read.
fn finished(values: Items<Value>, bad_digits: bool) -> Result<Items<Value>, OrMemory<FieldFault>>
    ensures { Gives result (finished values bad_digits (Ok [])) }
{
    if bad_digits {
        Err(OrMemory::Fault(FieldFault::Hex))
    } else {
        Ok(values)
    }
}

// The values that so many fields say, kind by kind.
fn values_under(
    alloc: Global,
    form: &Form,
    count: usize,
    fields: Fields<'_>,
) -> Result<Items<Value>, OrMemory<FieldFault>>
    requires { length fields ≤ count }
    ensures { Gives result (values_under (kinds_for form.now count) fields.entry) }
{
    let mut left = fields;
    let mut values = Items::new(alloc);
    let mut bad_digits = false;
    let mut at = 0;
    while let Some(field) = left.next() {
        let Some(kind) = form.kind_at(at) else {
            return finished(values, bad_digits);
        };
        match read_or_bad_digits(alloc, kind, field)? {
            Some(value) => values.push(value)?,
            None => bad_digits = true,
        }
        at += 1;
    }
    finished(values, bad_digits)
}

impl Form {
    /// The values that fields say, or their first fault: an empty field or a wrong count; a number or a name;
    /// hexadecimal digits.
    pub fn read(
        &self,
        alloc: Global,
        fields: Fields<'_>,
    ) -> Result<Items<Value>, OrMemory<FieldFault>>
        ensures { Gives result (values_of self.now fields.entry) }
    {
        match count_of(&fields) {
            Some(count) if self.has_count(count) => values_under(alloc, self, count, fields),
            _ => Err(OrMemory::Fault(FieldFault::Fields)),
        }
    }
}
