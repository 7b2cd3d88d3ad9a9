//! Things by their numbers, of which some aren't there.

ghost use Rattle.std.specs.Prelude.{◌≡◌, ◌+◌, ◌-◌, ◌++◌, None, OnOk, length, replicate};
ghost use Rattle.tap_world.specs.ByNumber.{at, put_at};

use std::alloc::AllocError;

/// Puts one in the place of its number, past all that are there too.
pub(crate) fn put<T: Drop>(
    items: &mut Vec<Option<T>>,
    number: u16,
    new: T,
) -> Result<(), AllocError>
    ensures { OnOk result (items.new.items ≡ put_at number new items.old.items) }
{
    reach(items, number)?;
    items[usize::from(number)] = Some(new);
    Ok(())
}

/// Takes out the one of a number, into whose place another is to be put.
pub(crate) fn take<T: Drop>(items: &mut Vec<Option<T>>, number: u16) -> Option<T>
    ensures value { result ≡ at items.old.items number }
    ensures rest { (new : T) → put_at number new items.new.items ≡ put_at number new items.old.items }
{
    match items.get_mut(usize::from(number)) {
        Some(place) => place.take(),
        None => None,
    }
}

// Makes a place for this number.
fn reach<T: Drop>(items: &mut Vec<Option<T>>, number: u16) -> Result<(), AllocError>
    ensures { OnOk result (items.new.items ≡ items.old.items ++ replicate (number + 1 - length items.old.items) None) }
{
    for _ in items.len()..usize::from(number) + 1 {
        items.push(None)?;
    }
    Ok(())
}
