//! Lists of parts and lines that grow at their ends.

ghost use Rattle.std.specs.Prelude.{◌≡◌};
ghost use Rattle.std.specs.Option.{option_copied};
ghost use Rattle.trace_text.specs.Building.{last_item, none_yet};
ghost use Rattle.trace_text.specs.Ordered.{pair_before};

use sqlite_items::Items;

/// Whether no item is there yet.
pub fn none_yet<T>(items: &Items<T>) -> bool
    ensures { result ≡ none_yet items.now }
{
    items.is_empty()
}

/// The last item.
pub fn last<T>(items: &Items<T>) -> Option<&T>
    ensures { option_copied result ≡ last_item items.now }
{
    items.as_slice().last()
}

/// By two numbers, the first one first.
pub fn pair_before(first: u16, second: u32, first_next: u16, second_next: u32) -> bool
    ensures { result ≡ pair_before first second first_next second_next }
{
    first < first_next || (first == first_next && second < second_next)
}
