//! The names of devices, numbered in the order of their first appearance.

ghost use Rattle.std.specs.Prelude.{◌≡◌, ◌≤◌, ◌<◌, length, false, OnOk};
ghost use Rattle.std.specs.Option.{option_copied};
ghost use Rattle.std.specs.Str.{bytes_eq};
ghost use Rattle.scen_text.specs.Before.{number_among, number_for, with_name};
ghost use Rattle.scen_text.specs.Refusals.{passes_names};

use scen_words::MAX_NAMES;
use sqlite_items::Items;
use std::alloc::AllocError;
use text_fields::DeviceName;

fn is_same(name: &DeviceName, other: &DeviceName) -> bool
    ensures { result ≡ bytes_eq name.now other.now }
{
    name.as_bytes() == other.as_bytes()
}

// The number of a name: its place among the names, or the next place where it isn't among them.
fn number_among(names: &[DeviceName], name: &DeviceName) -> usize
    ensures value { result ≡ number_among names.now name.now }
    ensures bound { result ≤ length names.now }
{
    for (place, other) in names.iter().enumerate() {
        if is_same(other, name) {
            return place;
        }
    }
    names.len()
}

/// The number of a name, and 0 for none.
pub fn number_for(names: &[DeviceName], name: Option<&DeviceName>) -> usize
    ensures value { result ≡ number_for names.now (option_copied name.entry) }
    ensures bound { result ≤ length names.now }
{
    match name {
        None => 0,
        Some(name) => number_among(names, name),
    }
}

/// Whether the name would be one too many.
pub fn passes_names(names: &[DeviceName], name: Option<&DeviceName>) -> bool
    ensures { result ≡ passes_names names.now (option_copied name.entry) }
{
    match name {
        None => false,
        Some(name) => number_among(names, name) >= MAX_NAMES,
    }
}

/// Adds the name where it is new.
#[tactic(auto, unfolding(crate::specs::Before::with_name))]
pub fn add_name(names: &mut Items<DeviceName>, name: Option<&DeviceName>) -> Result<(), AllocError>
    requires few { length names.old ≤ MAX_NAMES }
    requires room { passes_names names.old (option_copied name) ≡ false }
    ensures ok { OnOk result (names.new ≡ with_name names.old (option_copied name.entry)) }
    ensures few { length names.new ≤ MAX_NAMES }
{
    if let Some(name) = name {
        if number_among(names.as_slice(), name) >= names.len() {
            names.push(name.duplicate())?;
        }
    }
    Ok(())
}
