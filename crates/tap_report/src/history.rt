//! What operations set for files and vhosts, looked up by version.

ghost use Rattle.std.specs.Prelude.{◌≡◌, ℕ, ◌≤◌, ◌<◌, ◌++◌, ◌∷◌, [], List, Some, IfOk, OnOk, length, find, if◌then◌else◌, nat_le};
ghost use Rattle.tap_report.specs.History.{AreRising, Follows, KeepsFirst, first_kept, is_hidden, kept, last_up_to};
ghost use Rattle.tap_report.specs.declared.history.Setting.{Setting};

use sqlite_items::{Items, at};
use std::alloc::{AllocError, Global};
use std::marker::Model;

/// What an operation set for a file or a vhost.
#[derive(Clone, Copy, Debug, PartialEq, Eq)]
pub struct Setting {
    pub version: u64,
    /// The number of the file or of the vhost.
    pub key: u16,
    /// The number of a device, or of a file.
    pub value: Option<usize>,
}

/// Settings in the order of the trace.
#[derive(Debug, Drop)]
pub struct History {
    all: Items<Setting>,
    /// For each key the settings that no later one hides: one that came later with the same or a smaller version.
    lists: Vec<Items<Setting>>,
    /// For each key the first setting.
    firsts: Vec<Option<Setting>>,
}

impl Model for History {
    ghost use Rattle.std.specs.Prelude.{List};
    ghost use Rattle.tap_report.specs.History.{Follows, KeepsFirst};
    ghost use Rattle.tap_report.specs.declared.history.Setting.{Setting};

    ghost Value = { List Setting };

    ghost view = { λ h. h.all };

    ghost invariant = { λ h. Follows h.all h.lists.items × KeepsFirst h.all h.firsts.items };
}

impl History {
    ghost use Rattle.std.specs.Prelude.{◌≡◌, IfOk, find};
    ghost use Rattle.tap_report.specs.Index.{latest, sets_ever};

    /// The history of these settings.
    pub fn of(alloc: Global, all: Items<Setting>) -> Result<History, AllocError>
        ensures { IfOk result (λ h. h ≡ all) }
    {
        let lists = lists_of(alloc, all.as_slice())?;
        let firsts = firsts_of(alloc, all.as_slice())?;
        Ok(History { all, lists, firsts })
    }

    /// The last setting for a key by a version up to this one.
    pub fn latest(&self, key: usize, seen: u64) -> Option<Setting>
        ensures { result ≡ latest self.now key seen }
    {
        match at(&self.lists, key) {
            Some(list) => last_up_to(list.as_slice(), seen),
            None => None,
        }
    }

    /// The first setting for a key.
    pub fn first(&self, key: usize) -> Option<Setting>
        ensures { result ≡ find (sets_ever key) self.now }
    {
        match self.firsts.get(key) {
            Some(first) => *first,
            None => None,
        }
    }
}

// The last setting of a list by a version up to this one.
fn last_up_to(list: &[Setting], seen: u64) -> Option<Setting>
    requires { AreRising list.now }
    ensures { result ≡ last_up_to seen list.now }
{
    let count = list.partition_point(|setting| setting.version <= seen);
    if count == 0 {
        return None;
    }
    Some(list[count - 1])
}

// Whether a new setting of this version hides the last one.
fn is_hidden(list: &[Setting], version: u64) -> bool
    ensures { result ≡ is_hidden list.now version }
{
    match list.last() {
        Some(last) => version <= last.version,
        None => false,
    }
}

// Adds a setting behind those that it doesn't hide.
fn add(list: &mut Items<Setting>, setting: Setting) -> Result<(), AllocError>
    ensures found { OnOk result ((seen : ℕ) → last_up_to seen list.new
        ≡ (if nat_le setting.version seen then Some setting else last_up_to seen list.old)) }
    ensures rising { AreRising list.old → OnOk result (AreRising list.new) }
{
    while is_hidden(list.as_slice(), setting.version) {
        let _ = list.pop();
    }
    list.push(setting)
}

// Makes a list for each key up to this one.
fn grow(alloc: Global, lists: &mut Vec<Items<Setting>>, key: usize) -> Result<(), AllocError>
    ensures long { OnOk result (key < length lists.new.items) }
    ensures same { OnOk result ((k : ℕ) → kept lists.new.items k ≡ kept lists.old.items k) }
{
    while lists.len() <= key {
        lists.push(Items::new(alloc))?;
    }
    Ok(())
}

// Adds a setting to the list of its key.
fn note(alloc: Global, lists: &mut Vec<Items<Setting>>, setting: Setting) -> Result<(), AllocError>
    ensures { (all : List Setting) → Follows all lists.old.items
        → OnOk result (Follows (all ++ setting ∷ []) lists.new.items) }
{
    let key = usize::from(setting.key);
    grow(alloc, lists, key)?;
    add(&mut lists[key], setting)
}

fn lists_of(alloc: Global, all: &[Setting]) -> Result<Vec<Items<Setting>>, AllocError>
    ensures { IfOk result (λ lists. Follows all.now lists.items) }
{
    let mut lists = Vec::new(alloc);
    for setting in all {
        note(alloc, &mut lists, *setting)?;
    }
    Ok(lists)
}

// Makes a place for the first setting of each key up to this one.
fn grow_firsts(firsts: &mut Vec<Option<Setting>>, key: usize) -> Result<(), AllocError>
    ensures long { OnOk result (key < length firsts.new.items) }
    ensures same { OnOk result ((k : ℕ) → first_kept firsts.new.items k ≡ first_kept firsts.old.items k) }
{
    while firsts.len() <= key {
        firsts.push(None)?;
    }
    Ok(())
}

// Keeps a setting where it is the first of its key.
fn note_first(firsts: &mut Vec<Option<Setting>>, setting: Setting) -> Result<(), AllocError>
    ensures { (all : List Setting) → KeepsFirst all firsts.old.items
        → OnOk result (KeepsFirst (all ++ setting ∷ []) firsts.new.items) }
{
    let key = usize::from(setting.key);
    grow_firsts(firsts, key)?;
    let first = firsts[key];
    firsts[key] = first.or(Some(setting));
    Ok(())
}

fn firsts_of(alloc: Global, all: &[Setting]) -> Result<Vec<Option<Setting>>, AllocError>
    ensures { IfOk result (λ firsts. KeepsFirst all.now firsts.items) }
{
    let mut firsts = Vec::new(alloc);
    for setting in all {
        note_first(&mut firsts, *setting)?;
    }
    Ok(firsts)
}
