//! The free descriptors, lowest number first.
ghost use Rattle.std.specs.Prelude.{◌≡◌, ℕ, ◌<◌, All, take, drop, IfOk, OnOk};
ghost use Rattle.vring_drive.specs.Books.{numbers_from, freed_into};

use std::alloc::{AllocError, Global};
use std::collections::BTreeSet;

// All numbers below one.
pub fn all_below(alloc: Global, num: u16) -> Result<BTreeSet<u16>, AllocError>
    ensures { IfOk result (λ free. free.keys ≡ numbers_from 0 num) }
{
    let mut free = BTreeSet::new(alloc);
    for i in 0..num {
        free.insert(i)?;
    }
    Ok(free)
}

// The lowest numbers, so many.
pub fn lowest(alloc: Global, free: &BTreeSet<u16>, count: usize) -> Result<Vec<u16>, AllocError>
    ensures { IfOk result (λ chain. chain.items ≡ take count free.now.keys) }
{
    free.iter().take(count).copied().collect(alloc)
}

// Takes the lowest numbers away, so many.
pub fn take_lowest(free: &mut BTreeSet<u16>, count: usize)
    ensures { free.new.keys ≡ drop count free.old.keys }
{
    for _ in 0..count {
        free.pop_first();
    }
}

// Adds the numbers of a chain.
pub fn add_all(free: &mut BTreeSet<u16>, chain: &[u16]) -> Result<(), AllocError>
    ensures ok { OnOk result (free.new.keys ≡ freed_into free.old.keys chain.now) }
    ensures inside { (n : ℕ) → All (λ i. i < n) free.old.keys → All (λ i. i < n) chain.now
        → All (λ i. i < n) free.new.keys }
{
    for index in chain {
        free.insert(*index)?;
    }
    Ok(())
}
