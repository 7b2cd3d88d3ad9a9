//! Where a run begins.

ghost use Rattle.std.specs.Prelude.{◌≡◌, ◌∷◌, ◌++◌, ◌≤◌, [], IfOk, IfSome, None, OnOk, option_map};
ghost use Rattle.core_open.specs.Collected.{AreMemories, HaveFirsts};
ghost use Rattle.core_open.specs.Collected.{capacities_of, capacity_of, files_of, guests_of, new_placed, sides_of};
ghost use Rattle.core_open.specs.Opening.{IsOpening};
ghost use Rattle.guest_mem.specs.Regions.{refusal};
ghost use Rattle.scen_laid.specs.Laid.{IsLaid};
ghost use Rattle.tap_guests.specs.Side.{new_side};
ghost use Rattle.tap_world.specs.Guests.{new_guest};
ghost use Rattle.tap_world.specs.Setup.{setup_of};

use crate::declared::{Declared, DeclaredFile, collect};
use core_shared::{Guests, Shared, Vhosts};
use guest_mem::Region;
use scen_text::Scenario;
use sqlite_items::Items;
use std::alloc::{AllocError, Global};
use tap_guests::{GuestMem, VhostSide};
use tap_lines::{FileSide, Files, MOST_PLACES, Ops};
use tap_steer::Steer;

/// What actors share where a run of a scenario begins. In one pass over its declarations.
pub fn open(alloc: Global, scenario: &Scenario) -> Result<Shared, AllocError>
    requires { IsLaid scenario.now }
    ensures { IfOk result (λ shared. IsOpening (setup_of scenario.now) shared) }
{
    let Declared {
        files,
        guests,
        vhosts,
        programs,
        flows,
    } = collect(alloc, scenario)?;
    let capacities = all_capacities(alloc, &files)?;
    let table = Steer::new(alloc, programs, capacities, flows)?;
    let guests = all_guests(alloc, &guests)?;
    let files = all_files(alloc, &files)?;
    match all_vhosts(alloc, &vhosts) {
        Ok(vhosts) => Ok(Shared {
            ops: Ops::new(alloc, table),
            files,
            guests,
            vhosts,
            hosted: Vec::new(alloc),
            dropped: Vec::new(alloc),
            writer: None,
            phase: 0,
        }),
        Err(error) => {
            files.abandon();
            Err(error)
        }
    }
}

// How many places the ring of each file has; a number without a file has none.
fn all_capacities(alloc: Global, files: &[Option<DeclaredFile>]) -> Result<Vec<u16>, AllocError>
    ensures { IfOk result (λ capacities. capacities.items ≡ capacities_of files.now) }
{
    files.iter().map(|file| capacity(file)).collect(alloc)
}

fn capacity(file: &Option<DeclaredFile>) -> u16
    ensures { result ≡ capacity_of file.now }
{
    match file {
        Some(file) => file.capacity(),
        None => 0,
    }
}

// The files by number, with nothing in their lines.
fn all_files(alloc: Global, declared: &[Option<DeclaredFile>]) -> Result<Files, AllocError>
    requires { HaveFirsts declared.now }
    ensures { IfOk result (λ files. files ≡ files_of declared.now) }
{
    let mut files = Files::new(alloc);
    for file in declared {
        if let Err(error) = files.push(file_of(alloc, file)) {
            files.abandon();
            return Err(error);
        }
    }
    Ok(files)
}

fn file_of(alloc: Global, declared: &Option<DeclaredFile>) -> Option<FileSide>
    requires { IfSome declared.now (λ d. d.first ≤ MOST_PLACES) }
    ensures { result ≡ option_map new_placed declared.now }
{
    match declared {
        Some(file) => Some(FileSide::new(alloc, file.first(), file.capacity())),
        None => None,
    }
}

// The guests by number, whose memories are all zeros.
fn all_guests(alloc: Global, declared: &[Option<Items<Region>>]) -> Result<Guests, AllocError>
    requires { AreMemories declared.now }
    ensures { IfOk result (λ guests. guests ≡ guests_of declared.now) }
{
    let mut guests = Guests::new(alloc);
    for regions in declared {
        guests.push(guest_of(alloc, regions)?)?;
    }
    Ok(guests)
}

fn guest_of(alloc: Global, declared: &Option<Items<Region>>) -> Result<Option<GuestMem>, AllocError>
    requires { IfSome declared.now (λ regions. refusal regions ≡ None) }
    ensures { IfOk result (λ guest. guest ≡ option_map new_guest declared.now) }
{
    match declared {
        Some(regions) => match GuestMem::new(alloc, regions.as_slice()) {
            Ok(guest) => Ok(Some(guest)),
            // The regions make a memory: memory ran out.
            Err(_) => Err(AllocError),
        },
        None => Ok(None),
    }
}

// The vhosts by number, as they begin.
fn all_vhosts(alloc: Global, declared: &[Option<u16>]) -> Result<Vhosts, AllocError>
    ensures { IfOk result (λ vhosts. vhosts ≡ sides_of declared.now) }
{
    let mut vhosts = Vhosts::new(alloc);
    for guest in declared {
        if let Err(error) = push_vhost(&mut vhosts, alloc, *guest) {
            vhosts.abandon();
            return Err(error);
        }
    }
    Ok(vhosts)
}

fn push_vhost(vhosts: &mut Vhosts, alloc: Global, guest: Option<u16>) -> Result<(), AllocError>
    ensures { OnOk result (vhosts.new ≡ vhosts.old ++ option_map new_side guest ∷ []) }
{
    let side = match guest {
        Some(guest) => Some(VhostSide::new(alloc, guest)?),
        None => None,
    };
    vhosts.push(side)
}
