//! What the declarations of a scenario lay down, collected in one pass over them.

ghost use Rattle.std.specs.Prelude.{◌≡◌, ◌++◌, ◌∷◌, [], IfOk, OnOk, fold, slice_set, unwrap_or};
ghost use Rattle.core_open.specs.Collected.{Follows, collected};
ghost use Rattle.scen_text.specs.declared.scenario.Scenario.{Scenario as Text};
ghost use Rattle.tap_world.specs.ByNumber.{at, put_at};
ghost use Rattle.tap_world.specs.Setup.{nothing_of, setup_of, with_declaration};

use crate::numbered::{put, take};
use ebpf_code::{Program, accept, encode};
use guest_mem::Region;
use scen_text::Scenario;
use scen_words::Declaration;
use sqlite_items::Items;
use std::alloc::{AllocError, Global};
use std::marker::Model;
use tap_flows::{DEFAULT_AGE, DEFAULT_LIMIT};
use tap_steer::NAMES;

/// A declared file: how many places its ring has, and the number of the first of them.
#[derive(Drop)]
pub(crate) struct DeclaredFile {
    capacity: u16,
    first: u64,
}

impl Model for DeclaredFile {
    ghost use Rattle.tap_world.specs.Setup.{Declared};

    ghost Value = { Declared };

    ghost view = { λ f. record { capacity = f.capacity; first = f.first } };
}

impl DeclaredFile {
    /// How many places its ring has.
    pub(crate) fn capacity(&self) -> u16
        ensures { result ≡ self.now.capacity }
    {
        self.capacity
    }

    /// The number of the first of them.
    pub(crate) fn first(&self) -> u64
        ensures { result ≡ self.now.first }
    {
        self.first
    }
}

/// What declarations lay down: files, the regions of guests and the guests of vhosts by number, the programs in the
/// order of their declarations, and how many flows the device of each name remembers and for how many milliseconds.
#[derive(Drop)]
pub(crate) struct Declared {
    pub(crate) files: Vec<Option<DeclaredFile>>,
    pub(crate) guests: Vec<Option<Items<Region>>>,
    pub(crate) vhosts: Vec<Option<u16>>,
    pub(crate) programs: Vec<Program>,
    pub(crate) flows: Vec<(u32, u64)>,
}

impl Model for Declared {
    ghost use Rattle.core_open.specs.Collected.{Collected};

    ghost Value = { Collected };

    ghost view = { λ d. record {
      files = d.files.items;
      guests = d.guests.items;
      vhosts = d.vhosts.items;
      programs = d.programs.items;
      flows = d.flows.items;
    } };
}

/// What all declarations of a scenario lay down.
pub(crate) fn collect(alloc: Global, scenario: &Scenario) -> Result<Declared, AllocError>
    ensures { IfOk result (λ d. d ≡ collected (setup_of scenario.now)) }
{
    let mut so_far = nothing(alloc)?;
    add_all(&mut so_far, alloc, scenario.declarations.as_slice())?;
    Ok(so_far)
}

// Nothing declared: the flows of each name are as usual.
fn nothing(alloc: Global) -> Result<Declared, AllocError>
    ensures { IfOk result (λ d. (s : Text) → d ≡ collected (nothing_of s)) }
{
    Ok(Declared {
        files: Vec::new(alloc),
        guests: Vec::new(alloc),
        vhosts: Vec::new(alloc),
        programs: Vec::new(alloc),
        flows: vec![in alloc; (DEFAULT_LIMIT, DEFAULT_AGE); NAMES]?,
    })
}

fn add_all(
    so_far: &mut Declared,
    alloc: Global,
    declarations: &[Declaration],
) -> Result<(), AllocError>
    ensures { OnOk result (Follows (λ s. fold with_declaration s declarations.now) so_far.old so_far.new) }
{
    for declaration in declarations {
        so_far.add(alloc, declaration)?;
    }
    Ok(())
}

impl Declared {
    // With one declaration more.
    fn add(&mut self, alloc: Global, declaration: &Declaration) -> Result<(), AllocError>
        ensures { OnOk result (Follows (λ s. with_declaration s declaration.now) self.old self.new) }
    {
        match declaration {
            Declaration::File {
                file,
                capacity,
                first,
            } => {
                let declared = DeclaredFile {
                    capacity: *capacity,
                    first: *first,
                };
                put(&mut self.files, *file, declared)
            }
            Declaration::Region { guest, addr, len } => {
                let region = Region {
                    addr: *addr,
                    len: *len,
                };
                self.add_region(alloc, *guest, region)
            }
            Declaration::Vhost { vhost, guest } => put(&mut self.vhosts, *vhost, *guest),
            Declaration::Prog { program: _, code } => self.add_program(alloc, code),
            Declaration::Flows { name, limit, age } => {
                self.set_flows(*name, *limit, *age);
                Ok(())
            }
        }
    }

    // A guest's next region.
    fn add_region(&mut self, alloc: Global, guest: u16, region: Region) -> Result<(), AllocError>
        ensures { OnOk result (self.new ≡ record self.old {
          guests = put_at guest (unwrap_or (at self.old.guests guest) [] ++ region ∷ []) self.old.guests;
        }) }
    {
        let mut regions = match take(&mut self.guests, guest) {
            Some(regions) => regions,
            None => Items::new(alloc),
        };
        regions.push(region)?;
        put(&mut self.guests, guest, regions)
    }

    // The next program.
    fn add_program(&mut self, alloc: Global, program: &Program) -> Result<(), AllocError>
        ensures { OnOk result (self.new ≡ record self.old { programs = self.old.programs ++ program.now ∷ [] }) }
    {
        self.programs.push(copied(alloc, program)?)?;
        Ok(())
    }

    // The flows of a name; there are no others.
    fn set_flows(&mut self, name: u16, limit: u32, age: u64)
        ensures { self.new ≡ record self.old { flows = slice_set self.old.flows name (limit, age) } }
    {
        if let Some(flows) = self.flows.get_mut(usize::from(name)) {
            *flows = (limit, age);
        }
    }
}

// The same program once more.
fn copied(alloc: Global, program: &Program) -> Result<Program, AllocError>
    ensures { IfOk result (λ p. p ≡ program.now) }
{
    let bytes = encode(alloc, program)?;
    match accept(alloc, &bytes) {
        Ok(program) => Ok(program),
        // Its bytes have no fault: memory ran out.
        Err(_) => Err(AllocError),
    }
}
