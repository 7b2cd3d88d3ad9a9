//! What is declared so far.

ghost use Rattle.std.specs.Prelude.{◌≡◌, ◌++◌, ◌∷◌, [], map, IfOk, Some};
ghost use Rattle.std.specs.List.{list_any, filter_map};
ghost use Rattle.guest_mem.specs.Regions.{refusal};
ghost use Rattle.scen_words.specs.Commands.{u16_at, u64_at};
ghost use Rattle.scen_text.specs.Refusals.{is_file, is_flows, is_guest, is_program, is_unknown, is_vhost, lacks, piece_of, regions_of};

use guest_mem::{Region, RegionFault, region_fault};
use scen_words::meaning::{u16_at, u64_at};
use scen_words::{Command, Declaration};
use std::alloc::{AllocError, Global};
use text_fields::Value;

fn is_file(declaration: &Declaration, n: u16) -> bool
    ensures { result ≡ is_file n declaration.now }
{
    match declaration {
        Declaration::File { file, .. } => *file == n,
        _ => false,
    }
}

fn is_guest(declaration: &Declaration, n: u16) -> bool
    ensures { result ≡ is_guest n declaration.now }
{
    match declaration {
        Declaration::Region { guest, .. } => *guest == n,
        _ => false,
    }
}

fn is_vhost(declaration: &Declaration, n: u16) -> bool
    ensures { result ≡ is_vhost n declaration.now }
{
    match declaration {
        Declaration::Vhost { vhost, .. } => *vhost == n,
        _ => false,
    }
}

fn is_program(declaration: &Declaration, n: u16) -> bool
    ensures { result ≡ is_program n declaration.now }
{
    match declaration {
        Declaration::Prog { program, .. } => *program == n,
        _ => false,
    }
}

fn is_flows(declaration: &Declaration, n: u16) -> bool
    ensures { result ≡ is_flows n declaration.now }
{
    match declaration {
        Declaration::Flows { name, .. } => *name == n,
        _ => false,
    }
}

/// Whether the file is declared.
pub fn has_file(declarations: &[Declaration], n: u16) -> bool
    ensures { result ≡ list_any (is_file n) declarations.now }
{
    declarations.iter().any(|d| is_file(d, n))
}

/// Whether the guest has a region.
pub fn has_guest(declarations: &[Declaration], n: u16) -> bool
    ensures { result ≡ list_any (is_guest n) declarations.now }
{
    declarations.iter().any(|d| is_guest(d, n))
}

/// Whether the vhost is declared.
pub fn has_vhost(declarations: &[Declaration], n: u16) -> bool
    ensures { result ≡ list_any (is_vhost n) declarations.now }
{
    declarations.iter().any(|d| is_vhost(d, n))
}

/// Whether the program is declared.
pub fn has_program(declarations: &[Declaration], n: u16) -> bool
    ensures { result ≡ list_any (is_program n) declarations.now }
{
    declarations.iter().any(|d| is_program(d, n))
}

/// Whether the flows of the name with this number are declared.
pub fn has_flows(declarations: &[Declaration], n: u16) -> bool
    ensures { result ≡ list_any (is_flows n) declarations.now }
{
    declarations.iter().any(|d| is_flows(d, n))
}

fn lacks_file(declarations: &[Declaration], file: Option<u16>) -> bool
    ensures { result ≡ lacks is_file declarations.now file }
{
    match file {
        None => false,
        Some(n) => !has_file(declarations, n),
    }
}

fn lacks_guest(declarations: &[Declaration], guest: Option<u16>) -> bool
    ensures { result ≡ lacks is_guest declarations.now guest }
{
    match guest {
        None => false,
        Some(n) => !has_guest(declarations, n),
    }
}

fn lacks_vhost(declarations: &[Declaration], vhost: Option<u16>) -> bool
    ensures { result ≡ lacks is_vhost declarations.now vhost }
{
    match vhost {
        None => false,
        Some(n) => !has_vhost(declarations, n),
    }
}

fn lacks_program(declarations: &[Declaration], program: Option<u16>) -> bool
    ensures { result ≡ lacks is_program declarations.now program }
{
    match program {
        None => false,
        Some(n) => !has_program(declarations, n),
    }
}

/// Whether the command names a file, guest, vhost or program that isn't declared.
#[tactic(auto, unfolding(crate::specs::Refusals::is_unknown))]
pub fn is_unknown(declarations: &[Declaration], command: &Command) -> bool
    ensures { result ≡ is_unknown declarations.now command.now }
{
    lacks_file(declarations, command.file())
        || lacks_guest(declarations, command.guest())
        || lacks_vhost(declarations, command.vhost())
        || lacks_program(declarations, command.program())
}

fn piece_of(declaration: &Declaration, n: u16) -> Option<Region>
    ensures { result ≡ piece_of n declaration.now }
{
    match declaration {
        Declaration::Region { guest, addr, len } => {
            if *guest == n {
                Some(Region {
                    addr: *addr,
                    len: *len,
                })
            } else {
                None
            }
        }
        _ => None,
    }
}

/// The regions of a guest in their order.
#[tactic(auto, unfolding(crate::specs::Refusals::regions_of))]
pub fn regions_of(
    alloc: Global,
    declarations: &[Declaration],
    n: u16,
) -> Result<Vec<Region>, AllocError>
    ensures { IfOk result (λ regions. regions.items ≡ regions_of n declarations.now) }
{
    declarations
        .iter()
        .filter_map(|d| piece_of(d, n))
        .collect(alloc)
}

/// Why the guest's regions with this one more make no memory.
pub fn region_refusal(
    alloc: Global,
    declarations: &[Declaration],
    values: &[Value],
) -> Result<Option<RegionFault>, AllocError>
    ensures { IfOk result (λ fault. fault ≡ refusal (regions_of (u16_at values.now 0) declarations.now
        ++ record { addr = u64_at values.now 1; len = u64_at values.now 2 } ∷ [])) }
{
    let mut regions = regions_of(alloc, declarations, u16_at(values, 0))?;
    regions.push(Region {
        addr: u64_at(values, 1),
        len: u64_at(values, 2),
    })?;
    Ok(region_fault(&regions))
}
