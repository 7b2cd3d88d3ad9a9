//! The hash of a frame's key, part by part.

ghost use Rattle.std.specs.Prelude.{◌≡◌, ◌+◌, ◌≤◌, ◌∷◌, ◌++◌, length, IfSome};
ghost use Rattle.std.specs.Ordering.{nat_cmp};
ghost use Rattle.std.specs.Cmp.Lexicographic.{slice_cmp};
ghost use Rattle.std.specs.Int.{w16, to_be_bytes};
ghost use Rattle.tap_flow_key.specs.Fnv.{fnv_of};
ghost use Rattle.tap_flow_key.specs.End.{bytes_of};
ghost use Rattle.tap_flow_key.specs.FlowKey.{port_at, key_at, key_between, framed_key, key, hash};

use crate::fnv1a::{OFFSET_BASIS, fnv, fnv_more};
use crate::layout::{ETHER_HEADER, be16, is_tagged, layout_at};
use std::cmp::Ordering;

/// The bytes of the port of an end that has none.
static NO_PORT: [u8; 2] = [0, 0];

/// One end of a flow: an address and the two bytes of a port.
#[derive(Clone, Copy)]
struct End<'a> {
    address: &'a [u8],
    port: &'a [u8],
}

/// The hash of a frame's flow. Two frames of one flow, in either direction, have one hash, and no
/// frame has 0. Takes no memory.
pub fn flow_hash(bytes: &[u8]) -> u32
    ensures { result ≡ hash bytes.now }
{
    let hash = key_hash(bytes);
    if hash == 0 { 1 } else { hash }
}

/// FNV-1a of the key, where 0 is not yet ruled out.
#[tactic(auto, unfolding(crate::specs::FlowKey::key))]
fn key_hash(bytes: &[u8]) -> u32
    ensures { result ≡ fnv_of (key bytes.now) }
{
    if bytes.len() < ETHER_HEADER {
        fnv(bytes)
    } else {
        framed_hash(bytes)
    }
}

/// The same of a frame with an Ethernet header.
fn framed_hash(bytes: &[u8]) -> u32
    requires { 14 ≤ length bytes.now }
    ensures { result ≡ fnv_of (framed_key bytes.now) }
{
    if is_tagged(bytes) {
        hash_at(bytes, be16(bytes, 16), 18)
    } else {
        hash_at(bytes, be16(bytes, 12), 14)
    }
}

/// The hash of a frame that carries this type at this place.
fn hash_at(bytes: &[u8], kind: u16, at: usize) -> u32
    requires low { at ≤ 18 }
    requires header { 14 ≤ length bytes.now }
    ensures { result ≡ fnv_of (key_at bytes.now kind at) }
{
    let layout = layout_at(bytes, kind, at);
    let first = End {
        address: &bytes[layout.first..layout.first + layout.width],
        port: port_bytes(bytes, layout.ports, 0),
    };
    let second = End {
        address: &bytes[layout.second..layout.second + layout.width],
        port: port_bytes(bytes, layout.ports, 2),
    };
    hash_ends(kind, layout.protocol, first, second)
}

/// The bytes of the port that stands `skip` bytes into the ports.
fn port_bytes(bytes: &[u8], ports: Option<usize>, skip: usize) -> &[u8]
    requires near { skip ≤ 2 }
    requires within { IfSome ports (λ at. at + 4 ≤ length bytes.now) }
    ensures { result.now ≡ port_at bytes.now ports skip }
{
    match ports {
        None => &NO_PORT,
        Some(at) => &bytes[at + skip..at + skip + 2],
    }
}

/// The hash of two ends, in whichever order they come.
fn hash_ends(kind: u16, protocol: u8, first: End, second: End) -> u32
    requires { length first.address.now ≡ length second.address.now }
    ensures { result ≡ fnv_of (key_between kind protocol (bytes_of first.entry) (bytes_of second.entry)) }
{
    match compare(first, second) {
        Ordering::Greater => hash_in_order(kind, protocol, second, first),
        _ => hash_in_order(kind, protocol, first, second),
    }
}

/// Compares two ends by their bytes.
fn compare(first: End, second: End) -> Ordering
    requires { length first.address.now ≡ length second.address.now }
    ensures { result ≡ slice_cmp nat_cmp (bytes_of first.entry) (bytes_of second.entry) }
{
    match first.address.cmp(&second.address) {
        Ordering::Equal => first.port.cmp(&second.port),
        order => order,
    }
}

/// The hash of two ends, the smaller one given first.
fn hash_in_order(kind: u16, protocol: u8, smaller: End, larger: End) -> u32
    ensures { result ≡ fnv_of (to_be_bytes w16 kind ++ protocol ∷ (bytes_of smaller.entry ++ bytes_of larger.entry)) }
{
    let hash = fnv_more(OFFSET_BASIS, &kind.to_be_bytes());
    let hash = fnv_more(hash, &[protocol]);
    let hash = fnv_more(hash, smaller.address);
    let hash = fnv_more(hash, smaller.port);
    let hash = fnv_more(hash, larger.address);
    fnv_more(hash, larger.port)
}
