//! Where a frame's addresses and ports stand.

ghost use Rattle.std.specs.Prelude.{◌≡◌, ◌+◌, ◌<◌, ◌≤◌, length, IfSome};
ghost use Rattle.tap_flow_key.specs.FlowKey.{be16_at, is_tagged, is_ipv4, is_ipv6, has_ports, is_fragment, ipv4_layout, ipv6_layout, layout_at};

/// How many bytes an Ethernet header has.
pub(crate) const ETHER_HEADER: usize = 14;

/// How many bytes it has with a VLAN tag.
const TAGGED_HEADER: usize = 18;

const ETHER_TYPE_IPV4: u16 = 0x0800;

const ETHER_TYPE_IPV6: u16 = 0x86dd;

const ETHER_TYPE_VLAN: u16 = 0x8100;

const PROTOCOL_TCP: u8 = 6;

const PROTOCOL_UDP: u8 = 17;

/// The bits of IPv4's fragment field that are 0 in a datagram that stands alone.
const FRAGMENT: u16 = 0x3fff;

/// Where the parts of the key stand in a frame: the two addresses of so many bytes each, and the two
/// ports, the first end's before the second's, if it shows them.
#[derive(Clone, Copy)]
pub(crate) struct Layout {
    pub protocol: u8,
    pub first: usize,
    pub second: usize,
    pub width: usize,
    pub ports: Option<usize>,
}

/// The number in the two bytes at a place.
pub(crate) fn be16(bytes: &[u8], at: usize) -> u16
    requires { at + 1 < length bytes.now }
    ensures { result ≡ be16_at bytes.now at }
{
    u16::from_be_bytes([bytes[at], bytes[at + 1]])
}

/// Whether a VLAN tag stands before the type.
pub(crate) fn is_tagged(bytes: &[u8]) -> bool
    requires { 14 ≤ length bytes.now }
    ensures { result ≡ is_tagged bytes.now }
{
    be16(bytes, 12) == ETHER_TYPE_VLAN && bytes.len() >= TAGGED_HEADER
}

/// Whether an IPv4 header stands at `at`, whole.
fn is_ipv4(bytes: &[u8], kind: u16, at: usize) -> bool
    requires { at ≤ 18 }
    ensures { result ≡ is_ipv4 bytes.now kind at }
{
    kind == ETHER_TYPE_IPV4
        && bytes.len() >= at + 20
        && bytes[at] / 16 == 4
        && bytes[at] % 16 >= 5
        && bytes.len() >= at + 4 * usize::from(bytes[at] % 16)
}

/// Whether an IPv6 header stands at `at`, whole.
fn is_ipv6(bytes: &[u8], kind: u16, at: usize) -> bool
    requires { at ≤ 18 }
    ensures { result ≡ is_ipv6 bytes.now kind at }
{
    kind == ETHER_TYPE_IPV6 && bytes.len() >= at + 40 && bytes[at] / 16 == 6
}

fn has_ports(protocol: u8) -> bool
    ensures { result ≡ has_ports protocol }
{
    protocol == PROTOCOL_TCP || protocol == PROTOCOL_UDP
}

fn is_fragment(bytes: &[u8], at: usize) -> bool
    requires { at + 7 < length bytes.now }
    ensures { result ≡ is_fragment bytes.now at }
{
    be16(bytes, at + 6) & FRAGMENT != 0
}

fn ipv4(bytes: &[u8], at: usize) -> Layout
    requires low { at ≤ 18 }
    requires header { at + 20 ≤ length bytes.now }
    ensures { result ≡ ipv4_layout bytes.now at }
{
    let protocol = bytes[at + 9];
    let ports = at + 4 * usize::from(bytes[at] % 16);
    let shown = has_ports(protocol) && !is_fragment(bytes, at) && bytes.len() >= ports + 4;
    Layout {
        protocol,
        first: at + 12,
        second: at + 16,
        width: 4,
        ports: if shown { Some(ports) } else { None },
    }
}

fn ipv6(bytes: &[u8], at: usize) -> Layout
    requires low { at ≤ 18 }
    requires header { at + 40 ≤ length bytes.now }
    ensures { result ≡ ipv6_layout bytes.now at }
{
    let protocol = bytes[at + 6];
    let shown = has_ports(protocol) && bytes.len() >= at + 44;
    Layout {
        protocol,
        first: at + 8,
        second: at + 24,
        width: 16,
        ports: if shown { Some(at + 40) } else { None },
    }
}

/// Where the ends of a frame with this type and payload stand.
pub(crate) fn layout_at(bytes: &[u8], kind: u16, at: usize) -> Layout
    requires low { at ≤ 18 }
    requires header { 14 ≤ length bytes.now }
    ensures layout { result ≡ layout_at bytes.now kind at }
    ensures first_within { result.first + result.width ≤ length bytes.now }
    ensures second_within { result.second + result.width ≤ length bytes.now }
    ensures ports_within { IfSome result.ports (λ ports. ports + 4 ≤ length bytes.now) }
{
    if is_ipv4(bytes, kind, at) {
        ipv4(bytes, at)
    } else if is_ipv6(bytes, kind, at) {
        ipv6(bytes, at)
    } else {
        Layout {
            protocol: 0,
            first: 6,
            second: 0,
            width: 6,
            ports: None,
        }
    }
}
