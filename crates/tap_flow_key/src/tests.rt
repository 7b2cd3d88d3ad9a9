use super::*;
use std::process::Abort;

const ETHERNET: [u8; 14] = [2, 0, 0, 0, 0, 1, 2, 0, 0, 0, 0, 2, 0x08, 0x00];

const IPV4: [u8; 38] = [
    2, 0, 0, 0, 0, 1, 2, 0, 0, 0, 0, 2, 0x08, 0x00, 0x45, 0, 0, 24, 0, 0, 0, 0, 64, 17, 0, 0, 10,
    0, 0, 2, 10, 0, 0, 1, 0x12, 0x34, 0x00, 0x50,
];

// On its way back, with options and another time to live.
const REPLY: [u8; 43] = [
    2, 0, 0, 0, 0, 2, 2, 0, 0, 0, 0, 1, 0x08, 0x00, 0x46, 0, 0, 29, 0, 7, 0x40, 0, 55, 17, 3, 9,
    10, 0, 0, 1, 10, 0, 0, 2, 1, 1, 1, 0, 0x00, 0x50, 0x12, 0x34, 99,
];

const IPV6: [u8; 58] = [
    2, 0, 0, 0, 0, 1, 2, 0, 0, 0, 0, 2, 0x86, 0xdd, 0x60, 0, 0, 0, 0, 4, 6, 64, 0xfe, 0x80, 0, 0,
    0, 0, 0, 0, 0, 0, 0, 0, 0, 0, 0, 1, 0xfe, 0x80, 0, 0, 0, 0, 0, 0, 0, 0, 0, 0, 0, 0, 0, 2, 0x12,
    0x34, 0x00, 0x50,
];

const TAGGED: [u8; 42] = [
    2, 0, 0, 0, 0, 1, 2, 0, 0, 0, 0, 2, 0x81, 0x00, 0x00, 0x07, 0x08, 0x00, 0x45, 0, 0, 24, 0, 0,
    0, 0, 64, 6, 0, 0, 10, 0, 0, 2, 10, 0, 0, 1, 0x12, 0x34, 0x00, 0x50,
];

// The hardware addresses alone, under the types that the frames above name.
const IPV4_BY_STATION: [u8; 19] = [
    0x08, 0x00, 0, 2, 0, 0, 0, 0, 1, 0, 0, 2, 0, 0, 0, 0, 2, 0, 0,
];

const IPV6_BY_STATION: [u8; 19] = [
    0x86, 0xdd, 0, 2, 0, 0, 0, 0, 1, 0, 0, 2, 0, 0, 0, 0, 2, 0, 0,
];

const VLAN_BY_STATION: [u8; 19] = [
    0x81, 0x00, 0, 2, 0, 0, 0, 0, 1, 0, 0, 2, 0, 0, 0, 0, 2, 0, 0,
];

const UDP: [u8; 15] = [
    0x08, 0x00, 17, 10, 0, 0, 1, 0x00, 0x50, 10, 0, 0, 2, 0x12, 0x34,
];

const UDP_NO_PORTS: [u8; 15] = [0x08, 0x00, 17, 10, 0, 0, 1, 0, 0, 10, 0, 0, 2, 0, 0];

const TCP: [u8; 15] = [
    0x08, 0x00, 6, 10, 0, 0, 1, 0x00, 0x50, 10, 0, 0, 2, 0x12, 0x34,
];

const TCP_NO_PORTS: [u8; 15] = [0x08, 0x00, 6, 10, 0, 0, 1, 0, 0, 10, 0, 0, 2, 0, 0];

const ICMP: [u8; 15] = [0x08, 0x00, 1, 10, 0, 0, 1, 0, 0, 10, 0, 0, 2, 0, 0];

const TCP6: [u8; 39] = [
    0x86, 0xdd, 6, 0xfe, 0x80, 0, 0, 0, 0, 0, 0, 0, 0, 0, 0, 0, 0, 0, 1, 0x12, 0x34, 0xfe, 0x80, 0,
    0, 0, 0, 0, 0, 0, 0, 0, 0, 0, 0, 0, 2, 0x00, 0x50,
];

const TCP6_NO_PORTS: [u8; 39] = [
    0x86, 0xdd, 6, 0xfe, 0x80, 0, 0, 0, 0, 0, 0, 0, 0, 0, 0, 0, 0, 0, 1, 0, 0, 0xfe, 0x80, 0, 0, 0,
    0, 0, 0, 0, 0, 0, 0, 0, 0, 0, 2, 0, 0,
];

const NO_NEXT6: [u8; 39] = [
    0x86, 0xdd, 59, 0xfe, 0x80, 0, 0, 0, 0, 0, 0, 0, 0, 0, 0, 0, 0, 0, 1, 0, 0, 0xfe, 0x80, 0, 0,
    0, 0, 0, 0, 0, 0, 0, 0, 0, 0, 0, 2, 0, 0,
];

fn has_key(rt: &impl Abort, frame: &[u8], key: &[u8]) {
    assert_eq!(rt; flow_hash(frame), fnv(key), "{frame:?}");
}

// An IPv4 frame with one byte changed.
fn ipv4_with(rt: &impl Abort, at: usize, byte: u8, key: &[u8]) {
    let mut frame = IPV4;
    if at < 38 {
        frame[at] = byte;
    }
    has_key(rt, &frame, key);
}

#[test]
fn hashes_bytes(rt: HostRuntime) {
    assert_eq!(rt; fnv(b"a"), 0xe40c_292c);
    assert_eq!(rt; fnv(b"foobar"), 0xbf9c_f968);
    assert_eq!(rt; fnv(b""), 0x811c_9dc5);
    assert_eq!(rt; fnv(&[0xcc, 0x24, 0x31, 0xc4]), 0);
    assert_eq!(rt; flow_hash(&[0xcc, 0x24, 0x31, 0xc4]), 1);
}

// Frames that are cut or that carry nothing known.
#[test]
fn keys_by_station(rt: HostRuntime) {
    has_key(&rt, b"", b"");
    has_key(&rt, &ETHERNET[..13], &ETHERNET[..13]);
    has_key(&rt, &ETHERNET, &IPV4_BY_STATION);
    has_key(&rt, &TAGGED[..17], &VLAN_BY_STATION);
    has_key(&rt, &TAGGED[..18], &IPV4_BY_STATION);
    has_key(&rt, &IPV4[..33], &IPV4_BY_STATION);
    has_key(&rt, &IPV6[..53], &IPV6_BY_STATION);
}

#[test]
fn keys_by_ipv4(rt: HostRuntime) {
    has_key(&rt, &IPV4, &UDP);
    has_key(&rt, &REPLY, &UDP);
    has_key(&rt, &IPV4[..37], &UDP_NO_PORTS);
    has_key(&rt, &IPV4[..34], &UDP_NO_PORTS);
    has_key(&rt, &TAGGED, &TCP);
    has_key(&rt, &TAGGED[..41], &TCP_NO_PORTS);
    for (at, byte, key) in [
        (14, 0x44, &IPV4_BY_STATION as &[u8]),
        (14, 0x4f, &IPV4_BY_STATION),
        (14, 0x65, &IPV4_BY_STATION),
        (14, 0x46, &UDP_NO_PORTS),
        (20, 0x40, &UDP),
        (20, 0x20, &UDP_NO_PORTS),
        (20, 0x10, &UDP_NO_PORTS),
        (21, 0x01, &UDP_NO_PORTS),
        (23, 1, &ICMP),
    ] {
        ipv4_with(&rt, at, byte, key);
    }
}

#[test]
fn keys_by_ipv6(rt: HostRuntime) {
    has_key(&rt, &IPV6, &TCP6);
    has_key(&rt, &IPV6[..57], &TCP6_NO_PORTS);
    has_key(&rt, &IPV6[..54], &TCP6_NO_PORTS);
    let mut frame = IPV6;
    frame[20] = 59;
    has_key(&rt, &frame, &NO_NEXT6);
    frame[14] = 0x45;
    has_key(&rt, &frame, &IPV6_BY_STATION);
}
