use super::*;

#[test]
fn notices(rt: HostRuntime) {
    for (event, new, old, wanted) in [
        (65535, 0, 65535, true),
        (0, 1, 65535, true),
        (3, 8, 5, false),
        (5, 6, 5, true),
        (6, 6, 5, false),
        (65535, 65535, 65534, false),
        (7, 7, 7, false),
    ] {
        assert_eq!(rt; need_event(event, new, old), wanted, "{event} {new} {old}");
    }
}

#[test]
fn fields_as_bytes(rt: HostRuntime) {
    let bytes = [
        0x00, 0x10, 0, 0, 0, 0, 0, 0x80, 0x1a, 0, 0, 0, 0x05, 0, 0x02, 0x01,
    ];
    let desc = Desc::of(&bytes);
    assert_eq!(rt; desc.addr, 0x8000_0000_0000_1000);
    assert_eq!(rt; desc.len, 26);
    assert_eq!(rt; desc.next, 258);
    assert!(rt; desc.has_next() && desc.is_indirect() && !desc.is_writable());
    assert_eq!(rt; desc.bytes(), bytes);
    let elem = UsedElem {
        id: 3,
        len: 0x0102_0304,
    };
    assert_eq!(rt; elem.bytes(), [3, 0, 0, 0, 4, 3, 2, 1]);
    assert_eq!(rt; UsedElem::of(&elem.bytes()), elem);
    assert_eq!(rt; le16_of(&le16_bytes_of(0xfe01)), 0xfe01);
}

#[test]
fn addresses(rt: HostRuntime) {
    let ring = Layout {
        num: 4,
        desc: 0,
        avail: 64,
        used: 80,
        indirect: false,
        event: true,
        rx: false,
    };
    assert_eq!(rt; ring.desc_addr(3), 48);
    assert_eq!(rt; ring.avail_entry_addr(65535), 74);
    assert_eq!(rt; ring.used_event_addr(), 76);
    assert_eq!(rt; ring.used_entry_addr(5), 92);
    assert_eq!(rt; ring.avail_event_addr(), 116);
    assert_eq!(rt; (desc_len(4), avail_len(4), used_len(4)), (64, 14, 38));
}
