// Frames that are sealed, and a frame that gets a tag.
use crate::plenty::had;
use packet_fields::{seal, with_tags};

// The frame of `fixtures::udp(1, 1000)`, sent from 192.0.2.1, port 40000, with the checksums of the original.
const TRANSLATED: [u8; 42] = [
    2, 0, 0, 0, 0, 2, 2, 0, 0, 0, 0, 1, 8, 0, 0x45, 0, 0, 28, 0, 0, 0, 0, 64, 17, 0x66, 0xcf, 192,
    0, 2, 1, 10, 0, 0, 2, 0x9c, 0x40, 0, 53, 0, 8, 0, 0,
];

// The checksum of IPv4 and that of UDP after the translation; before it, that of UDP was `high` and `low`.
fn sums(high: u8, low: u8) -> [u8; 4] {
    let mut before = fixtures::udp(1, 1000);
    before[40] = high;
    before[41] = low;
    let mut after = TRANSLATED;
    after[40] = high;
    after[41] = low;
    seal(&before, &mut after);
    [after[24], after[25], after[40], after[41]]
}

#[test]
fn checksums_follow_a_translation(rt: HostRuntime) {
    assert_eq!(rt; sums(0, 0), [0xae, 0xce, 0, 0], "none stays none");
    assert_eq!(rt;
        sums(0xe7, 0xbe),
        [0xae, 0xce, 0x97, 0x65],
        "a right one stays right"
    );
    assert_eq!(rt;
        sums(0xe7, 0xbf),
        [0xae, 0xce, 0x97, 0x66],
        "a wrong one stays as wrong"
    );
}

#[tactic(auto, unfolding(packet_fields::specs::Frames::is_tag_list))]
#[test]
fn a_tag_is_put_before_an_untagged_packet(rt: HostRuntime) {
    let tag = [0x81, 0, 0, 7];
    let tagged = had(&rt, with_tags(rt.alloc(), &tag, &fixtures::UDP));
    let bytes = tagged.bytes();
    assert_eq!(rt; bytes.len(), 46);
    assert_eq!(rt; &bytes[12..16], tag.as_slice());
    assert_eq!(rt; &bytes[16..], &fixtures::UDP[12..]);
}
