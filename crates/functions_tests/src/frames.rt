//! A tagged frame as clauses see it.
use frame_seen::seen;
use policy_text::{Seen, TagSeen};

// VLAN 7 of priority 5, then UDP from 10.0.0.9, port 1000, to 10.0.0.2, port 53.
const TAGGED: [u8; 46] = [
    2, 0, 0, 0, 0, 2, 2, 0, 0, 0, 0, 1, 0x81, 0, 0xa0, 7, 8, 0, 0x45, 0, 0, 28, 0, 0, 0, 0, 64, 17,
    0x66, 0xc7, 10, 0, 0, 9, 10, 0, 0, 2, 3, 0xe8, 0, 53, 0, 8, 0, 0,
];

#[test]
fn sees_the_values_of_a_tagged_frame(rt: HostRuntime) {
    let expected = Seen {
        tag: TagSeen::Id(7),
        src: Some(0x0a00_0009),
        dst: Some(0x0a00_0002),
        src6: None,
        dst6: None,
        sport: Some(1000),
        dport: Some(53),
        proto: Some(17),
        ether_type: Some(0x0800),
        tcp_flags: None,
    };
    assert!(rt; seen(&TAGGED) == expected);
}

#[test]
fn sees_a_short_frame_without_tags(rt: HostRuntime) {
    let short = seen(&TAGGED[..13]);
    assert!(rt; short.tag == TagSeen::Absent && short.src.is_none() && short.proto.is_none());
    assert!(rt; seen(&TAGGED[18..46]).tag == TagSeen::Bare);
}
