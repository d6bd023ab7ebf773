//! Which chain takes a packet.

use crate::plenty::had;
use classifier::ClassTable;
use fixtures::UDP;
use policy_text::parse;

const POLICY: &str =
    "nfp 1\nchain tagged match tag 7\nchain inside match src 10.0.0.0/8\nchain others\n";

/// The frame with a tag of VLAN 7 and priority 5 (IEEE 802.1Q, 9.6).
fn tagged() -> [u8; 46] {
    let mut frame = [0; 46];
    frame[..12].copy_from_slice(&UDP[..12]);
    frame[12..16].copy_from_slice(&[0x81, 0, 0xa0, 7]);
    frame[16..].copy_from_slice(&UDP[12..]);
    frame
}

/// The frame from 11.0.0.1.
fn foreign() -> [u8; 42] {
    let mut frame = UDP;
    frame[26] = 11;
    frame
}

#[test]
fn the_first_chain_that_fits_takes_a_packet(rt: HostRuntime) {
    let policy = had(&rt, parse(rt.alloc(), POLICY.as_bytes()));
    let table = had(&rt, ClassTable::new(rt.alloc(), &policy));
    let classes = [
        table.class(&tagged()),
        table.class(&UDP),
        table.class(&foreign()),
    ];
    assert_eq!(rt; classes, [Some(0), Some(1), Some(2)]);
}
