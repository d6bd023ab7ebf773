//! Packets, numbered and cut into bursts.

use crate::plenty::had;
use crate::runs::packet;
use classifier::{Burst, Cutter};

// Has a burst been closed with `count` packets?
fn has_packets(burst: &Option<Burst>, count: usize) -> bool {
    match burst {
        Some(burst) => burst.items.as_slice().len() == count,
        None => false,
    }
}

// Has the last packet of the open burst this number?
fn ends_with(burst: Burst, number: u32) -> bool {
    match burst.items.into_vec().pop() {
        Some(item) => item.number == number,
        None => false,
    }
}

/// Three packets in bursts of two: the second closes a burst, and the third stays in the open one.
#[test]
fn every_second_packet_closes_a_burst(rt: HostRuntime) {
    let alloc = rt.alloc();
    let mut cutter = had(&rt, Cutter::new(alloc, 2));
    let first = had(&rt, cutter.add(packet(&rt, alloc, 1), Some(0)));
    let second = had(&rt, cutter.add(packet(&rt, alloc, 2), None));
    let third = had(&rt, cutter.add(packet(&rt, alloc, 3), Some(0)));
    assert!(rt; first.is_none() && third.is_none() && has_packets(&second, 2));
    assert!(rt; ends_with(cutter.rest(), 3));
}
