//! Three packets of two flows, counted, gathered and exported.
ghost use Rattle.std.specs.Prelude.{◌≡◌, ◌≤◌};
ghost use Rattle.flow_line.specs.Versions.{HasFittingKey};

use crate::plenty::had;
use capture_bytes::{PcapRecord, Unit};
use classifier::{Burst, Item};
use flow_export::{Span5, export};
use flow_shards::{FlowKey, FlowLine, Shards};
use item_list::Items;
use nfp_outside::{Desk, FixedDesk, Slot};
use packet_fields::Frame;
use std::alloc::Global;
use std::process::Abort;
use std::thread::Threads;

/// One export packet with two records: two packets of 28 bytes of 10.0.0.1 at 0 and 2 seconds, and one of 10.0.0.9 at 1
/// second.
const EXPORT: [u8; 120] = [
    0, 5, 0, 2, 0, 0, 0x07, 0xd0, 0, 0, 0, 2, 0, 0, 0, 0, 0, 0, 0, 0, 0, 0, 0, 0, 10, 0, 0, 1, 10,
    0, 0, 2, 0, 0, 0, 0, 0, 0, 0, 0, 0, 0, 0, 2, 0, 0, 0, 0x38, 0, 0, 0, 0, 0, 0, 0x07, 0xd0, 3,
    0xe8, 0, 0x35, 0, 0, 0x11, 0, 0, 0, 0, 0, 0, 0, 0, 0, 10, 0, 0, 9, 10, 0, 0, 2, 0, 0, 0, 0, 0,
    0, 0, 0, 0, 0, 0, 1, 0, 0, 0, 0x1c, 0, 0, 3, 0xe8, 0, 0, 3, 0xe8, 3, 0xe8, 0, 0x35, 0, 0, 0x11,
    0, 0, 0, 0, 0, 0, 0, 0, 0,
];

fn item(rt: &impl Abort, alloc: Global, number: u32, seconds: u32, host: u8) -> Item
    ensures { result.number ≡ number }
{
    let frame = had(rt, fixtures::udp(host, 1000).to_vec(alloc));
    Item {
        number,
        class: None,
        packet: PcapRecord {
            seconds,
            fraction: 0,
            wire: 42,
            frame: Frame::new(frame),
        },
    }
}

fn in_one_burst(rt: &(impl Abort + Threads + Sync), alloc: Global, workers: u32) -> Shards
    requires some { 1 ≤ workers }
    requires few { workers ≤ 16 }
{
    let shards = had(rt, Shards::new(alloc, workers));
    let items = [
        item(rt, alloc, 1, 0, 1),
        item(rt, alloc, 2, 1, 9),
        item(rt, alloc, 3, 2, 1),
    ];
    let burst = Burst {
        items: Items::new(had(rt, Vec::from_array(alloc, items))),
    };
    had(rt, shards.feed(rt, alloc, &burst, Unit::Micro))
}

/// The lines that are gathered.
fn gathers(rt: &(impl Abort + Threads + Sync), alloc: Global, workers: u32) -> bool
    requires some { 1 ≤ workers }
    requires few { workers ≤ 16 }
{
    let lines = had(rt, in_one_burst(rt, alloc, workers).gather(alloc));
    match lines.as_slice() {
        [one, nine] => is_line(one, 1, 2, 2_000_000_000) && is_line(nine, 2, 1, 1_000_000_000),
        _ => false,
    }
}

fn is_line(line: &FlowLine, first: u32, packets: u64, last: u64) -> bool {
    line.first == first && line.packets == packets && line.last == last
}

fn line(host: u128, packets: u64, bytes: u64, begun: u64, last: u64) -> FlowLine
    ensures { HasFittingKey result }
{
    let key = FlowKey {
        wide: false,
        proto: 17,
        src: 0x0a00_0000 + host % 256,
        sport: Some(1000),
        dst: 0x0a00_0002,
        dport: Some(53),
    };
    FlowLine {
        key,
        packets,
        bytes,
        first: 1,
        begun,
        last,
        flags: 0,
    }
}

#[test]
fn two_flows_make_one_packet(rt: HostRuntime) {
    let alloc = rt.alloc();
    let lines = [
        line(1, 2, 56, 0, 2_000_000_000),
        line(9, 1, 28, 1_000_000_000, 1_000_000_000),
    ];
    let span = Span5 {
        origin: 0,
        greatest: 2_000_000_000,
    };
    let mut desk = FixedDesk::new(alloc, Vec::new(alloc), Vec::new(alloc), 7);
    had(&rt, desk.attach(Slot::Out, "out"));
    let packets = had(&rt, export(alloc, &mut desk, &lines, &span));
    assert!(rt; packets == 1 && desk.put(Slot::Out) == EXPORT.as_slice());
}

#[test]
fn workers_gather_the_same_lines(rt: HostRuntime) {
    assert!(rt; gathers(&rt, rt.alloc(), 1));
    assert!(rt; gathers(&rt, rt.alloc(), 2));
    assert!(rt; gathers(&rt, rt.alloc(), 16));
}
