//! The flows of captures, for every number of workers and every size of a burst.

use crate::packets::{Capture, Datagram, Datagram6, FIRST, HEAD, NOTHING, Packet};
use crate::rows::{Row, Words, compare};

// One export packet with two records: two packets of 28 bytes of 10.0.0.1 at 0 and 2 seconds, and one of 10.0.0.9 at 1
// second.
const EXPORT: [u8; 120] = [
    0, 5, 0, 2, 0, 0, 0x07, 0xd0, 0, 0, 0, 2, 0, 0, 0, 0, 0, 0, 0, 0, 0, 0, 0, 0, 10, 0, 0, 1, 10,
    0, 0, 2, 0, 0, 0, 0, 0, 0, 0, 0, 0, 0, 0, 2, 0, 0, 0, 0x38, 0, 0, 0, 0, 0, 0, 0x07, 0xd0, 3,
    0xe8, 0, 0x35, 0, 0, 0x11, 0, 0, 0, 0, 0, 0, 0, 0, 0, 10, 0, 0, 9, 10, 0, 0, 2, 0, 0, 0, 0, 0,
    0, 0, 0, 0, 0, 0, 1, 0, 0, 0, 0x1c, 0, 0, 3, 0xe8, 0, 0, 3, 0xe8, 3, 0xe8, 0, 0x35, 0, 0, 0x11,
    0, 0, 0, 0, 0, 0, 0, 0, 0,
];

const FLOWS: Words<'static> = &["flows", "c", "o"];

const CALLS: &[Words<'static>] = &[
    FLOWS,
    &["flows", "c", "o", "--workers", "1", "--burst", "1"],
    &["flows", "c", "o", "--workers", "1", "--burst", "7"],
    &["flows", "c", "o", "--workers", "2", "--burst", "1"],
    &["flows", "c", "o", "--workers", "2", "--burst", "7"],
    &["flows", "c", "o", "--workers", "16", "--burst", "1"],
    &["flows", "c", "o", "--workers", "16", "--burst", "7"],
];

const ROWS: &[Row<'static>] = &[
    // A flow that comes again keeps its place.
    Row {
        calls: CALLS,
        graph: b"",
        policy: b"",
        capture: Capture {
            head: &HEAD,
            packets: &[
                Packet::Udp(FIRST),
                Packet::Udp(Datagram {
                    second: 1,
                    source: [10, 0, 0, 9],
                    ..FIRST
                }),
                Packet::Udp(Datagram { second: 2, ..FIRST }),
            ],
        },
        outcome: "Done",
        out: Capture {
            head: &EXPORT,
            packets: &[],
        },
        report: b"",
        note: b"flows records 3 flows 2 exported 2 packets 1\n",
    },
    // A flow of IPv6 isn't exported.
    Row {
        calls: CALLS,
        graph: b"",
        policy: b"",
        capture: Capture {
            head: &HEAD,
            packets: &[Packet::Udp6(Datagram6 {
                hop_limit: 64,
                host: 2,
                checksum: [0, 0],
            })],
        },
        outcome: "Done",
        out: NOTHING,
        report: b"",
        note: b"flows records 1 flows 1 exported 0 packets 0\n",
    },
    Row {
        calls: &[&["flows", "c", "o", "--workers", "17"]],
        graph: b"",
        policy: b"",
        capture: NOTHING,
        outcome: "Usage(Number(Workers))",
        out: NOTHING,
        report: b"",
        note: b"usage: number workers\n",
    },
];

#[test]
fn flows_are_those_of_the_capture(rt: HostRuntime) {
    compare(&rt, ROWS);
}
