//! Runs through functions that rewrite packets and keep no state.

use crate::packets::{Capture, Datagram, FIRST, HEAD, NONE, Packet};
use crate::rows::{Row, WAYS, compare};

const NINTH: Datagram<'static> = Datagram {
    source: [10, 0, 0, 9],
    checksum: [0x66, 0xc7],
    ..FIRST
};

const MARKED: &[Row<'static>] = &[Row {
    calls: WAYS,
    graph: b"",
    policy: b"nfp 1\nchain main\nfn m1 marker\nrule tos 8\nfn m2 marker\nrule tos 16 src 10.0.0.9\n",
    capture: Capture {
        head: &HEAD,
        packets: &[Packet::Udp(FIRST), Packet::Udp(NINTH)],
    },
    outcome: "Done",
    out: Capture {
        head: &HEAD,
        packets: &[
            Packet::Udp(Datagram {
                type_of_service: 8,
                checksum: [0x66, 0xc7],
                ..FIRST
            }),
            Packet::Udp(Datagram {
                type_of_service: 16,
                checksum: [0x66, 0xb7],
                ..NINTH
            }),
        ],
    },
    report: b"nfp report 1\nrecords 2 emitted 2 dropped 0\ncopies main tos 2\nfunction main m1 marker\nfunction main m2 marker\nend\n",
    note: b"done records 2 emitted 2 dropped 0\n",
}];

// Each marker has its own copy of the type of service, and the later one's is the packet's.
#[test]
fn the_later_marker_is_the_one_that_is_seen(rt: HostRuntime) {
    compare(&rt, MARKED);
}

const SECRET: Datagram<'static> = Datagram {
    checksum: [0x66, 0xc6],
    data: b"my secret",
    ..FIRST
};

const SEARCHED: &[Row<'static>] = &[Row {
    calls: WAYS,
    graph: b"",
    policy: b"nfp 1\nchain main\nfn sig signature\nrule text worm\nrule text trojan\nrule text botnet\nrule text spy\nrule text root\nrule hex cafebabe\nrule hex 90909090\nrule text evil\nrule text villain\nfn red redactor\nrule text secret\n",
    capture: Capture {
        head: &HEAD,
        packets: &[
            Packet::Udp(SECRET),
            Packet::Udp(Datagram {
                checksum: [0x66, 0xc4],
                data: b"evil secret",
                ..FIRST
            }),
        ],
    },
    outcome: "Done",
    out: Capture {
        head: &HEAD,
        packets: &[Packet::Udp(Datagram {
            data: b"my xxxxxx",
            ..SECRET
        })],
    },
    report: b"nfp report 1\ndrop 2 main sig\nrecords 2 emitted 1 dropped 1\ncopies main payload 2\nfunction main sig signature\nfunction main red redactor\nend\n",
    note: b"done records 2 emitted 1 dropped 1\n",
}];

// The signature has so many patterns that one pass searches for all of them. It sees the payload as it came, and the
// redactor beside it writes a copy of its own.
#[test]
fn a_payload_is_searched_and_redacted_side_by_side(rt: HostRuntime) {
    compare(&rt, SEARCHED);
}

const DENIED: &[Row<'static>] = &[Row {
    calls: WAYS,
    graph: b"",
    policy: b"nfp 1\nchain main\nfn fw firewall\nrule deny src 10.0.0.9\nfn sig signature\nrule text evil\n",
    capture: Capture {
        head: &HEAD,
        packets: &[Packet::Udp(Datagram {
            checksum: [0x66, 0xc3],
            data: b"evil",
            ..NINTH
        })],
    },
    outcome: "Done",
    out: NONE,
    report: b"nfp report 1\ndrop 1 main fw\nrecords 1 emitted 0 dropped 1\nfunction main fw firewall\nfunction main sig signature\nend\n",
    note: b"done records 1 emitted 0 dropped 1\n",
}];

// Both drop the packet, and the report names the first of them.
#[test]
fn of_two_drops_the_first_in_the_chain_is_told(rt: HostRuntime) {
    compare(&rt, DENIED);
}

// Snaplen 65539.
const LONGER_HEAD: [u8; 24] = [
    0xd4, 0xc3, 0xb2, 0xa1, 2, 0, 4, 0, 0, 0, 0, 0, 0, 0, 0, 0, 3, 0, 1, 0, 1, 0, 0, 0,
];

const SHORT: Packet<'static> = Packet::Frame(&[], 13);

const TWO_TAGS: Packet<'static> = Packet::Frame(
    &[
        2, 0, 0, 0, 0, 2, 2, 0, 0, 0, 0, 1, 0x88, 0xa8, 0, 100, 0x81, 0, 0, 10,
    ],
    40,
);

const THREE_TAGS: Packet<'static> = Packet::Frame(
    &[
        2, 0, 0, 0, 0, 2, 2, 0, 0, 0, 0, 1, 0x81, 0, 0, 7, 0x88, 0xa8, 0, 100, 0x81, 0, 0, 10,
    ],
    40,
);

const TAGGED: &[Row<'static>] = &[Row {
    calls: WAYS,
    graph: b"",
    policy: b"nfp 1\nchain main\nfn t tagger\nrule vid 7 pcp 0\n",
    capture: Capture {
        head: &HEAD,
        packets: &[SHORT, TWO_TAGS],
    },
    outcome: "Done",
    out: Capture {
        head: &LONGER_HEAD,
        packets: &[SHORT, THREE_TAGS],
    },
    report: b"nfp report 1\nrecords 2 emitted 2 dropped 0\nfunction main t tagger\nend\n",
    note: b"done records 2 emitted 2 dropped 0\n",
}];

// A frame that is too short for a tag doesn't change. A frame that has two gets a third before them, and is four bytes
// longer; the snaplen in the head has room for them.
#[test]
fn a_tag_is_put_before_the_others(rt: HostRuntime) {
    compare(&rt, TAGGED);
}

const LIVED: &[Row<'static>] = &[Row {
    calls: WAYS,
    graph: b"",
    policy: b"nfp 1\nchain main\nfn h hop\n",
    capture: Capture {
        head: &HEAD,
        packets: &[
            Packet::Udp(FIRST),
            Packet::Udp(Datagram {
                time_to_live: 1,
                checksum: [0xa5, 0xcf],
                ..FIRST
            }),
        ],
    },
    outcome: "Done",
    out: Capture {
        head: &HEAD,
        packets: &[Packet::Udp(Datagram {
            time_to_live: 63,
            checksum: [0x67, 0xcf],
            ..FIRST
        })],
    },
    report: b"nfp report 1\ndrop 2 main h\nrecords 2 emitted 1 dropped 1\nfunction main h hop\nend\n",
    note: b"done records 2 emitted 1 dropped 1\n",
}];

// The last hop of a packet is the one that would leave it no time to live.
#[test]
fn a_packet_at_its_last_hop_is_dropped(rt: HostRuntime) {
    compare(&rt, LIVED);
}
