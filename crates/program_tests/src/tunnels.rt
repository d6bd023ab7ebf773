//! Runs through the ends of a tunnel (RFC 2003).

use crate::packets::{Capture, Datagram, FIRST, HEAD, NONE, NOTHING, Packet};
use crate::rows::{Row, WAYS, compare};

/// [`HEAD`] with the snaplen that an entry makes twenty bytes longer.
const GROWN: [u8; 24] = [
    0xd4, 0xc3, 0xb2, 0xa1, 2, 0, 4, 0, 0, 0, 0, 0, 0, 0, 0, 0, 0x13, 0, 1, 0, 1, 0, 0, 0,
];

const CAPTURE: Capture<'static> = Capture {
    head: &HEAD,
    packets: &[Packet::Udp(FIRST)],
};

// The packet of CAPTURE in one from 192.0.2.1 to 192.0.2.2.
const ENTERED: &[u8] = &[
    2, 0, 0, 0, 0, 2, 2, 0, 0, 0, 0, 1, 8, 0, // Ethernet
    0x45, 0, 0, 0x30, 0, 0, 0, 0, 0x40, 4, 0xf6, 0xc6, 192, 0, 2, 1, 192, 0, 2, 2, // outer IPv4
    0x45, 0, 0, 0x1c, 0, 0, 0, 0, 0x40, 17, 0x66, 0xcf, 10, 0, 0, 1, 10, 0, 0, 2, // IPv4
    3, 0xe8, 0, 53, 0, 8, 0, 0, // UDP
];

// The same if a marker comes before the entry.
const MARKED: &[u8] = &[
    2, 0, 0, 0, 0, 2, 2, 0, 0, 0, 0, 1, 8, 0, // Ethernet
    0x45, 8, 0, 0x30, 0, 0, 0, 0, 0x40, 4, 0xf6, 0xbe, 192, 0, 2, 1, 192, 0, 2, 2, // outer IPv4
    0x45, 8, 0, 0x1c, 0, 0, 0, 0, 0x40, 17, 0x66, 0xc7, 10, 0, 0, 1, 10, 0, 0, 2, // IPv4
    3, 0xe8, 0, 53, 0, 8, 0, 0, // UDP
];

const ENTRY: Row<'static> = Row {
    calls: WAYS,
    graph: b"",
    policy: b"nfp 1\nchain main\nfn e encap\nset entry 192.0.2.1\nset exit 192.0.2.2\nset ttl 64\n",
    capture: CAPTURE,
    outcome: "Done",
    out: Capture {
        head: &GROWN,
        packets: &[Packet::Frame(ENTERED, 0)],
    },
    report: b"nfp report 1\nrecords 1 emitted 1 dropped 0\nfunction main e encap\nend\n",
    note: b"done records 1 emitted 1 dropped 0\n",
};

const BEHIND_A_MARKER: Row<'static> = Row {
    policy: b"nfp 1\nchain main\nfn m marker\nrule tos 8\nfn e encap\nset entry 192.0.2.1\nset exit 192.0.2.2\nset ttl 64\n",
    out: Capture {
        head: &GROWN,
        packets: &[Packet::Frame(MARKED, 0)],
    },
    report: b"nfp report 1\nrecords 1 emitted 1 dropped 0\nfunction main m marker\nfunction main e encap\nend\n",
    ..ENTRY
};

const THROUGH: Row<'static> = Row {
    policy: b"nfp 1\nchain main\nfn m marker\nrule tos 8\nfn e encap\nset entry 192.0.2.1\nset exit 192.0.2.2\nset ttl 64\nfn d decap\nset exit 192.0.2.2\n",
    out: Capture {
        head: &GROWN,
        packets: &[Packet::Udp(Datagram {
            type_of_service: 8,
            checksum: [0x66, 0xc7],
            ..FIRST
        })],
    },
    report: b"nfp report 1\nrecords 1 emitted 1 dropped 0\nfunction main m marker\nfunction main e encap\nfunction main d decap\nend\n",
    ..ENTRY
};

// Each piece has its own state, and the one that drops is named by its place in the chain.
const DROPPED_BEHIND: Row<'static> = Row {
    policy: b"nfp 1\nchain main\nfn m monitor\nfn e encap\nset entry 192.0.2.1\nset exit 192.0.2.2\nset ttl 64\nfn n monitor\nfn h hop\nfn fw firewall\nrule deny src 192.0.2.1\n",
    out: Capture {
        head: &GROWN,
        ..NONE
    },
    report: b"nfp report 1\ndrop 1 main fw\nrecords 1 emitted 0 dropped 1\nfunction main m monitor\n  flow 17 10.0.0.1 1000 10.0.0.2 53 packets 1 bytes 28\nfunction main e encap\nfunction main n monitor\n  flow 4 192.0.2.1 - 192.0.2.2 - packets 1 bytes 48\nfunction main h hop\nfunction main fw firewall\nend\n",
    note: b"done records 1 emitted 0 dropped 1\n",
    ..ENTRY
};

const TUNNELS: &[Row<'static>] = &[ENTRY, BEHIND_A_MARKER, THROUGH, DROPPED_BEHIND];

#[test]
fn packets_enter_and_leave_a_tunnel(rt: HostRuntime) {
    compare(&rt, TUNNELS);
}

const FORBIDDEN: &[Row<'static>] = &[Row {
    policy: b"nfp 1\nchain main\nfn m marker\nrule tos 8\nfn e encap\nset entry 192.0.2.1\nset exit 192.0.2.2\nset ttl 64\npriority m > e\n",
    outcome: "Policy(Check { chain: 0, fault: PriorityForbidden { high: 0, low: 1, line: 9, first: Whole, second: Read(SrcIp) } })",
    out: NOTHING,
    report: b"",
    note: b"policy: line 9: priority m over e forbidden: whole before read src\n",
    ..ENTRY
}];

// Nothing can be beside an end of a tunnel.
#[test]
fn an_entry_has_no_priority_over_a_marker(rt: HostRuntime) {
    compare(&rt, FORBIDDEN);
}
