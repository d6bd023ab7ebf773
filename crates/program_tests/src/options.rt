//! Runs with options, which don't change the output, and the demo.

use crate::packets::{Capture, Datagram, FIRST, HEAD, NOTHING, Packet, THREE};
use crate::rows::{Failure, Row, compare, compare_failing};
use nfp_outside::Slot;

// The first packet as it leaves the translation.
const OUTSIDE: Datagram<'static> = Datagram {
    checksum: [0xae, 0xce],
    source: [192, 0, 2, 1],
    source_port: 40000,
    ..FIRST
};

// A limited source, before a translation with five ports.
const SLOWED: &[Row<'static>] = &[Row {
    calls: &[
        &[
            "run",
            "--burst",
            "1",
            "--mergers",
            "16",
            "--merge",
            "board",
            "p",
            "c",
            "o",
            "r",
        ],
        &[
            "run",
            "--burst",
            "7",
            "--mergers",
            "1",
            "--merge",
            "inbox",
            "p",
            "c",
            "o",
            "r",
        ],
        &[
            "run",
            "--burst",
            "65536",
            "--mergers",
            "2",
            "--merge",
            "board",
            "p",
            "c",
            "o",
            "r",
        ],
        &[
            "run",
            "--burst",
            "65536",
            "--mergers",
            "16",
            "--merge",
            "inbox",
            "p",
            "c",
            "o",
            "r",
        ],
    ],
    graph: b"",
    policy: b"nfp 1\nchain main\nfn lim limiter\nset rate 14\nset burst 28\nfn n nat\nset inside 10.0.0.0/8\nset public 192.0.2.1\nset ports 40000-40004\norder lim before n\n",
    capture: Capture {
        head: &HEAD,
        packets: &[
            Packet::At(0, 1000),
            Packet::At(1, 1001),
            Packet::At(2, 1002),
            Packet::At(3, 1003),
            Packet::At(4, 1004),
            Packet::At(5, 1005),
            Packet::At(6, 1006),
            Packet::At(7, 1007),
            Packet::At(8, 1008),
            Packet::At(9, 1009),
            Packet::At(10, 1010),
            Packet::At(11, 1011),
            Packet::At(12, 1012),
            Packet::At(13, 1013),
            Packet::At(14, 1014),
            Packet::At(15, 1015),
            Packet::At(16, 1016),
            Packet::At(17, 1017),
            Packet::At(18, 1018),
            Packet::At(19, 1019),
        ],
    },
    outcome: "Done",
    out: Capture {
        head: &HEAD,
        packets: &[
            Packet::Udp(OUTSIDE),
            Packet::Udp(Datagram {
                second: 2,
                source_port: 40001,
                ..OUTSIDE
            }),
            Packet::Udp(Datagram {
                second: 4,
                source_port: 40002,
                ..OUTSIDE
            }),
            Packet::Udp(Datagram {
                second: 6,
                source_port: 40003,
                ..OUTSIDE
            }),
            Packet::Udp(Datagram {
                second: 8,
                source_port: 40004,
                ..OUTSIDE
            }),
        ],
    },
    report: b"nfp report 1\ndrop 2 main lim\ndrop 4 main lim\ndrop 6 main lim\ndrop 8 main lim\ndrop 10 main lim\ndrop 11 main n\ndrop 12 main lim\ndrop 13 main n\ndrop 14 main lim\ndrop 15 main n\ndrop 16 main lim\ndrop 17 main n\ndrop 18 main lim\ndrop 19 main n\ndrop 20 main lim\nrecords 20 emitted 5 dropped 15\nfunction main lim limiter\n  source 10.0.0.1 tokens 14000000000 at 19000000000\nfunction main n nat\n  map 17 10.0.0.1 1000 port 40000\n  map 17 10.0.0.1 1002 port 40001\n  map 17 10.0.0.1 1004 port 40002\n  map 17 10.0.0.1 1006 port 40003\n  map 17 10.0.0.1 1008 port 40004\nend\n",
    note: b"done records 20 emitted 5 dropped 15\n",
}];

// Twenty packets in as many seconds, of which every second passes the limiter, and five find a port.
#[test]
fn states_are_carried_from_burst_to_burst(rt: HostRuntime) {
    compare(&rt, SLOWED);
}

const OPEN: &[Failure<'static>] = &[Failure {
    calls: &[
        &["run", "p", "c", "o", "r", "--burst=1", "--mergers", "1"],
        &["run", "p", "c", "o", "r", "--burst=1", "--mergers", "2"],
        &["run", "p", "c", "o", "r", "--burst=1", "--mergers", "16"],
    ],
    policy: b"nfp 1\nchain main\nfn mon monitor\nfn fw firewall\norder mon before fw\n",
    capture: THREE,
    fails: (Slot::Out, 4),
    outcome: "WriteFault(Out)",
    out: Capture {
        head: &HEAD,
        packets: &[Packet::From(1)],
    },
    note: b"write fault: out\n",
}];

// Bursts of one packet are written one by one: the first is written, and the second couldn't be.
#[test]
fn a_burst_is_written_before_the_next(rt: HostRuntime) {
    compare_failing(&rt, OPEN);
}

const NO_CHAINS: &[Row<'static>] = &[Row {
    calls: &[
        &["run", "--mergers", "1", "--", "p", "c", "-o", "-r"],
        &["run", "--mergers", "2", "--", "p", "c", "-o", "-r"],
        &["run", "--mergers", "16", "--", "p", "c", "-o", "-r"],
    ],
    graph: b"",
    policy: b"nfp 1\n",
    capture: THREE,
    outcome: "Done",
    out: THREE,
    report: b"nfp report 1\nrecords 3 emitted 3 dropped 0\nend\n",
    note: b"done records 3 emitted 3 dropped 0\n",
}];

#[test]
fn without_chains_all_packets_pass(rt: HostRuntime) {
    compare(&rt, NO_CHAINS);
}

const DEMO: &[Row<'static>] = &[Row {
    calls: &[
        &["demo", "1", "20000"],
        &["demo", "1", "--merge", "board", "20000"],
        &[
            "demo",
            "--merge=board",
            "--mergers",
            "1",
            "1",
            "20000",
            "--burst=700",
        ],
        &[
            "demo",
            "1",
            "--mergers=16",
            "20000",
            "--burst",
            "65536",
            "--merge",
            "inbox",
        ],
    ],
    graph: b"",
    policy: b"",
    capture: NOTHING,
    outcome: "Done",
    out: NOTHING,
    report: b"",
    note: b"demo 1 20000\nrecords 20000 emitted 8692 dropped 11308\nout 868377 19432303594360\nreport 926263 26711716069004\n",
}];

#[test]
fn a_demo_is_told_by_its_weights(rt: HostRuntime) {
    compare(&rt, DEMO);
}
