//! Runs through functions that keep flows, whose report shows their final states.

use crate::packets::{Capture, Datagram, FIRST, HEAD, NONE, Packet, THREE};
use crate::rows::{ONE_BY_ONE, RUN, Row, Words, compare};

const COUNTED_WAYS: &[Words<'static>] = &[
    &[
        "run",
        "p",
        "c",
        "o",
        "r",
        "--mergers",
        "1",
        "--merge",
        "inbox",
    ],
    &[
        "run",
        "p",
        "c",
        "o",
        "r",
        "--mergers",
        "2",
        "--merge",
        "board",
    ],
    &[
        "run",
        "p",
        "c",
        "o",
        "r",
        "--mergers",
        "16",
        "--merge",
        "board",
    ],
    ONE_BY_ONE,
];

const FIRST_AND_THIRD: Capture<'static> = Capture {
    head: &HEAD,
    packets: &[Packet::From(1), Packet::From(1)],
};

/// The monitor comes before the firewall, and counts what the firewall drops.
pub const BESIDE: &[u8] =
    b"nfp 1\nchain main\nfn mon monitor\nfn fw firewall\nrule deny src 10.0.0.9\norder mon before fw\n";

/// The monitor comes after the firewall, and doesn't count what it drops. It is beside it in the graph all the same.
pub const BEHIND: &[u8] =
    b"nfp 1\nchain main\nfn mon monitor\nfn fw firewall\nrule deny src 10.0.0.9\norder fw before mon\n";

/// A monitor beside a firewall.
pub const COUNTED: Row<'static> = Row {
    calls: COUNTED_WAYS,
    graph: b"",
    policy: BESIDE,
    capture: THREE,
    outcome: "Done",
    out: FIRST_AND_THIRD,
    report: b"nfp report 1\ndrop 2 main fw\nrecords 3 emitted 2 dropped 1\nfunction main mon monitor\n  flow 17 10.0.0.1 1000 10.0.0.2 53 packets 2 bytes 56\n  flow 17 10.0.0.9 1000 10.0.0.2 53 packets 1 bytes 28\nfunction main fw firewall\nend\n",
    note: b"done records 3 emitted 2 dropped 1\n",
};

const COUNTED_BEHIND: Row<'static> = Row {
    policy: BEHIND,
    report: b"nfp report 1\ndrop 2 main fw\nrecords 3 emitted 2 dropped 1\nfunction main mon monitor\n  flow 17 10.0.0.1 1000 10.0.0.2 53 packets 2 bytes 56\nfunction main fw firewall\nend\n",
    ..COUNTED
};

/// A monitor between two firewalls, all three side by side.
pub const BETWEEN: &[u8] =
    b"nfp 1\nchain main\nfn f1 firewall\nrule deny src 10.0.0.9\nfn m monitor\nfn f2 firewall\nrule deny src 10.0.0.1\n";

// What the first firewall drops isn't counted, and what the second drops is.
const COUNTED_BETWEEN: Row<'static> = Row {
    policy: BETWEEN,
    out: NONE,
    report: b"nfp report 1\ndrop 1 main f2\ndrop 2 main f1\ndrop 3 main f2\nrecords 3 emitted 0 dropped 3\nfunction main f1 firewall\nfunction main m monitor\n  flow 17 10.0.0.1 1000 10.0.0.2 53 packets 2 bytes 56\nfunction main f2 firewall\nend\n",
    note: b"done records 3 emitted 0 dropped 3\n",
    ..COUNTED
};

/// A limiter after a firewall, in its branch: its decisions depend on its state.
pub const LIMITED: &[u8] =
    b"nfp 1\nchain main\nfn fw firewall\nrule deny src 10.0.0.9\nfn lim limiter\nset rate 1\nset burst 1000\n";

// It never sees the source of the packet that is dropped.
const LIMITED_BEHIND: Row<'static> = Row {
    policy: LIMITED,
    report: b"nfp report 1\ndrop 2 main fw\nrecords 3 emitted 2 dropped 1\nfunction main fw firewall\nfunction main lim limiter\n  source 10.0.0.1 tokens 944000000000 at 0\nend\n",
    ..COUNTED
};

const BESIDE_AND_BEHIND: &[Row<'static>] = &[
    COUNTED,
    COUNTED_BEHIND,
    COUNTED_BETWEEN,
    LIMITED_BEHIND,
];

#[test]
fn functions_remember_what_comes_to_them(rt: HostRuntime) {
    compare(&rt, BESIDE_AND_BEHIND);
}

const UNSEEN: &[Row<'static>] = &[Row {
    calls: &[RUN],
    graph: b"",
    policy: BESIDE,
    capture: NONE,
    outcome: "Done",
    out: NONE,
    report: b"nfp report 1\nrecords 0 emitted 0 dropped 0\nfunction main mon monitor\nfunction main fw firewall\nend\n",
    note: b"done records 0 emitted 0 dropped 0\n",
}];

#[test]
fn a_function_that_saw_nothing_tells_nothing(rt: HostRuntime) {
    compare(&rt, UNSEEN);
}

const TO_BACKEND: Packet<'static> = Packet::Udp(Datagram {
    checksum: [0x66, 0xc7],
    destination: [10, 9, 0, 1],
    ..FIRST
});

/// A monitor, a firewall and a balancer, in this order.
pub const BALANCED: Row<'static> = Row {
    calls: &[RUN, ONE_BY_ONE],
    graph: b"",
    policy: b"nfp 1\nchain main\nfn m monitor\nfn f firewall\nrule deny src 10.0.0.9\nfn b balancer\nset vip 10.0.0.2\nrule backend 10.9.0.1\nrule backend 10.9.0.2\n",
    capture: THREE,
    outcome: "Done",
    out: Capture {
        head: &HEAD,
        packets: &[TO_BACKEND, TO_BACKEND],
    },
    report: b"nfp report 1\ndrop 2 main f\nrecords 3 emitted 2 dropped 1\ncopies main dst 3\nfunction main m monitor\n  flow 17 10.0.0.1 1000 10.0.0.2 53 packets 2 bytes 56\n  flow 17 10.0.0.9 1000 10.0.0.2 53 packets 1 bytes 28\nfunction main f firewall\nfunction main b balancer\n  flow 17 10.0.0.1 1000 backend 10.9.0.1\nend\n",
    note: b"done records 3 emitted 2 dropped 1\n",
};

// The balancer writes its own copy of the destination, and the monitor beside it sees the one that was read.
#[test]
fn a_balancer_writes_its_own_copy(rt: HostRuntime) {
    compare(&rt, &[BALANCED]);
}

// From the public address, instead of from 10.0.0.1.
const LED_OUT: Packet<'static> = Packet::Udp(Datagram {
    checksum: [0xae, 0xce],
    source: [192, 0, 2, 1],
    source_port: 40000,
    ..FIRST
});

// A firewall beside a signature, and a translation in a stage of its own after them.
const IN_STAGES: Row<'static> = Row {
    calls: &[RUN, ONE_BY_ONE],
    graph: b"",
    policy: b"nfp 1\nchain main\nfn fw firewall\nrule deny src 10.0.0.9\nfn sig signature\nfn n nat\nset inside 10.0.0.0/8\nset public 192.0.2.1\nset ports 40000-40000\n",
    capture: THREE,
    outcome: "Done",
    out: Capture {
        head: &HEAD,
        packets: &[LED_OUT, LED_OUT],
    },
    report: b"nfp report 1\ndrop 2 main fw\nrecords 3 emitted 2 dropped 1\nfunction main fw firewall\nfunction main sig signature\nfunction main n nat\n  map 17 10.0.0.1 1000 port 40000\nend\n",
    note: b"done records 3 emitted 2 dropped 1\n",
};

const ONE_LED_OUT: Row<'static> = Row {
    capture: Capture {
        head: &HEAD,
        packets: &[Packet::From(9), Packet::From(1), Packet::From(9)],
    },
    out: Capture {
        head: &HEAD,
        packets: &[LED_OUT],
    },
    report: b"nfp report 1\ndrop 1 main fw\ndrop 3 main fw\nrecords 3 emitted 1 dropped 2\nfunction main fw firewall\nfunction main sig signature\nfunction main n nat\n  map 17 10.0.0.1 1000 port 40000\nend\n",
    note: b"done records 3 emitted 1 dropped 2\n",
    ..IN_STAGES
};

const STAGES_IN_A_ROW: &[Row<'static>] = &[IN_STAGES, ONE_LED_OUT];

// On one thread the functions of both stages run in a row: once for the packet that is dropped, and once for the one
// that goes out.
#[test]
fn functions_in_a_row_do_what_their_stages_do(rt: HostRuntime) {
    compare(&rt, STAGES_IN_A_ROW);
}

// From outside to the public port of the first source.
const ANSWER: Datagram<'static> = Datagram {
    checksum: [0x8e, 0x97],
    source: [198, 51, 100, 5],
    source_port: 53,
    destination: [192, 0, 2, 1],
    destination_port: 40000,
    ..FIRST
};

const TRANSLATED: &[Row<'static>] = &[Row {
    calls: &[RUN],
    graph: b"",
    policy: b"nfp 1\nchain main\nfn n nat\nset inside 10.0.0.0/8\nset public 192.0.2.1\nset ports 40000-40000\n",
    capture: Capture {
        head: &HEAD,
        packets: &[
            Packet::Udp(FIRST),
            Packet::At(0, 1001),
            Packet::Udp(ANSWER),
            Packet::Udp(Datagram {
                destination_port: 40001,
                ..ANSWER
            }),
        ],
    },
    outcome: "Done",
    out: Capture {
        head: &HEAD,
        packets: &[
            Packet::Udp(Datagram {
                checksum: [0xae, 0xce],
                source: [192, 0, 2, 1],
                source_port: 40000,
                ..FIRST
            }),
            Packet::Udp(Datagram {
                checksum: [0x46, 0x98],
                destination: [10, 0, 0, 1],
                destination_port: 1000,
                ..ANSWER
            }),
        ],
    },
    report: b"nfp report 1\ndrop 2 main n\ndrop 4 main n\nrecords 4 emitted 2 dropped 2\nfunction main n nat\n  map 17 10.0.0.1 1000 port 40000\nend\n",
    note: b"done records 4 emitted 2 dropped 2\n",
}];

// TCP (RFC 793) from 10.0.0.1 to 10.0.0.2, of which only the first byte after the IPv4 header was captured, so that
// there is no port.
const NO_PORTS: Capture<'static> = Capture {
    head: &HEAD,
    packets: &[Packet::Frame(
        &[
            2, 0, 0, 0, 0, 2, 2, 0, 0, 0, 0, 1, 8, 0, 0x45, 0, 0, 40, 0, 0, 0, 0, 64, 6, 0x66,
            0xce, 10, 0, 0, 1, 10, 0, 0, 2, 3,
        ],
        0,
    )],
};

const UNTRANSLATED: &[Row<'static>] = &[Row {
    calls: &[RUN],
    graph: b"",
    policy: b"nfp 1\nchain main\nfn n nat\nset inside 10.0.0.0/8\nset public 192.0.2.1\nset ports 40000-40000\nfn f firewall\nrule deny sport 0-65535\n",
    capture: NO_PORTS,
    outcome: "Done",
    out: NO_PORTS,
    report: b"nfp report 1\nrecords 1 emitted 1 dropped 0\nfunction main n nat\nfunction main f firewall\nend\n",
    note: b"done records 1 emitted 1 dropped 0\n",
}];

// A rule that is met by all ports sees no port of the packet, and the packet takes no public port.
#[test]
fn a_packet_without_ports_is_neither_translated_nor_matched_by_them(rt: HostRuntime) {
    compare(&rt, UNTRANSLATED);
}

// The second packet from inside finds no port left, and a packet to a port that nobody has is dropped.
#[test]
fn a_translation_leads_out_and_back(rt: HostRuntime) {
    compare(&rt, TRANSLATED);
}
