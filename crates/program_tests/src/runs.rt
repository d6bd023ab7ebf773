//! Runs over desks in memory, with captures and expected results written by hand.

use crate::packets::{Capture, HEAD, NONE, NOTHING, Packet, THREE};
use crate::rows::{Failure, RUN, Row, compare, compare_failing};
use crate::states::{BEHIND, BETWEEN, LIMITED};
use nfp_outside::Slot;

/// Denies the host 9.
pub const POLICY: &[u8] = b"nfp 1\nchain main\nfn fw firewall\nrule deny src 10.0.0.9\n";

const FIRST_AND_THIRD: Capture<'static> = Capture {
    head: &HEAD,
    packets: &[Packet::From(1), Packet::From(1)],
};

const FILTERED: Row<'static> = Row {
    calls: &[RUN],
    graph: b"",
    policy: POLICY,
    capture: THREE,
    outcome: "Done",
    out: FIRST_AND_THIRD,
    report: b"nfp report 1\ndrop 2 main fw\nrecords 3 emitted 2 dropped 1\nfunction main fw firewall\nend\n",
    note: b"done records 3 emitted 2 dropped 1\n",
};

// The second function comes before the first in the order, and denies what no rule of its own allows.
const TWO: Row<'static> = Row {
    policy: b"nfp 1\nchain main\nfn a firewall\nrule deny src 10.0.0.1\nfn b firewall\nset default deny\nrule allow proto udp dport 50-60 src 10.0.0.0/30\norder b before a\n",
    out: NONE,
    report: b"nfp report 1\ndrop 1 main a\ndrop 2 main b\ndrop 3 main a\nrecords 3 emitted 0 dropped 3\nfunction main a firewall\nfunction main b firewall\nend\n",
    note: b"done records 3 emitted 0 dropped 3\n",
    ..FILTERED
};

// Either function drops what the other doesn't.
const BESIDE: Row<'static> = Row {
    policy: b"nfp 1\nchain main\nfn f1 firewall\nrule deny src 10.0.0.9\nfn f2 firewall\nrule deny src 10.0.0.0/8\n",
    out: NONE,
    report: b"nfp report 1\ndrop 1 main f2\ndrop 2 main f1\ndrop 3 main f2\nrecords 3 emitted 0 dropped 3\nfunction main f1 firewall\nfunction main f2 firewall\nend\n",
    note: b"done records 3 emitted 0 dropped 3\n",
    ..FILTERED
};

const IN_CHAIN_ORDER: &[Row<'static>] = &[FILTERED, TWO, BESIDE];

#[test]
fn a_capture_goes_through_the_functions_in_chain_order(rt: HostRuntime) {
    compare(&rt, IN_CHAIN_ORDER);
}

/// Each chain is for the packets of one host.
pub const TWO_CHAINS: &[u8] =
    b"nfp 1\nchain one match src 10.0.0.1\nfn open firewall\nchain nine match src 10.0.0.9\nfn shut firewall\nset default deny\n";

const CHAINS: Row<'static> = Row {
    policy: TWO_CHAINS,
    capture: Capture {
        head: &HEAD,
        packets: &[Packet::From(1), Packet::From(9), Packet::From(5)],
    },
    out: Capture {
        head: &HEAD,
        packets: &[Packet::From(1), Packet::From(5)],
    },
    report: b"nfp report 1\ndrop 2 nine shut\nrecords 3 emitted 2 dropped 1\nfunction one open firewall\nfunction nine shut firewall\nend\n",
    ..FILTERED
};

// As many chains as a policy may have.
const SIXTEEN: Row<'static> = Row {
    policy: b"nfp 1\nchain c1 match src 10.0.0.1\nfn f1 firewall\nchain c2 match src 10.0.0.2\nfn f2 firewall\nchain c3 match src 10.0.0.3\nfn f3 firewall\nchain c4 match src 10.0.0.4\nfn f4 firewall\nchain c5 match src 10.0.0.5\nfn f5 firewall\nchain c6 match src 10.0.0.6\nfn f6 firewall\nchain c7 match src 10.0.0.7\nfn f7 firewall\nchain c8 match src 10.0.0.8\nfn f8 firewall\nchain c9 match src 10.0.0.9\nfn f9 firewall\nchain c10 match src 10.0.0.10\nfn f10 firewall\nchain c11 match src 10.0.0.11\nfn f11 firewall\nchain c12 match src 10.0.0.12\nfn f12 firewall\nchain c13 match src 10.0.0.13\nfn f13 firewall\nchain c14 match src 10.0.0.14\nfn f14 firewall\nchain c15 match src 10.0.0.15\nfn f15 firewall\nchain c16 match src 10.0.0.16\nfn f16 firewall\nset default deny\n",
    capture: Capture {
        head: &HEAD,
        packets: &[Packet::From(1), Packet::From(16), Packet::From(17)],
    },
    out: Capture {
        head: &HEAD,
        packets: &[Packet::From(1), Packet::From(17)],
    },
    report: b"nfp report 1\ndrop 2 c16 f16\nrecords 3 emitted 2 dropped 1\nfunction c1 f1 firewall\nfunction c2 f2 firewall\nfunction c3 f3 firewall\nfunction c4 f4 firewall\nfunction c5 f5 firewall\nfunction c6 f6 firewall\nfunction c7 f7 firewall\nfunction c8 f8 firewall\nfunction c9 f9 firewall\nfunction c10 f10 firewall\nfunction c11 f11 firewall\nfunction c12 f12 firewall\nfunction c13 f13 firewall\nfunction c14 f14 firewall\nfunction c15 f15 firewall\nfunction c16 f16 firewall\nend\n",
    ..FILTERED
};

const SEVERAL_CHAINS: &[Row<'static>] = &[CHAINS, SIXTEEN];

// A packet of the first chain, one that the last chain drops, and one that no chain takes, which goes out too.
#[test]
fn each_packet_goes_through_the_chain_that_takes_it(rt: HostRuntime) {
    compare(&rt, SEVERAL_CHAINS);
}

// In nanoseconds, the high byte of each number first.
const BIG: Capture<'static> = Capture {
    head: &[
        0xa1, 0xb2, 0x3c, 0x4d, 0, 2, 0, 4, 0, 0, 0, 0, 0, 0, 0, 0, 0, 0, 0xff, 0xff, 0, 0, 0, 1,
    ],
    packets: &[],
};

const CARRIED: &[Row<'static>] = &[Row {
    capture: BIG,
    out: BIG,
    report: b"nfp report 1\nrecords 0 emitted 0 dropped 0\nfunction main fw firewall\nend\n",
    note: b"done records 0 emitted 0 dropped 0\n",
    ..FILTERED
}];

#[test]
fn each_order_and_unit_is_carried(rt: HostRuntime) {
    compare(&rt, CARRIED);
}

const PLANNED: Row<'static> = Row {
    calls: &[&["plan", "p"]],
    graph: b"",
    policy: b"nfp 1\nchain main\nfn sig signature\nfn fw firewall\npriority sig > fw\nchain rest match proto tcp\n",
    capture: NOTHING,
    outcome: "Done",
    out: NOTHING,
    report: b"",
    note: b"chain main\norder fw sig\nstage 1\nbranch 1 fw\nbranch 2 sig\npart tag shared\npart src shared\npart dst shared\npart sport shared\npart dport shared\npart payload shared\nchain rest\norder\n",
};

const COPYING: Row<'static> = Row {
    policy: b"nfp 1\nchain main\nfn m monitor\nfn f firewall\nfn b balancer\nset vip 10.0.0.2\nrule backend 10.9.0.1\n",
    note: b"chain main\norder m f b\nstage 1\nbranch 1 m\nbranch 2 f b\npart tag shared\npart src shared\npart dst copied 1\npart sport shared\npart dport shared\n",
    ..PLANNED
};

const MOVING: Row<'static> = Row {
    policy: b"nfp 1\nchain main\nfn n nat\nset inside 10.0.0.0/8\nset public 192.0.2.1\nset ports 40000-40000\nfn fw firewall\nfn sig signature\nposition n last\n",
    note: b"chain main\norder fw sig n\nstage 1\nbranch 1 fw\nbranch 2 sig\npart tag shared\npart src shared\npart dst shared\npart sport shared\npart dport shared\npart payload shared\nstage 2\nbranch 1 n\npart src moved 1\npart dst moved 1\npart sport moved 1\npart dport moved 1\n",
    ..PLANNED
};

// A monitor that comes after a function that drops is beside it in the graph.
const COUNTING: Row<'static> = Row {
    policy: BEHIND,
    note: b"chain main\norder fw mon\nstage 1\nbranch 1 fw\nbranch 2 mon\npart tag shared\npart src shared\npart dst shared\npart sport shared\npart dport shared\n",
    ..PLANNED
};

const COUNTING_BETWEEN: Row<'static> = Row {
    policy: BETWEEN,
    note: b"chain main\norder f1 m f2\nstage 1\nbranch 1 f1\nbranch 2 m\nbranch 3 f2\npart tag shared\npart src shared\npart dst shared\npart sport shared\npart dport shared\n",
    ..PLANNED
};

// A limiter isn't.
const LIMITING: Row<'static> = Row {
    policy: LIMITED,
    note: b"chain main\norder fw lim\nstage 1\nbranch 1 fw lim\npart tag shared\npart src shared\npart dst shared\npart sport shared\npart dport shared\n",
    ..PLANNED
};

const PLANS: &[Row<'static>] = &[
    PLANNED,
    COPYING,
    MOVING,
    COUNTING,
    COUNTING_BETWEEN,
    LIMITING,
];

// Each chain in its order, and for each stage what is shared, copied and moved.
#[test]
fn a_plan_shows_each_chain_in_order(rt: HostRuntime) {
    compare(&rt, PLANS);
}

const NO_COMMAND: Row<'static> = Row {
    calls: &[&[]],
    graph: b"",
    policy: POLICY,
    capture: THREE,
    outcome: "Usage(NoCommand)",
    out: NOTHING,
    report: b"",
    note: b"usage: no command\n",
};

const REFUSED_WORDS: &[Row<'static>] = &[
    NO_COMMAND,
    Row {
        calls: &[&["walk", "p"]],
        outcome: "Usage(UnknownCommand)",
        note: b"usage: unknown command\n",
        ..NO_COMMAND
    },
    Row {
        calls: &[&["run", "p", "c", "o"], &["plan", "-p"]],
        outcome: "Usage(Words)",
        note: b"usage: words\n",
        ..NO_COMMAND
    },
    Row {
        calls: &[&["run", "p", "c", "o", "r", "--burst", "65537"]],
        outcome: "Usage(Number(Burst))",
        note: b"usage: number burst\n",
        ..NO_COMMAND
    },
    Row {
        calls: &[&["demo", "x", "0"]],
        outcome: "Usage(Number(Seed))",
        note: b"usage: number seed\n",
        ..NO_COMMAND
    },
    Row {
        calls: &[&["run", "p", "c", "o", "r", "--merge", "zip"]],
        outcome: "Usage(Merge)",
        note: b"usage: merge\n",
        ..NO_COMMAND
    },
    Row {
        calls: &[&["run", "p", "c", "c", "r"]],
        outcome: "Usage(SameName)",
        note: b"usage: same name\n",
        ..NO_COMMAND
    },
];

#[test]
fn words_that_are_no_command_are_told(rt: HostRuntime) {
    compare(&rt, REFUSED_WORDS);
}

const NO_VERSION: Row<'static> = Row {
    calls: &[RUN],
    graph: b"",
    policy: b"",
    capture: THREE,
    outcome: "Policy(Text(BadVersionLine))",
    out: NOTHING,
    report: b"",
    note: b"policy: bad version line\n",
};

// The faults of policies, in the order of the checks.
const REFUSED_POLICIES: &[Row<'static>] = &[
    NO_VERSION,
    Row {
        policy: b"nfp 1\nchain main\nfn mon monitor\nfn fw firewall\nposition mon\n",
        outcome: "Policy(Text(Syntax(5, 13)))",
        note: b"policy: line 5 column 13: syntax\n",
        ..NO_VERSION
    },
    Row {
        policy: b"\xff",
        outcome: "Policy(Text(NotUtf8(0)))",
        note: b"policy: not utf-8 at 0\n",
        ..NO_VERSION
    },
    Row {
        policy: b"nfp 1\nchain a\nfn f firewall\nrule pass\nfn g gate\n",
        outcome: "Policy(Text(UnknownKind(5)))",
        note: b"policy: line 5: unknown kind\n",
        ..NO_VERSION
    },
    Row {
        policy: b"nfp 1\nchain a\nfn f firewall\nrule pass\norder f before f\n",
        outcome: "Policy(BadSetting(4))",
        note: b"policy: line 4: bad setting\n",
        ..NO_VERSION
    },
    Row {
        policy: b"nfp 1\nchain main\nfn n nat\nset inside 10.0.0.0/8\nset ports 40000-40000\n",
        outcome: "Policy(BadSetting(3))",
        note: b"policy: line 3: bad setting\n",
        ..NO_VERSION
    },
    Row {
        policy: b"nfp 1\nchain main\nfn a monitor\nfn b monitor\norder a before b\npriority a > b\n",
        outcome: "Policy(Check { chain: 0, fault: Cycle(Items { items: [0, 1] }) })",
        note: b"policy: cycle a b\n",
        ..NO_VERSION
    },
    Row {
        policy: b"nfp 1\nchain a\nfn m monitor\nfn l monitor\norder m before l\norder l before m\nchain b\nfn n hop\nfn o hop\npriority o > n\n",
        outcome: "Policy(Check { chain: 0, fault: Cycle(Items { items: [0, 1] }) })",
        note: b"policy: cycle m l\n",
        ..NO_VERSION
    },
    Row {
        policy: b"nfp 1\nchain b\nfn o hop\nfn n hop\npriority o > n\n",
        outcome: "Policy(Check { chain: 0, fault: PriorityForbidden { high: 0, low: 1, line: 5, first: Write(Ttl), second: Read(Ttl) } })",
        note: b"policy: line 5: priority o over n forbidden: write ttl before read ttl\n",
        ..NO_VERSION
    },
    Row {
        policy: b"nfp 1\nchain main\nfn mon monitor\nfn n nat\nset inside 10.0.0.0/8\nset public 192.0.2.1\nset ports 40000-40009\npriority mon > n\n",
        outcome: "Policy(Check { chain: 0, fault: PriorityForbidden { high: 0, low: 1, line: 8, first: Write(SrcIp), second: Read(SrcIp) } })",
        note: b"policy: line 8: priority mon over n forbidden: write src before read src\n",
        ..NO_VERSION
    },
];

#[test]
fn a_policy_is_refused_for_its_first_fault(rt: HostRuntime) {
    compare(&rt, REFUSED_POLICIES);
}

const SETTING_3: Row<'static> = Row {
    outcome: "Policy(BadSetting(3))",
    note: b"policy: line 3: bad setting\n",
    ..NO_VERSION
};

const SETTING_4: Row<'static> = Row {
    outcome: "Policy(BadSetting(4))",
    note: b"policy: line 4: bad setting\n",
    ..NO_VERSION
};

const SETTING_5: Row<'static> = Row {
    outcome: "Policy(BadSetting(5))",
    note: b"policy: line 5: bad setting\n",
    ..NO_VERSION
};

// The least of the refused lines is reported. A required line that is missing, or that can't be read, is reported by
// the line of its function.
const REFUSED_LINES: &[Row<'static>] = &[
    Row {
        policy: b"nfp 1\nchain c\nfn f firewall\nset default deny\nset default deny\n",
        ..SETTING_5
    },
    Row {
        policy: b"nfp 1\nchain c\nfn f firewall\nset size 1\nrule allow src\n",
        ..SETTING_4
    },
    Row {
        policy: b"nfp 1\nchain a\nfn f firewall\nset default maybe\nfn g firewall\nrule deny src 10.0.0.256\norder f before g\norder g before f\n",
        ..SETTING_4
    },
    Row {
        policy: b"nfp 1\nchain c\nfn n nat\nset inside 10.0.0.0/8\nset public 192.0.2.1\nset ports 80\n",
        ..SETTING_3
    },
    Row {
        policy: b"nfp 1\nchain c\nfn n nat\nset inside 10.0.0.0/8\nset public 192.0.2.1\nset ports 1-2\nset ports 1-2\n",
        outcome: "Policy(BadSetting(7))",
        note: b"policy: line 7: bad setting\n",
        ..NO_VERSION
    },
    Row {
        policy: b"nfp 1\nchain c\nfn b balancer\nset vip 10.0.0.2\n",
        ..SETTING_3
    },
    Row {
        policy: b"nfp 1\nchain c\nfn b balancer\nrule backend 10.9.0.1\nrule 10.9.0.2\nset vip 10.0.0.2\n",
        ..SETTING_5
    },
    Row {
        policy: b"nfp 1\nchain c\nfn m monitor\nset default allow\n",
        ..SETTING_4
    },
    Row {
        policy: b"nfp 1\nchain c\nfn l limiter\nset rate 0\nset burst 28\n",
        ..SETTING_3
    },
    Row {
        policy: b"nfp 1\nchain c\nfn l limiter\nset rate 14\nset burst 28\nset size 1\nset rate 14\n",
        outcome: "Policy(BadSetting(6))",
        note: b"policy: line 6: bad setting\n",
        ..NO_VERSION
    },
];

#[test]
fn the_least_refused_line_is_told(rt: HostRuntime) {
    compare(&rt, REFUSED_LINES);
}

// The capture of three records, cut inside the last: two pass, and the report has the reason of the end.
const CUT: &[Row<'static>] = &[Row {
    capture: Capture {
        head: &HEAD,
        packets: &[
            Packet::From(1),
            Packet::From(9),
            Packet::Cut(&[
                0, 0, 0, 0, 0, 0, 0, 0, 42, 0, 0, 0, 42, 0, 0, 0, 2, 0, 0, 0, 0, 2, 2, 0, 0, 0, 0,
                1, 8, 0,
            ]),
        ],
    },
    outcome: "Capture(CutRecord(3))",
    out: Capture {
        head: &HEAD,
        packets: &[Packet::From(1)],
    },
    report: b"nfp report 1\ndrop 2 main fw\nrecords 2 emitted 1 dropped 1\nfunction main fw firewall\nfault capture: cut record 3\n",
    note: b"capture: cut record 3\n",
    ..FILTERED
}];

#[test]
fn a_cut_capture_is_done_up_to_its_fault(rt: HostRuntime) {
    compare(&rt, CUT);
}

const POLICY_FAILS: Failure<'static> = Failure {
    calls: &[RUN],
    policy: POLICY,
    capture: THREE,
    fails: (Slot::Policy, 0),
    outcome: "ReadFault(Policy)",
    out: NOTHING,
    note: b"read fault: policy\n",
};

const OUT_FAILS: Failure<'static> = Failure {
    fails: (Slot::Out, 4),
    outcome: "WriteFault(Out)",
    out: Capture {
        head: &HEAD,
        packets: &[Packet::From(1)],
    },
    note: b"write fault: out\n",
    ..POLICY_FAILS
};

const REPORT_FAILS: Failure<'static> = Failure {
    fails: (Slot::Report, 2),
    outcome: "WriteFault(Report)",
    out: FIRST_AND_THIRD,
    note: b"write fault: report\n",
    ..POLICY_FAILS
};

const NOTE_FAILS: Failure<'static> = Failure {
    fails: (Slot::Note, 0),
    outcome: "WriteFault(Note)",
    out: FIRST_AND_THIRD,
    note: b"",
    ..POLICY_FAILS
};

const FAILURES: &[Failure<'static>] = &[POLICY_FAILS, OUT_FAILS, REPORT_FAILS, NOTE_FAILS];

// For each call that fails the outcome is the fault of its own slot, and what was written before stays. If the line of
// a drop can't be put, the packets of its burst are in Out.
#[test]
fn failures_are_told_by_their_slot(rt: HostRuntime) {
    compare_failing(&rt, FAILURES);
}
