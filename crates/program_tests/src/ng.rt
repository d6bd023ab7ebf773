//! Runs over pcapng captures (draft-ietf-opsawg-pcapng): what passes is written block by block, and a fault ends them.

use crate::packets::{Capture, NOTHING, Packet};
use crate::rows::{Row, WAYS, compare};
use crate::runs::POLICY;

// A little-endian section header without the section's length, and an interface for Ethernet with snaplen 65535.
const HEAD_BLOCKS: [u8; 48] = [
    0x0a, 0x0d, 0x0d, 0x0a, 28, 0, 0, 0, 0x4d, 0x3c, 0x2b, 0x1a, 1, 0, 0, 0, 255, 255, 255, 255,
    255, 255, 255, 255, 28, 0, 0, 0, //
    1, 0, 0, 0, 20, 0, 0, 0, 1, 0, 0, 0, 255, 255, 0, 0, 20, 0, 0, 0,
];

// The same, with a snaplen of 65539.
const GROWN_BLOCKS: [u8; 48] = [
    0x0a, 0x0d, 0x0d, 0x0a, 28, 0, 0, 0, 0x4d, 0x3c, 0x2b, 0x1a, 1, 0, 0, 0, 255, 255, 255, 255,
    255, 255, 255, 255, 28, 0, 0, 0, //
    1, 0, 0, 0, 20, 0, 0, 0, 1, 0, 0, 0, 3, 0, 1, 0, 20, 0, 0, 0,
];

// A UDP packet from 10.0.0.1 to 10.0.0.2.
const FIRST_BLOCK: [u8; 76] = [
    6, 0, 0, 0, 76, 0, 0, 0, 0, 0, 0, 0, 0, 0, 0, 0, 0, 0, 0, 0, 42, 0, 0, 0, 42, 0, 0, 0, //
    2, 0, 0, 0, 0, 2, 2, 0, 0, 0, 0, 1, 8, 0, 0x45, 0, 0, 28, 0, 0, 0, 0, 64, 17, 0x66, 0xcf, 10,
    0, 0, 1, 10, 0, 0, 2, 3, 0xe8, 0, 53, 0, 8, 0, 0, //
    0, 0, 76, 0, 0, 0,
];

// The same from 10.0.0.9.
const NINTH_BLOCK: [u8; 76] = [
    6, 0, 0, 0, 76, 0, 0, 0, 0, 0, 0, 0, 0, 0, 0, 0, 0, 0, 0, 0, 42, 0, 0, 0, 42, 0, 0, 0, //
    2, 0, 0, 0, 0, 2, 2, 0, 0, 0, 0, 1, 8, 0, 0x45, 0, 0, 28, 0, 0, 0, 0, 64, 17, 0x66, 0xc7, 10,
    0, 0, 9, 10, 0, 0, 2, 3, 0xe8, 0, 53, 0, 8, 0, 0, //
    0, 0, 76, 0, 0, 0,
];

// The first of them with the VLAN id 7.
const TAGGED_BLOCK: [u8; 80] = [
    6, 0, 0, 0, 80, 0, 0, 0, 0, 0, 0, 0, 0, 0, 0, 0, 0, 0, 0, 0, 46, 0, 0, 0, 46, 0, 0, 0, //
    2, 0, 0, 0, 0, 2, 2, 0, 0, 0, 0, 1, 0x81, 0, 0, 7, 8, 0, 0x45, 0, 0, 28, 0, 0, 0, 0, 64, 17,
    0x66, 0xcf, 10, 0, 0, 1, 10, 0, 0, 2, 3, 0xe8, 0, 53, 0, 8, 0, 0, //
    0, 0, 80, 0, 0, 0,
];

// The same, with the high byte of each number first.
const BIG_BLOCK: [u8; 76] = [
    0, 0, 0, 6, 0, 0, 0, 76, 0, 0, 0, 0, 0, 0, 0, 0, 0, 0, 0, 0, 0, 0, 0, 42, 0, 0, 0, 42, //
    2, 0, 0, 0, 0, 2, 2, 0, 0, 0, 0, 1, 8, 0, 0x45, 0, 0, 28, 0, 0, 0, 0, 64, 17, 0x66, 0xcf, 10,
    0, 0, 1, 10, 0, 0, 2, 3, 0xe8, 0, 53, 0, 8, 0, 0, //
    0, 0, 0, 0, 0, 76,
];

// A section whose length is stated.
const TOLD_SECTION: [u8; 28] = [
    0x0a, 0x0d, 0x0d, 0x0a, 28, 0, 0, 0, 0x4d, 0x3c, 0x2b, 0x1a, 1, 0, 0, 0, 112, 0, 0, 0, 0, 0, 0,
    0, 28, 0, 0, 0,
];

const INTERFACE: [u8; 20] = [
    1, 0, 0, 0, 20, 0, 0, 0, 1, 0, 0, 0, 255, 255, 0, 0, 20, 0, 0, 0,
];

// Statistics of an interface, which are passed on unchanged.
const STATISTICS: [u8; 16] = [5, 0, 0, 0, 16, 0, 0, 0, 1, 2, 3, 4, 16, 0, 0, 0];

// The high byte of each number first: a section whose length is stated, an interface in nanoseconds without a snaplen.
const BIG_TOLD_SECTION: [u8; 28] = [
    0x0a, 0x0d, 0x0d, 0x0a, 0, 0, 0, 28, 0x1a, 0x2b, 0x3c, 0x4d, 0, 1, 0, 0, 0, 0, 0, 0, 0, 0, 0,
    108, 0, 0, 0, 28,
];

const BIG_INTERFACE: [u8; 32] = [
    0, 0, 0, 1, 0, 0, 0, 32, 0, 1, 0, 0, 0, 0, 0, 0, 0, 9, 0, 1, 9, 0, 0, 0, 0, 0, 0, 0, 0, 0, 0,
    32,
];

// The same sections without their lengths.
const SECTION: [u8; 28] = [
    0x0a, 0x0d, 0x0d, 0x0a, 28, 0, 0, 0, 0x4d, 0x3c, 0x2b, 0x1a, 1, 0, 0, 0, 255, 255, 255, 255,
    255, 255, 255, 255, 28, 0, 0, 0,
];

const BIG_SECTION: [u8; 28] = [
    0x0a, 0x0d, 0x0d, 0x0a, 0, 0, 0, 28, 0x1a, 0x2b, 0x3c, 0x4d, 0, 1, 0, 0, 255, 255, 255, 255,
    255, 255, 255, 255, 0, 0, 0, 28,
];

const BLOCKS: Capture<'static> = Capture {
    head: &HEAD_BLOCKS,
    packets: &[Packet::Cut(&FIRST_BLOCK)],
};

const ONLY_HEADS: Capture<'static> = Capture {
    head: &HEAD_BLOCKS,
    packets: &[],
};

const PASSED: Row<'static> = Row {
    calls: WAYS,
    graph: b"",
    policy: b"nfp 1\n",
    capture: BLOCKS,
    outcome: "Done",
    out: BLOCKS,
    report: b"nfp report 1\nrecords 1 emitted 1 dropped 0\nend\n",
    note: b"done records 1 emitted 1 dropped 0\n",
};

// Only the heads are left of a capture whose one packet is dropped.
const DROPPED: Row<'static> = Row {
    policy: POLICY,
    capture: Capture {
        head: &HEAD_BLOCKS,
        packets: &[Packet::Cut(&NINTH_BLOCK)],
    },
    out: ONLY_HEADS,
    report: b"nfp report 1\ndrop 1 main fw\nrecords 1 emitted 0 dropped 1\nfunction main fw firewall\nend\n",
    note: b"done records 1 emitted 0 dropped 1\n",
    ..PASSED
};

// The frame and both its lengths grow by a tag, and so does the snaplen.
const TAGGED: Row<'static> = Row {
    policy: b"nfp 1\nchain main\nfn t tagger\nrule vid 7 pcp 0\n",
    out: Capture {
        head: &GROWN_BLOCKS,
        packets: &[Packet::Cut(&TAGGED_BLOCK)],
    },
    report: b"nfp report 1\nrecords 1 emitted 1 dropped 0\nfunction main t tagger\nend\n",
    ..PASSED
};

// Each section has an order and interfaces of its own, and blocks between packets stay between them. The dropped packet
// is left out, and therefore the lengths of the sections aren't stated.
const SECTIONS: Row<'static> = Row {
    policy: POLICY,
    capture: Capture {
        head: &TOLD_SECTION,
        packets: &[
            Packet::Cut(&INTERFACE),
            Packet::Cut(&NINTH_BLOCK),
            Packet::Cut(&STATISTICS),
            Packet::Cut(&BIG_TOLD_SECTION),
            Packet::Cut(&BIG_INTERFACE),
            Packet::Cut(&BIG_BLOCK),
        ],
    },
    out: Capture {
        head: &SECTION,
        packets: &[
            Packet::Cut(&INTERFACE),
            Packet::Cut(&STATISTICS),
            Packet::Cut(&BIG_SECTION),
            Packet::Cut(&BIG_INTERFACE),
            Packet::Cut(&BIG_BLOCK),
        ],
    },
    report: b"nfp report 1\ndrop 1 main fw\nrecords 2 emitted 1 dropped 1\nfunction main fw firewall\nend\n",
    note: b"done records 2 emitted 1 dropped 1\n",
    ..PASSED
};

const RUNS: &[Row<'static>] = &[PASSED, DROPPED, TAGGED, SECTIONS];

#[test]
fn blocks_go_through_chains(rt: HostRuntime) {
    compare(&rt, RUNS);
}

// The capture of one packet, cut inside it.
const CUT_PACKET: Row<'static> = Row {
    policy: b"nfp 1\nchain main\nfn t tagger\nrule vid 7 pcp 0\n",
    capture: Capture {
        head: &HEAD_BLOCKS,
        packets: &[Packet::Cut(&[
            6, 0, 0, 0, 76, 0, 0, 0, 0, 0, 0, 0, 0, 0, 0, 0, 0, 0, 0, 0, 42, 0, 0, 0, 42, 0, 0, 0,
            2, 0, 0, 0, 0, 2, 2, 0, 0, 0, 0, 1, 8, 0, 0x45, 0, 0, 28, 0, 0, 0, 0, 64, 17,
        ])],
    },
    outcome: "CaptureNg(CutBlock(3))",
    out: Capture {
        head: &GROWN_BLOCKS,
        packets: &[],
    },
    report: b"nfp report 1\nrecords 0 emitted 0 dropped 0\nfunction main t tagger\nfault capture: cut block 3\n",
    note: b"capture: cut block 3\n",
    ..PASSED
};

// Three packets, cut inside the last: two pass, and the report has the reason of the end.
const CUT: Row<'static> = Row {
    policy: b"nfp 1\nchain main\nfn mon monitor\nfn fw firewall\nrule deny src 10.0.0.9\norder mon before fw\n",
    capture: Capture {
        head: &HEAD_BLOCKS,
        packets: &[
            Packet::Cut(&FIRST_BLOCK),
            Packet::Cut(&NINTH_BLOCK),
            Packet::Cut(&[
                6, 0, 0, 0, 76, 0, 0, 0, 0, 0, 0, 0, 0, 0, 0, 0, 0, 0, 0, 0, 42, 0, 0, 0, 42, 0, 0,
                0, 2, 0,
            ]),
        ],
    },
    outcome: "CaptureNg(CutBlock(5))",
    out: BLOCKS,
    report: b"nfp report 1\ndrop 2 main fw\nrecords 2 emitted 1 dropped 1\nfunction main mon monitor\n  flow 17 10.0.0.1 1000 10.0.0.2 53 packets 1 bytes 28\n  flow 17 10.0.0.9 1000 10.0.0.2 53 packets 1 bytes 28\nfunction main fw firewall\nfault capture: cut block 5\n",
    note: b"capture: cut block 5\n",
    ..PASSED
};

const BAD_LINK: Row<'static> = Row {
    capture: Capture {
        head: &TOLD_SECTION,
        packets: &[Packet::Cut(&[
            1, 0, 0, 0, 20, 0, 0, 0, 101, 0, 0, 0, 255, 255, 0, 0, 20, 0, 0, 0,
        ])],
    },
    outcome: "CaptureNg(BadLink(101))",
    out: Capture {
        head: &SECTION,
        packets: &[],
    },
    report: b"nfp report 1\nrecords 0 emitted 0 dropped 0\nfault capture: bad link 101\n",
    note: b"capture: bad link 101\n",
    ..PASSED
};

// The second section has no interface, whatever the first has.
const NO_INTERFACE: Row<'static> = Row {
    capture: Capture {
        head: &HEAD_BLOCKS,
        packets: &[Packet::Cut(&TOLD_SECTION), Packet::Cut(&FIRST_BLOCK)],
    },
    outcome: "CaptureNg(NoInterface(4))",
    out: Capture {
        head: &HEAD_BLOCKS,
        packets: &[Packet::Cut(&SECTION)],
    },
    report: b"nfp report 1\nrecords 0 emitted 0 dropped 0\nfault capture: no interface 4\n",
    note: b"capture: no interface 4\n",
    ..PASSED
};

const FAULTS: &[Row<'static>] = &[CUT_PACKET, CUT, BAD_LINK, NO_INTERFACE];

#[test]
fn a_fault_of_a_block_ends_a_capture(rt: HostRuntime) {
    compare(&rt, FAULTS);
}

const CUT_FIRST: Row<'static> = Row {
    capture: Capture {
        head: &[0x0a, 0x0d, 0x0d, 0x0a],
        packets: &[],
    },
    outcome: "CaptureNg(CutBlock(1))",
    out: NOTHING,
    report: b"",
    note: b"capture: cut block 1\n",
    ..PASSED
};

// A length in the other byte order.
const LONG_FIRST: Row<'static> = Row {
    capture: Capture {
        head: &[
            0x0a, 0x0d, 0x0d, 0x0a, 28, 0, 0, 0, 0x1a, 0x2b, 0x3c, 0x4d, 0, 1, 0, 0, 255, 255, 255,
            255, 255, 255, 255, 255, 28, 0, 0, 0,
        ],
        packets: &[],
    },
    outcome: "CaptureNg(BlockTooLong(1, 469762048))",
    note: b"capture: block too long 1 469762048\n",
    ..CUT_FIRST
};

// A major version of 2.
const BAD_FIRST: Row<'static> = Row {
    capture: Capture {
        head: &[
            0x0a, 0x0d, 0x0d, 0x0a, 28, 0, 0, 0, 0x4d, 0x3c, 0x2b, 0x1a, 2, 0, 0, 0, 255, 255, 255,
            255, 255, 255, 255, 255, 28, 0, 0, 0,
        ],
        packets: &[],
    },
    outcome: "CaptureNg(BadBlock(1))",
    note: b"capture: bad block 1\n",
    ..CUT_FIRST
};

// A block without any byte isn't a block.
const NO_BYTE: Row<'static> = Row {
    capture: NOTHING,
    outcome: "Capture(CutHead)",
    note: b"capture: cut head\n",
    ..CUT_FIRST
};

const REFUSED: &[Row<'static>] = &[CUT_FIRST, LONG_FIRST, BAD_FIRST, NO_BYTE];

#[test]
fn a_fault_of_the_first_block_leaves_nothing(rt: HostRuntime) {
    compare(&rt, REFUSED);
}
