//! Gates that observe the steps of a run: no clause is about them, since a gate's call may wait.

use crate::packets::{Capture, HEAD, Packet, THREE};
use crate::plenty::had;
use crate::rows::{Given, RUN, Words, run};
use crate::runs::TWO_CHAINS;
use crate::states::{BEHIND, BESIDE, LIMITED};
use nfp_outside::{Gate, MemDesk, Slot};
use nfp_run::Outcome;
use std::alloc::Global;
use std::process::Abort;
use std::rt::Clock;
use std::sync::Wait;
use std::sync::atomic::Ordering::SeqCst;
use std::sync::atomic::{AtomicBool, AtomicU64};
use std::thread;
use std::thread::Threads;

// The number of polls of a step that waits for another. Between two polls it lets another thread run.
const TURNS: u32 = 10_000_000;

// A firewall beside a signature, and a translation in a stage of its own after them.
const STAGES: &[u8] =
    b"nfp 1\nchain main\nfn fw firewall\nfn sig signature\nfn n nat\nset inside 10.0.0.0/8\nset public 192.0.2.1\nset ports 40000-40000\n";

// Two packets, the second from port 1001.
const TWO_FLOWS: Capture<'static> = Capture {
    head: &HEAD,
    packets: &[Packet::From(1), Packet::At(0, 1001)],
};

// Over links, and on boards.
const WAYS: [Words<'static>; 2] = [
    &["run", "p", "c", "o", "r", "--merge", "inbox"],
    &["run", "p", "c", "o", "r", "--merge", "board"],
];

/// A step: the position of the function in its chain, and the number of the record.
type Step = (u32, u32);

/// Counts the steps, adds up their arguments, and holds each of two steps until the other has come.
#[derive(Drop)]
pub struct Watch {
    first: Step,
    second: Step,
    first_came: AtomicBool,
    second_came: AtomicBool,
    missed: AtomicBool,
    passes: AtomicU64,
    chains: AtomicU64,
    positions: AtomicU64,
    numbers: AtomicU64,
}

impl Gate for Watch {
    fn pass<R: Wait>(&self, _rt: &R, chain: u32, position: u32, number: u32) {
        self.count(chain, position, number);
        if (position, number) == self.first {
            self.meet(&self.first_came, &self.second_came);
        }
        if (position, number) == self.second {
            self.meet(&self.second_came, &self.first_came);
        }
    }
}

impl Watch {
    /// A gate that holds no step: positions and numbers are counted from 1.
    pub fn idle() -> Watch {
        Watch::over((0, 0), (0, 0))
    }

    fn over(first: Step, second: Step) -> Watch {
        Watch {
            first,
            second,
            first_came: AtomicBool::new(false),
            second_came: AtomicBool::new(false),
            missed: AtomicBool::new(false),
            passes: AtomicU64::new(0),
            chains: AtomicU64::new(0),
            positions: AtomicU64::new(0),
            numbers: AtomicU64::new(0),
        }
    }

    fn count(&self, chain: u32, position: u32, number: u32) {
        self.passes.fetch_add(1, SeqCst);
        self.chains.fetch_add(u64::from(chain), SeqCst);
        self.positions.fetch_add(u64::from(position), SeqCst);
        self.numbers.fetch_add(u64::from(number), SeqCst);
    }

    fn meet(&self, own: &AtomicBool, other: &AtomicBool) {
        own.store(true, SeqCst);
        for _turn in 0..TURNS {
            if other.load(SeqCst) {
                return;
            }
            thread::yield_now();
        }
        self.missed.store(true, SeqCst);
    }

    fn sums(&self) -> [u64; 4] {
        [
            self.passes.load(SeqCst),
            self.chains.load(SeqCst),
            self.positions.load(SeqCst),
            self.numbers.load(SeqCst),
        ]
    }
}

// A run over a policy, whose steps pass this gate.
fn watched(
    rt: &(impl Abort + AllocGlobal + Threads + Wait + Clock + Sync),
    call: Words<'_>,
    policy: &[u8],
    capture: Vec<u8>,
    watch: &Watch,
) -> MemDesk {
    let given = Given {
        policy,
        graph: b"",
        step: 4096,
        fails: &[],
    };
    let (outcome, desk) = run(rt, call, given, capture, watch);
    assert!(rt; matches!(outcome, Outcome::Done));
    desk
}

// Runs a policy over a capture, in each way of merging. Two steps have to meet.
fn meet(
    rt: &(impl Abort + AllocGlobal + Threads + Wait + Clock + Sync),
    policy: &[u8],
    capture: Capture<'_>,
    first: Step,
    second: Step,
) {
    for way in WAYS {
        let watch = Watch::over(first, second);
        let bytes = capture.bytes(rt, rt.alloc());
        watched(rt, way, policy, bytes, &watch);
        assert!(rt; !watch.missed.load(SeqCst));
    }
}

// The monitor and the firewall of one stage, both on the first packet.
#[test]
fn gate_side_by_side(rt: HostRuntime) {
    meet(&rt, BESIDE, THREE, (1, 1), (2, 1));
}

// The firewall of the first stage on the second packet, while the translation of the second stage is at the first.
#[test]
fn gate_pipelined(rt: HostRuntime) {
    meet(&rt, STAGES, TWO_FLOWS, (1, 2), (3, 1));
}

// The firewall of the first stage on both packets: it keeps no state, so each of the two mergers has a node of it.
#[test]
fn gate_replicas(rt: HostRuntime) {
    meet(&rt, STAGES, TWO_FLOWS, (1, 1), (1, 2));
}

const COUNTED_CALLS: [Words<'static>; 3] = [
    &[
        "run",
        "p",
        "c",
        "o",
        "r",
        "--mergers",
        "1",
        "--burst",
        "1",
        "--merge",
        "board",
    ],
    &[
        "run",
        "p",
        "c",
        "o",
        "r",
        "--mergers",
        "2",
        "--burst",
        "1024",
        "--merge",
        "inbox",
    ],
    &[
        "run",
        "p",
        "c",
        "o",
        "r",
        "--mergers",
        "16",
        "--burst",
        "2",
        "--merge",
        "board",
    ],
];

// Compares the sums over the steps of a run.
fn count_call(
    rt: &(impl Abort + AllocGlobal + Threads + Wait + Clock + Sync),
    call: Words<'_>,
    policy: &[u8],
    sums: [u64; 4],
) {
    let watch = Watch::idle();
    let bytes = THREE.bytes(rt, rt.alloc());
    watched(rt, call, policy, bytes, &watch);
    assert_eq!(rt; watch.sums(), sums);
}

// The same for runs with options.
fn count_steps(
    rt: &(impl Abort + AllocGlobal + Threads + Wait + Clock + Sync),
    policy: &[u8],
    sums: [u64; 4],
) {
    for call in COUNTED_CALLS {
        count_call(rt, call, policy, sums);
    }
}

// A monitor before a firewall sees all three packets, and a limiter after it the two that pass. Each of two chains sees
// only its own packets.
#[test]
fn each_step_of_the_walk_passes_the_gate_once(rt: HostRuntime) {
    count_steps(&rt, BESIDE, [6, 0, 9, 12]);
    count_steps(&rt, LIMITED, [5, 0, 7, 10]);
    count_steps(&rt, TWO_CHAINS, [3, 1, 3, 6]);
}

// A monitor after a firewall, but beside it in the graph, also looks at the packet that the firewall drops and that
// isn't counted.
#[test]
fn each_look_passes_the_gate_once(rt: HostRuntime) {
    count_call(&rt, RUN, BEHIND, [6, 0, 9, 12]);
}

const COUNTED_IN_TURN: &[u8] =
    b"records 2200 emitted 1100 dropped 1100\nfunction main mon monitor\n  flow 17 10.0.0.1 1000 10.0.0.2 53 packets 1100 bytes 30800\n  flow 17 10.0.0.9 1000 10.0.0.2 53 packets 1100 bytes 30800\nfunction main fw firewall\nend\n";

const LONG_NOTE: &[u8] = b"done records 2200 emitted 1100 dropped 1100\n";

const LONG_CALLS: [Words<'static>; 2] = [
    &["run", "p", "c", "o", "r", "--burst", "65536"],
    &["run", "p", "c", "o", "r", "--mergers", "16"],
];

// `pairs` packets of each of the hosts 1 and 9, in turn.
fn in_turn(rt: &impl Abort, alloc: Global, pairs: u32) -> Vec<u8> {
    let pair = Capture {
        head: &[],
        packets: &[Packet::From(1), Packet::From(9)],
    };
    let pair = pair.bytes(rt, alloc);
    let mut capture = had(rt, HEAD.to_vec(alloc));
    for _pair in 0..pairs {
        had(rt, capture.extend_from_slice(&pair));
    }
    capture
}

// A burst of 2,200 packets goes in at least three pieces, and bursts of 1,024 in as many: both functions see each
// packet once, and every second packet is dropped.
#[test]
fn a_long_burst_goes_in_pieces(rt: HostRuntime) {
    for call in LONG_CALLS {
        let watch = Watch::idle();
        let bytes = in_turn(&rt, rt.alloc(), 1100);
        let desk = watched(&rt, call, BESIDE, bytes, &watch);
        assert_eq!(rt; watch.sums(), [4400, 0, 6600, 4842200]);
        let is_told = desk.put(Slot::Note) == LONG_NOTE;
        assert!(rt; is_told && desk.put(Slot::Report).ends_with(COUNTED_IN_TURN));
    }
}
