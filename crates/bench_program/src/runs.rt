//! The runs that are measured.
ghost use Rattle.std.specs.Prelude.{◌≡◌, ◌≤◌, length, map, IfOk, vec_len};

use action_profile::{Profile, all_fields};
use capture_bytes::Unit;
use chain_walk::Fate;
use classifier::Burst;
use frame_walk::walk_chain;
use graph_compile::compile;
use graph_run::{Running, run_plain};
use net_functions::NetFunction;
use nfp_outside::OpenGate;
use pace::Pace;
use packet_fields::Frame;
use packet_function::Function;
use packet_version::Tally;
use piped_run::{MergeWay, run_joined, run_piped};
use std::alloc::{AllocError, Global};
use std::rt::Clock;
use std::sync::Wait;
use std::thread::Threads;
use std::time::Instant;

/// The number of packets that went out, the number of copies of parts, and the time of the fastest burst.
#[derive(Drop)]
pub struct Counts {
    pub out: u64,
    pub copies: u64,
    pub least: Least,
}

/// The nanoseconds of the fastest burst, if the clock works.
#[derive(Clone, Copy)]
pub struct Least(pub Option<u64>);

impl Least {
    /// The least time with one more burst, which began at `start` and ends now.
    fn with<R: Clock>(self, rt: &R, start: Option<Instant>) -> Least {
        let Some(start) = start else {
            return self;
        };
        let Ok(took) = start.elapsed(rt) else {
            return self;
        };
        let nanos = u64::try_from(took.as_nanos()).unwrap_or(u64::MAX);
        match self.0 {
            Some(least) => Least(Some(least.min(nanos))),
            None => Least(Some(nanos)),
        }
    }
}

fn profiles_of<F: Function>(alloc: Global, functions: &[F]) -> Result<Vec<Profile>, AllocError>
    ensures { IfOk result (λ profiles. profiles.items ≡ map F.behaviour.profile functions.now) }
{
    functions
        .iter()
        .map(|function| function.profile())
        .collect(alloc)
}

fn make_running(
    alloc: Global,
    functions: Vec<NetFunction>,
) -> Result<Running<NetFunction>, AllocError>
    requires { vec_len functions ≤ 64 }
{
    let profiles = profiles_of(alloc, functions.as_slice())?;
    let graph = compile(alloc, &profiles)?;
    Ok(Running::new(functions, graph))
}

fn outs(fates: &[Fate]) -> u64 {
    let mut outs = 0u64;
    for fate in fates {
        if let Fate::Out(_) = fate {
            outs = outs.wrapping_add(1);
        }
    }
    outs
}

/// How a burst runs through the graph.
#[derive(Clone, Copy)]
pub enum Way {
    /// On one thread.
    Plain,
    /// All packets through one stage, its branches on threads that are joined after it, and then all through the next.
    Joined,
    /// As in the program: the dealers, branches and mergers of the graph on threads of their own, if that is faster;
    /// the results of the branches come together in this way.
    Piped(MergeWay),
    /// The same over links, but each burst on threads.
    Threads,
}

/// Runs the burst through the graph, again and again. A number of mergers that is out of range counts as 1.
pub fn through_graph<R: Threads + Wait + Clock + Sync>(
    rt: &R,
    alloc: Global,
    functions: Vec<NetFunction>,
    burst: &Burst,
    rounds: u32,
    way: Way,
    mergers: u32,
) -> Result<Counts, AllocError>
    requires few { vec_len functions ≤ 64 }
    requires short { length burst.now.items ≤ 65536 }
{
    let mergers = match mergers {
        1..=16 => mergers,
        _ => 1,
    };
    let mut run = make_running(alloc, functions)?;
    let mut tally = Tally::new();
    let mut out = 0u64;
    let mut least = Least(None);
    for _round in 0..rounds {
        let start = Instant::now(rt).ok();
        let (next, fates) = one_round(rt, alloc, run, burst, &mut tally, way, mergers)?;
        least = least.with(rt, start);
        run = next;
        out = out.wrapping_add(outs(&fates));
    }
    let copies = copies_in(&tally);
    Ok(Counts { out, copies, least })
}

// The contracts of the runs are long, and the prover sees all of their clauses in every function that calls them. So
// only one function calls each of them, and it promises nothing itself.

fn one_round<R: Threads + Wait + Clock + Sync>(
    rt: &R,
    alloc: Global,
    run: Running<NetFunction>,
    burst: &Burst,
    tally: &mut Tally,
    way: Way,
    mergers: u32,
) -> Result<(Running<NetFunction>, Vec<Fate>), AllocError>
    requires short { length burst.now.items ≤ 65536 }
    requires some_mergers { 1 ≤ mergers }
    requires few_mergers { mergers ≤ 16 }
{
    match way {
        Way::Plain => plain_round(rt, alloc, run, burst, tally),
        Way::Joined => joined_round(rt, alloc, run, burst, tally, mergers),
        Way::Piped(merge) => piped_round(rt, alloc, run, burst, tally, mergers, merge),
        Way::Threads => {
            // The first burst of a pace runs on threads.
            let run = run.paced(Pace::new());
            piped_round(rt, alloc, run, burst, tally, mergers, MergeWay::Inbox)
        }
    }
}

fn plain_round<R: Wait>(
    rt: &R,
    alloc: Global,
    run: Running<NetFunction>,
    burst: &Burst,
    tally: &mut Tally,
) -> Result<(Running<NetFunction>, Vec<Fate>), AllocError>
    requires short { length burst.now.items ≤ 65536 }
{
    run_plain(rt, alloc, run, burst, Unit::Micro, 0, tally)
}

fn joined_round<R: Threads + Wait + Sync>(
    rt: &R,
    alloc: Global,
    run: Running<NetFunction>,
    burst: &Burst,
    tally: &mut Tally,
    mergers: u32,
) -> Result<(Running<NetFunction>, Vec<Fate>), AllocError>
    requires short { length burst.now.items ≤ 65536 }
    requires some_mergers { 1 ≤ mergers }
    requires few_mergers { mergers ≤ 16 }
{
    let unit = Unit::Micro;
    run_joined(rt, alloc, run, burst, unit, 0, tally, mergers, &OpenGate)
}

fn piped_round<R: Threads + Wait + Clock + Sync>(
    rt: &R,
    alloc: Global,
    run: Running<NetFunction>,
    burst: &Burst,
    tally: &mut Tally,
    mergers: u32,
    merge: MergeWay,
) -> Result<(Running<NetFunction>, Vec<Fate>), AllocError>
    requires short { length burst.now.items ≤ 65536 }
    requires some_mergers { 1 ≤ mergers }
    requires few_mergers { mergers ≤ 16 }
{
    let unit = Unit::Micro;
    run_piped(
        rt, alloc, run, burst, unit, 0, tally, mergers, &OpenGate, merge,
    )
}

/// The number of copies of parts.
fn copies_in(tally: &Tally) -> u64 {
    let mut copies = 0u64;
    for field in all_fields() {
        copies = copies.wrapping_add(tally.of(*field));
    }
    copies
}

/// Runs the burst by the walk of whole frames, again and again. Returns the number of packets that went out, and the
/// time of the fastest burst.
pub fn by_walk<R: Wait + Clock>(
    rt: &R,
    alloc: Global,
    functions: &mut [NetFunction],
    burst: &Burst,
    rounds: u32,
) -> Result<(u64, Least), AllocError>
    requires { length functions.old ≤ 64 }
{
    let mut out = 0u64;
    let mut least = Least(None);
    for _round in 0..rounds {
        let start = Instant::now(rt).ok();
        out = out.wrapping_add(walk_all(rt, alloc, functions, burst)?);
        least = least.with(rt, start);
    }
    Ok((out, least))
}

fn walk_all(
    rt: &impl Wait,
    alloc: Global,
    functions: &mut [NetFunction],
    burst: &Burst,
) -> Result<u64, AllocError>
    requires { length functions.old ≤ 64 }
{
    let mut out = 0u64;
    for item in burst.items.as_slice() {
        let frame = Frame::new(item.packet.frame.bytes().to_vec(alloc)?);
        match walk_chain(rt, alloc, functions, item.packet.time(Unit::Micro), frame)? {
            Fate::Out(_) => out = out.wrapping_add(1),
            Fate::Gone(_) => {}
        }
    }
    Ok(out)
}
