//! Runs a burst of packets through a graph, its dealers, branches and mergers side by side.
ghost use Rattle.std.specs.Prelude.{◌≤◌, ◌<◌, length, IfOk, OnErr};
ghost use Rattle.chain_walk.specs.Packets.{fates};
ghost use Rattle.graph_run.specs.Counting.{RaisesUpTo, copies_made};
ghost use Rattle.graph_run.specs.Leading.{Leads};
ghost use Rattle.graph_run.specs.Packets.{packets_taken};

use crate::stages::run_stages;
use capture_bytes::Unit;
use chain_walk::Fate;
use classifier::{Burst, Item};
use graph_compile::Graph;
use graph_run::{
    Running, functions_keep_to_profiles, pieces_are_led_in_a_row, run_gated, run_in_a_row,
};
use nfp_outside::Gate;
use node_run::{MergeWay, Schedule};
use pace::{Lead, Pace};
use packet_function::Function;
use packet_version::Tally;
use std::alloc::{AllocError, Global};
use std::rt::Clock;
use std::sync::Wait;
use std::thread::Threads;
use std::time::Instant;

/// Runs the packets of a burst that are of the chain with this number through the graph, and returns the fate of each,
/// in their order. In each stage one dealer deals the packets, each branch takes its versions in the packets' order,
/// and `mergers` mergers, from 1 to 16, merge the results of the branches in the given way: merger `i` has the packets
/// whose number among those of the chain, counted from 0, has the remainder `i` by their number. A branch whose
/// functions neither keep a state nor count has a node for each merger, which takes that merger's packets, and every
/// other branch has one node for all. There are fewer mergers if fewer packets come or more don't pay. Dealers,
/// branches and mergers of all stages run side by side, the first dealer in the caller's thread and the others on as
/// many more threads as suit the machine, if these can be started; the threads are joined before the call returns.
///
/// If the graph has no stage, or one stage of one branch, nothing could run beside it, and everything runs in the
/// caller's thread. So does a burst that the pace of the run (`pace`) sends there: if packets are light, if threads
/// saved too little of the time of one thread on the packets before, by the clock, or if one thread is tried. The
/// functions then run in a row. A burst that is longer than a trial of the pace goes in pieces, each in its own way.
/// The first packets of a run go on threads. Each step of a function passes the gate first. Frames that go out are not
/// sealed yet.
///
/// Every packet ends as if it walked through the functions of the chain one after another, each meeting them as the
/// packet before left them, and the functions end in the same states. The tally rises by the copies that the graph
/// makes; functions in a row make none, and the copies that the graph would make are counted. The only error is that
/// memory runs out: then the functions are lost, and the tally may have risen by some of them.
pub fn run_piped<F: Function + Drop + Send, G: Gate + Sync, R: Threads + Wait + Clock + Sync>(
    rt: &R,
    alloc: Global,
    run: Running<F>,
    burst: &Burst,
    unit: Unit,
    chain: u32,
    tally: &mut Tally,
    mergers: u32,
    gate: &G,
    way: MergeWay,
) -> Result<(Running<F>, Vec<Fate>), AllocError>
    requires few { length burst.now.items ≤ 65536 }
    requires some_mergers { 1 ≤ mergers }
    requires few_mergers { mergers ≤ 16 }
    ensures leads { IfOk result (λ ran. Leads F.behaviour run (packets_taken unit chain burst.now.items) tally.old tally.new ran.0 ran.1.items) }
    ensures refused { OnErr result (RaisesUpTo (copies_made run.graph.stages (packets_taken unit chain burst.now.items) (fates F.behaviour run.functions (packets_taken unit chain burst.now.items))) tally.old tally.new) }
{
    if is_one_branch(run.graph()) {
        return run_gated(rt, alloc, run, burst, unit, chain, tally, gate);
    }
    run_pieces(
        rt,
        alloc,
        run,
        burst.items.as_slice(),
        unit,
        chain,
        tally,
        mergers,
        gate,
        way,
    )
}

/// Runs these items in pieces, one after another: each in the way of the run's pace as the piece before left it, and
/// with no more items than that way may have at once.
fn run_pieces<F: Function + Drop + Send, G: Gate + Sync, R: Threads + Wait + Clock + Sync>(
    rt: &R,
    alloc: Global,
    run: Running<F>,
    items: &[Item],
    unit: Unit,
    chain: u32,
    tally: &mut Tally,
    mergers: u32,
    gate: &G,
    way: MergeWay,
) -> Result<(Running<F>, Vec<Fate>), AllocError>
    requires few { length items.now ≤ 65536 }
    requires some_mergers { 1 ≤ mergers }
    requires few_mergers { mergers ≤ 16 }
    ensures leads { IfOk result (λ ran. Leads F.behaviour run (packets_taken unit chain items.now) tally.old tally.new ran.0 ran.1.items) }
    ensures refused { OnErr result (RaisesUpTo (copies_made run.graph.stages (packets_taken unit chain items.now) (fates F.behaviour run.functions (packets_taken unit chain items.now))) tally.old tally.new) }
{
    functions_keep_to_profiles::<F>();
    pieces_are_led_in_a_row::<F>();
    let mut run = run;
    let mut fates = Vec::with_capacity(alloc, items.len())?;
    let mut start = 0;
    'pieces: while start < items.len() {
        let end = piece_end(run.pace(), start, items.len());
        let piece = &items[start..end];
        let (left, mut ended) = run_piece(
            rt, alloc, run, piece, unit, chain, tally, mergers, gate, way,
        )?;
        run = left;
        fates.append(&mut ended)?;
        start = end;
    }
    Ok((run, fates))
}

/// The end of the piece that begins at `start`.
fn piece_end(pace: Pace, start: usize, len: usize) -> usize
    requires { start < len }
    ensures further { start < result }
    ensures inside { result ≤ len }
{
    len.min(start.saturating_add(pace.most() as usize))
}

/// Runs these items in the way of the run's pace, and reports to the pace the time that they took.
fn run_piece<F: Function + Drop + Send, G: Gate + Sync, R: Threads + Wait + Clock + Sync>(
    rt: &R,
    alloc: Global,
    run: Running<F>,
    items: &[Item],
    unit: Unit,
    chain: u32,
    tally: &mut Tally,
    mergers: u32,
    gate: &G,
    way: MergeWay,
) -> Result<(Running<F>, Vec<Fate>), AllocError>
    requires few { length items.now ≤ 65536 }
    requires some_mergers { 1 ≤ mergers }
    requires few_mergers { mergers ≤ 16 }
    ensures leads { IfOk result (λ ran. Leads F.behaviour run (packets_taken unit chain items.now) tally.old tally.new ran.0 ran.1.items) }
    ensures refused { OnErr result (RaisesUpTo (copies_made run.graph.stages (packets_taken unit chain items.now) (fates F.behaviour run.functions (packets_taken unit chain items.now))) tally.old tally.new) }
{
    let mut pace = run.pace();
    let lead = pace.lead();
    let start = Instant::now(rt).ok();
    let (run, fates) = run_by(
        rt, alloc, run, items, unit, chain, tally, mergers, gate, way, lead,
    )?;
    note_burst(rt, &mut pace, lead, fates.len(), start);
    Ok((run.paced(pace), fates))
}

/// Runs these items in this way.
fn run_by<F: Function + Drop + Send, G: Gate + Sync, R: Threads + Wait + Sync>(
    rt: &R,
    alloc: Global,
    run: Running<F>,
    items: &[Item],
    unit: Unit,
    chain: u32,
    tally: &mut Tally,
    mergers: u32,
    gate: &G,
    way: MergeWay,
    lead: Lead,
) -> Result<(Running<F>, Vec<Fate>), AllocError>
    requires few { length items.now ≤ 65536 }
    requires some_mergers { 1 ≤ mergers }
    requires few_mergers { mergers ≤ 16 }
    ensures leads { IfOk result (λ ran. Leads F.behaviour run (packets_taken unit chain items.now) tally.old tally.new ran.0 ran.1.items) }
    ensures refused { OnErr result (RaisesUpTo (copies_made run.graph.stages (packets_taken unit chain items.now) (fates F.behaviour run.functions (packets_taken unit chain items.now))) tally.old tally.new) }
{
    match lead {
        Lead::Threads => run_stages(
            rt,
            alloc,
            run,
            items,
            unit,
            chain,
            tally,
            mergers,
            gate,
            way,
            Schedule::AtOnce,
        ),
        Lead::Alone => run_in_a_row(rt, alloc, run, items, unit, chain, tally, gate),
    }
}

/// Reports to the pace the time of `packets` packets in this way, if the clock works.
fn note_burst<R: Clock>(
    rt: &R,
    pace: &mut Pace,
    lead: Lead,
    packets: usize,
    start: Option<Instant>,
) {
    let (Some(start), Ok(packets)) = (start, u32::try_from(packets)) else {
        return;
    };
    let Ok(took) = start.elapsed(rt) else {
        return;
    };
    if packets > 0 {
        let nanos = u64::try_from(took.as_nanos()).unwrap_or(u64::MAX);
        pace.note_burst(lead, packets, nanos);
    }
}

/// Does a graph have at most one stage, with one branch?
fn is_one_branch(graph: &Graph) -> bool {
    let stages = graph.stages.as_slice();
    match stages {
        [] => true,
        [stage] => stage.branches.as_slice().len() == 1,
        _ => false,
    }
}
