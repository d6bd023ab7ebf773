//! Runs a burst of packets through the stages of a graph, whose dealers, branches and mergers are nodes.
ghost use Rattle.std.specs.Prelude.{◌≡◌, ◌≤◌, length, map, All, IfOk, OnOk, OnErr};
ghost use Rattle.burst_law.specs.Bursts.{chain_burst};
ghost use Rattle.burst_law.specs.Copies.{chain_copies};
ghost use Rattle.graph_run.specs.Counting.{RaisesAll, RaisesUpTo};
ghost use Rattle.graph_run.specs.Running.{IsRunning, profiles_of};
ghost use Rattle.stream_law.specs.Messages.{as_message};
ghost use Rattle.stream_law.specs.Ready.{AllEnter};
ghost use Rattle.stream_law.specs.Ready.{Fits};
ghost use Rattle.piped_run.specs.Frames.{EndsAs, apart_from};

use crate::back::end_works;
use crate::frames::Frames;
use crate::owned::OwnedFunctions;
use crate::returning::put_together;
use crate::works::begin_works;
use burst_law::{
    burst_is_chain, notes_are_settled_as_listed, notes_are_settled_behind_bursts, owned_is_whole,
    packets_merge_apart,
};
use chain_walk::{Fate, quiet_functions_keep_to_profiles};
use graph_compile::{Graph, Stage};
use graph_run::functions_keep_to_profiles;
use nfp_outside::Gate;
use node_run::{MergeWay, Schedule, most_threads, run_nodes};
use packet_function::{FlowNote, Function};
use packet_version::Tally;
use settled_notes::functions_count_by_notes;
use std::alloc::{AllocError, Global};
use std::marker::Brand;
use std::sync::Wait;
use std::thread::Threads;
use stream_law::nodes_walk_the_chain;

/// Runs all packets of these frames, which have these record numbers, through the stages of a graph: the caller takes
/// them apart and deals them to the first stage, and each other dealer, each branch and each merger is a node, at work
/// under this schedule. The functions and the packets end as if the packets walked through the chain one after another.
/// No node is started for a burst without packets, and there are no more mergers than packets, nor more than pay.
///
/// The only error is that memory runs out: then the functions are lost, and the tally stays.
pub(crate) fn pipe_frames<F: Function + Drop + Send, G: Gate + Sync, R: Threads + Wait + Sync>(
    rt: &R,
    alloc: Global,
    gate: &G,
    chain: u32,
    numbers: &[u32],
    graph: &Graph,
    functions: Vec<F>,
    frames: Frames,
    mergers: u32,
    way: MergeWay,
    schedule: Schedule,
    tally: &mut Tally,
) -> Result<(Vec<F>, Vec<Fate>), AllocError>
    requires running { IsRunning F.behaviour functions.items graph.now }
    requires enter { AllEnter (profiles_of F.behaviour functions.items) 1 (apart_from frames) }
    requires fits { All Fits (apart_from frames) }
    requires numbers { length numbers.now ≡ length (apart_from frames) }
    requires few { length (apart_from frames) ≤ 65536 }
    requires some_mergers { 1 ≤ mergers }
    requires few_mergers { mergers ≤ 16 }
    ensures functions { IfOk result (λ left. left.0.items ≡ (chain_burst F.behaviour functions.items (map as_message (apart_from frames.entry))).state) }
    ensures fates { IfOk result (λ left. EndsAs F.behaviour functions.items (apart_from frames.entry) left.1.items) }
    ensures running { IfOk result (λ left. IsRunning F.behaviour left.0.items graph.now) }
    ensures counted { OnOk result (RaisesAll (λ f. chain_copies F.behaviour graph.now.stages f functions.items (map as_message (apart_from frames.entry))) tally.old tally.new) }
    ensures refused { OnErr result (RaisesUpTo (λ f. chain_copies F.behaviour graph.now.stages f functions.items (map as_message (apart_from frames.entry))) tally.old tally.new) }
{
    functions_keep_to_profiles::<F>();
    quiet_functions_keep_to_profiles::<F>();
    burst_is_chain::<F>();
    owned_is_whole::<F>();
    packets_merge_apart::<F>();
    functions_count_by_notes::<F>();
    notes_are_settled_behind_bursts::<F, FlowNote>();
    notes_are_settled_as_listed::<F, FlowNote>();
    nodes_walk_the_chain::<F>();
    if numbers.is_empty() {
        return Ok((functions, Vec::new(alloc)));
    }
    let stages = graph.stages.as_slice();
    let owners = functions.len();
    let count = numbers.len() as u32;
    let mergers = mergers_that_pay(rt, stages, mergers.min(count));
    let works = begin_works(alloc, stages, functions, numbers, chain)?;
    let (works, fates, made) = run_nodes::<OwnedFunctions<F>, Frames, Brand, R, G>(
        rt, alloc, gate, works, frames, count, mergers, way, schedule,
    )?;
    let owned = end_works(alloc, stages, works, &fates)?;
    let functions = put_together(alloc, stages, owners, owned)?;
    tally.add(&made);
    Ok((functions, fates))
}

/// At most this number of mergers, at least one, and no more than pay. A branch may have a node for each merger; if
/// there are more than twice as many nodes of branches as threads, the links cost more time than the mergers save.
fn mergers_that_pay<R: Threads>(rt: &R, stages: &[Stage], mergers: u32) -> u32
    requires { 1 ≤ mergers }
    ensures some { 1 ≤ result }
    ensures few { result ≤ mergers }
{
    let nodes = most_threads(rt).saturating_mul(2);
    let each = nodes / count_branches(stages).max(1);
    match u32::try_from(each) {
        Ok(each) => mergers.min(each).max(1),
        Err(_) => mergers,
    }
}

/// The number of branches of these stages.
fn count_branches(stages: &[Stage]) -> usize {
    let mut count: usize = 0;
    for stage in stages {
        count = count.saturating_add(stage.branches.as_slice().len());
    }
    count
}
