//! Runs a burst of whole frames, or a piece of one, through the stages of a graph, whose dealers, branches and mergers
//! are nodes.
ghost use Rattle.std.specs.Prelude.{◌≡◌, ◌≤◌, length, IfOk, OnErr};
ghost use Rattle.chain_walk.specs.Packets.{fates};
ghost use Rattle.graph_run.specs.Counting.{RaisesUpTo, copies_made};
ghost use Rattle.graph_run.specs.Leading.{Leads};
ghost use Rattle.graph_run.specs.Packets.{packets_taken};

use crate::frames::{Frames, numbers_of};
use crate::pipe::pipe_frames;
use capture_bytes::Unit;
use chain_walk::Fate;
use classifier::Item;
use graph_run::{Running, count_adders};
use nfp_outside::Gate;
use node_run::{MergeWay, Schedule};
use packet_function::Function;
use packet_version::Tally;
use std::alloc::{AllocError, Global};
use std::sync::Wait;
use std::thread::Threads;
use stream_law::bursts_in_parts_lead;

/// Runs the packets of these items that are of the chain with this number through the stages of a graph, whose dealers,
/// branches and mergers are nodes, at work under this schedule, and returns the fate of each, in their order.
pub(crate) fn run_stages<F: Function + Drop + Send, G: Gate + Sync, R: Threads + Wait + Sync>(
    rt: &R,
    alloc: Global,
    run: Running<F>,
    items: &[Item],
    unit: Unit,
    chain: u32,
    tally: &mut Tally,
    mergers: u32,
    gate: &G,
    way: MergeWay,
    schedule: Schedule,
) -> Result<(Running<F>, Vec<Fate>), AllocError>
    requires few { length items.now ≤ 65536 }
    requires some_mergers { 1 ≤ mergers }
    requires few_mergers { mergers ≤ 16 }
    ensures leads { IfOk result (λ ran. Leads F.behaviour run (packets_taken unit chain items.now) tally.old tally.new ran.0 ran.1.items) }
    ensures refused { OnErr result (RaisesUpTo (copies_made run.graph.stages (packets_taken unit chain items.now) (fates F.behaviour run.functions (packets_taken unit chain items.now))) tally.old tally.new) }
{
    bursts_in_parts_lead::<F>();
    let (functions, graph) = run.into_parts();
    let taggers = count_adders(&functions);
    let numbers = numbers_of(alloc, items, chain)?;
    let frames = Frames::new(items, unit, chain, taggers);
    let (functions, fates) = pipe_frames(
        rt, alloc, gate, chain, &numbers, &graph, functions, frames, mergers, way, schedule, tally,
    )?;
    Ok((Running::new(functions, graph), fates))
}
