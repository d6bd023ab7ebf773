//! Runs a burst of packets through a graph, stage by stage, the branches of a stage side by side.
ghost use Rattle.std.specs.Prelude.{◌≡◌, ◌≤◌, length, IfOk, OnErr};
ghost use Rattle.chain_walk.specs.Packets.{fates};
ghost use Rattle.graph_run.specs.Counting.{RaisesUpTo, copies_made};
ghost use Rattle.graph_run.specs.Leading.{Leads};
ghost use Rattle.graph_run.specs.Packets.{packets_taken};

use crate::stages::run_stages;
use capture_bytes::Unit;
use chain_walk::Fate;
use classifier::Burst;
use graph_compile::{Graph, Stage};
use graph_run::{Running, run_gated};
use nfp_outside::Gate;
use node_run::{MergeWay, Schedule};
use packet_function::Function;
use packet_version::Tally;
use std::alloc::{AllocError, Global};
use std::sync::Wait;
use std::thread::Threads;

/// Runs the packets of a burst that are of the chain with this number through the graph, all through one stage and then
/// all through the next, and returns the fate of each, in their order. The branches of a stage run side by side, and
/// after it `mergers` mergers, from 1 to 16: merger `i` has the packets whose number among those of the chain, counted
/// from 0, has the remainder `i` by their number. There are fewer mergers if fewer packets come or more don't pay. If
/// every stage has one branch, nothing runs side by side, and each packet goes through all stages before the next. Each
/// step of a function passes the gate first. Frames that go out are not sealed yet.
///
/// Every packet ends as if it walked through the functions of the chain one after another, each meeting them as the
/// packet before left them, and the functions end in the same states. The tally rises by the copies that were made. The
/// only error is that memory runs out: then the functions are lost, and the tally may have risen by copies that were
/// made.
pub fn run_joined<F: Function + Drop + Send, G: Gate + Sync, R: Threads + Wait + Sync>(
    rt: &R,
    alloc: Global,
    run: Running<F>,
    burst: &Burst,
    unit: Unit,
    chain: u32,
    tally: &mut Tally,
    mergers: u32,
    gate: &G,
) -> Result<(Running<F>, Vec<Fate>), AllocError>
    requires few { length burst.now.items ≤ 65536 }
    requires some_mergers { 1 ≤ mergers }
    requires few_mergers { mergers ≤ 16 }
    ensures leads { IfOk result (λ ran. Leads F.behaviour run (packets_taken unit chain burst.now.items) tally.old tally.new ran.0 ran.1.items) }
    ensures refused { OnErr result (RaisesUpTo (copies_made run.graph.stages (packets_taken unit chain burst.now.items) (fates F.behaviour run.functions (packets_taken unit chain burst.now.items))) tally.old tally.new) }
{
    if has_single_branches(run.graph()) {
        return run_gated(rt, alloc, run, burst, unit, chain, tally, gate);
    }
    run_stages(
        rt,
        alloc,
        run,
        burst.items.as_slice(),
        unit,
        chain,
        tally,
        mergers,
        gate,
        MergeWay::Inbox,
        Schedule::InTurn,
    )
}

/// Has every stage one branch, so that nothing runs side by side?
fn has_single_branches(graph: &Graph) -> bool {
    graph.stages.as_slice().iter().all(has_one_branch)
}

/// Has the stage one branch?
fn has_one_branch(stage: &Stage) -> bool {
    stage.branches.as_slice().len() == 1
}
