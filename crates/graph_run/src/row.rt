//! Runs bursts on one thread, without the branches of a graph.
ghost use Rattle.std.specs.Prelude.{◌≡◌, ◌≤◌, length, IfOk, IfSome, OnErr};
ghost use Rattle.chain_walk.specs.Packets.{fates};
ghost use Rattle.graph_run.specs.Counting.{RaisesUpTo, copies_made};
ghost use Rattle.graph_run.specs.Leading.{Leads};
ghost use Rattle.graph_run.specs.Packets.{packets_taken};
ghost use Rattle.graph_run.specs.Running.{IsRow, profiles_of};

use crate::copies::count_copies;
use crate::plain::run_items;
use crate::running::Running;
use action_profile::Profile;
use capture_bytes::Unit;
use chain_walk::Fate;
use classifier::Item;
use graph_compile::{Graph, in_a_row};
use nfp_outside::Gate;
use packet_function::Function;
use packet_version::Tally;
use std::alloc::{AllocError, Global};
use std::sync::Wait;

/// The same as [`run_items`], by the functions in a row, one after another on a packet that is dealt once and whole: on
/// one thread that gives the same result as a graph of branches, in half the time. No copy is made; the copies that the
/// graph would make are counted for each packet by its fate.
pub fn run_in_a_row<F: Function + Drop, G: Gate, R: Wait>(
    rt: &R,
    alloc: Global,
    run: Running<F>,
    items: &[Item],
    unit: Unit,
    chain: u32,
    tally: &mut Tally,
    gate: &G,
) -> Result<(Running<F>, Vec<Fate>), AllocError>
    requires few { length items.now ≤ 65536 }
    ensures leads { IfOk result (λ ran. Leads F.behaviour run (packets_taken unit chain items.now) tally.old tally.new ran.0 ran.1.items) }
    ensures refused { OnErr result (RaisesUpTo (copies_made run.graph.stages (packets_taken unit chain items.now) (fates F.behaviour run.functions (packets_taken unit chain items.now))) tally.old tally.new) }
{
    let Running {
        functions,
        graph,
        row,
        pace,
    } = run;
    let row = row_beside(alloc, &functions, row)?;
    let run = Running::new(functions, row);
    let (run, fates) = run_items(rt, alloc, run, items, unit, chain, tally, gate)?;
    count_copies(&graph, items, chain, &fates, tally);
    let (functions, row) = run.into_parts();
    let run = Running {
        functions,
        graph,
        row: Some(row),
        pace,
    };
    Ok((run, fates))
}

/// The graph of the functions in a row: the existing one, or a new one.
fn row_beside<F: Function>(
    alloc: Global,
    functions: &[F],
    row: Option<Graph>,
) -> Result<Graph, AllocError>
    requires few { length functions.now ≤ 64 }
    requires row { IfSome row (IsRow F.behaviour functions.now) }
    ensures { IfOk result (IsRow F.behaviour functions.now) }
{
    if let Some(row) = row {
        return Ok(row);
    }
    let profiles = profiles_of(alloc, functions)?;
    in_a_row(alloc, &profiles)
}

fn profiles_of<F: Function>(alloc: Global, functions: &[F]) -> Result<Vec<Profile>, AllocError>
    ensures { IfOk result (λ profiles. profiles.items ≡ profiles_of F.behaviour functions.now) }
{
    functions
        .iter()
        .map(|function| function.profile())
        .collect(alloc)
}
