//! A burst of packets through a graph, on one thread.
ghost use Rattle.std.specs.Prelude.{◌≡◌, ◌≤◌, ◌++◌, [], ◌∷◌, length, IfOk, OnOk, OnErr, if◌then◌else◌};
ghost use Rattle.chain_walk.specs.Packets.{fates, functions_after};
ghost use Rattle.graph_run.specs.Counting.{RaisesAll, RaisesUpTo, copies_made};
ghost use Rattle.graph_run.specs.Leading.{Leads};
ghost use Rattle.graph_run.specs.Packets.{is_of, packets_taken};
ghost use Rattle.graph_run.specs.Rooms.{adders_from};
ghost use Rattle.graph_run.specs.Running.{IsRunning, profiles_of};

use crate::noted::Noted;
use crate::packet::run_packet;
use crate::running::Running;
use capture_bytes::Unit;
use chain_walk::{Fate, packets_walk_in_a_row};
use classifier::{Burst, Item};
use graph_compile::Graph;
use nfp_outside::{Gate, OpenGate};
use packet_function::Function;
use packet_version::Tally;
use std::alloc::{AllocError, Global};
use std::sync::Wait;

/// Runs the packets of a burst that are of the chain with this number through the graph, one after another, and returns
/// the fate of each, in their order. Frames that go out are not sealed yet.
///
/// Every packet ends as if it walked through the functions of the chain one after another, each meeting them as the
/// packet before left them, and the functions end in the same states. The tally rises by the copies that were made. The
/// only error is that memory runs out: then the functions are lost, and the tally may have risen by copies that were
/// made.
pub fn run_plain<F: Function + Drop, R: Wait>(
    rt: &R,
    alloc: Global,
    run: Running<F>,
    burst: &Burst,
    unit: Unit,
    chain: u32,
    tally: &mut Tally,
) -> Result<(Running<F>, Vec<Fate>), AllocError>
    requires few { length burst.now.items ≤ 65536 }
    ensures leads { IfOk result (λ ran. Leads F.behaviour run (packets_taken unit chain burst.now.items) tally.old tally.new ran.0 ran.1.items) }
    ensures refused { OnErr result (RaisesUpTo (copies_made run.graph.stages (packets_taken unit chain burst.now.items) (fates F.behaviour run.functions (packets_taken unit chain burst.now.items))) tally.old tally.new) }
{
    run_gated(rt, alloc, run, burst, unit, chain, tally, &OpenGate)
}

/// The same as [`run_plain`], and each step of a function passes the gate first, with the numbers of the chain, the
/// function and the packet's record.
pub fn run_gated<F: Function + Drop, G: Gate, R: Wait>(
    rt: &R,
    alloc: Global,
    run: Running<F>,
    burst: &Burst,
    unit: Unit,
    chain: u32,
    tally: &mut Tally,
    gate: &G,
) -> Result<(Running<F>, Vec<Fate>), AllocError>
    requires few { length burst.now.items ≤ 65536 }
    ensures leads { IfOk result (λ ran. Leads F.behaviour run (packets_taken unit chain burst.now.items) tally.old tally.new ran.0 ran.1.items) }
    ensures refused { OnErr result (RaisesUpTo (copies_made run.graph.stages (packets_taken unit chain burst.now.items) (fates F.behaviour run.functions (packets_taken unit chain burst.now.items))) tally.old tally.new) }
{
    let items = burst.items.as_slice();
    run_items(rt, alloc, run, items, unit, chain, tally, gate)
}

/// The same for consecutive items of a burst.
pub fn run_items<F: Function + Drop, G: Gate, R: Wait>(
    rt: &R,
    alloc: Global,
    run: Running<F>,
    items: &[Item],
    unit: Unit,
    chain: u32,
    tally: &mut Tally,
    gate: &G,
) -> Result<(Running<F>, Vec<Fate>), AllocError>
    requires few { length items.now ≤ 65536 }
    ensures leads { IfOk result (λ ran. Leads F.behaviour run (packets_taken unit chain items.now) tally.old tally.new ran.0 ran.1.items) }
    ensures refused { OnErr result (RaisesUpTo (copies_made run.graph.stages (packets_taken unit chain items.now) (fates F.behaviour run.functions (packets_taken unit chain items.now))) tally.old tally.new) }
{
    packets_walk_in_a_row::<F>();
    let Running {
        mut functions,
        graph,
        row: beside,
        pace,
    } = run;
    let taggers = count_adders(&functions);
    let mut fates = Vec::with_capacity(alloc, items.len())?;
    // The notes of one packet at a time, in the same memory.
    let mut notes = Vec::new(alloc);
    for item in items {
        run_item(
            rt,
            alloc,
            gate,
            &mut functions,
            &graph,
            taggers,
            unit,
            chain,
            item,
            &mut fates,
            tally,
            &mut notes,
        )?;
    }
    let run = Running {
        functions,
        graph,
        row: beside,
        pace,
    };
    Ok((run, fates))
}

/// Runs a packet through the graph if it is of the chain, and adds its fate to those of the packets before.
fn run_item<F: Function, G: Gate, R: Wait>(
    rt: &R,
    alloc: Global,
    gate: &G,
    functions: &mut [F],
    graph: &Graph,
    taggers: u32,
    unit: Unit,
    chain: u32,
    item: &Item,
    ended: &mut Vec<Fate>,
    tally: &mut Tally,
    notes: &mut Vec<Noted>,
) -> Result<(), AllocError>
    requires running { IsRunning F.behaviour functions.old graph.now }
    requires taggers { taggers ≡ adders_from (profiles_of F.behaviour functions.old) 1 }
    requires unnoted { notes.old.items ≡ [] }
    ensures functions { OnOk result (functions.new ≡ functions_after F.behaviour functions.old (packets_taken unit chain (item.now ∷ []))) }
    ensures fates { OnOk result (ended.new.items ≡ ended.old.items ++ fates F.behaviour functions.old (packets_taken unit chain (item.now ∷ []))) }
    ensures counted { OnOk result (RaisesAll (copies_made graph.now.stages (packets_taken unit chain (item.now ∷ [])) (fates F.behaviour functions.old (packets_taken unit chain (item.now ∷ [])))) tally.old tally.new) }
    ensures refused { OnErr result (RaisesUpTo (copies_made graph.now.stages (packets_taken unit chain (item.now ∷ [])) (fates F.behaviour functions.old (packets_taken unit chain (item.now ∷ [])))) tally.old tally.new) }
    ensures settled { OnOk result (notes.new.items ≡ []) }
{
    if !is_of(item, chain) {
        return Ok(());
    }
    let time = item.packet.time(unit);
    let frame = item.packet.frame.bytes();
    let fate = run_packet(
        rt,
        alloc,
        gate,
        chain,
        item.number,
        functions,
        graph,
        taggers,
        time,
        frame,
        tally,
        notes,
    )?;
    ended.push(fate)?;
    Ok(())
}

/// Is the packet of the chain with this number?
pub fn is_of(item: &Item, chain: u32) -> bool
    ensures { result ≡ is_of chain item.now }
{
    match item.class {
        Some(class) => class == chain,
        None => false,
    }
}

/// The number of functions that add a tag.
pub fn count_adders<F: Function>(functions: &[F]) -> u32
    requires few { length functions.now ≤ 64 }
    ensures { result ≡ adders_from (profiles_of F.behaviour functions.now) 1 }
{
    let mut adders = 0;
    for function in functions {
        adders += adds_one(function);
    }
    adders
}

/// 1 for a function that adds a tag, and 0 for another.
fn adds_one<F: Function>(function: &F) -> u32
    ensures { result ≡ (if (F.behaviour.profile function.now).adds then 1 else 0) }
{
    u32::from(function.profile().adds)
}
