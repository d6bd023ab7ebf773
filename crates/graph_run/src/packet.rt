//! One packet through the stages of a graph.
ghost use Rattle.std.specs.Prelude.{◌≡◌, ◌++◌, [], IfOk, OnOk, OnErr};
ghost use Rattle.packet_fields.specs.Writing.{fields_of};
ghost use Rattle.chain_walk.specs.Counting.{quiet};
ghost use Rattle.chain_walk.specs.Shown.{fixed_of};
ghost use Rattle.chain_walk.specs.Walk.{walk};
ghost use Rattle.graph_law.specs.BranchNotes.{flow_notes};
ghost use Rattle.burst_law.specs.Placed.{placed_by};
ghost use Rattle.graph_run.specs.Counting.{RaisesAll, RaisesUpTo, copies_of};
ghost use Rattle.graph_run.specs.Rooms.{adders_from};
ghost use Rattle.graph_run.specs.Running.{IsRunning, profiles_of};

use crate::noted::{Noted, settle_all};
use crate::stage::run_stage;
use burst_law::notes_are_settled_by_position;
use chain_walk::{
    Fate, frames_are_built_again, frames_walk_as_fields, quiet_functions_keep_to_profiles,
    values_stay_well_formed,
};
use graph_compile::{Graph, lawful_graph_is_staged, stages_rise};
use graph_law::{
    fields_stay, graph_is_chain, notes_are_settled_behind, profiles_stay, stage_reached,
};
use merge_ops::Merged;
use nfp_outside::Gate;
use packet_function::{FlowNote, Function};
use packet_version::{Tally, join, split};
use std::alloc::{AllocError, Global};
use std::sync::Wait;

/// Runs a packet, captured at `time` in nanoseconds, through the stages of a graph, one after another, until it is
/// dropped or goes out, and then settles what was noted of it. `taggers` of the functions add a tag.
#[inline(always)]
pub(crate) fn run_packet<F: Function, G: Gate, R: Wait>(
    rt: &R,
    alloc: Global,
    gate: &G,
    chain: u32,
    number: u32,
    functions: &mut [F],
    graph: &Graph,
    taggers: u32,
    time: u64,
    frame: &[u8],
    tally: &mut Tally,
    notes: &mut Vec<Noted>,
) -> Result<Fate, AllocError>
    requires running { IsRunning F.behaviour functions.old graph.now }
    requires taggers { taggers ≡ adders_from (profiles_of F.behaviour functions.old) 1 }
    requires unnoted { notes.old.items ≡ [] }
    ensures functions { OnOk result (functions.new ≡ (walk F.behaviour time 1 functions.old frame.now).functions) }
    ensures fate { IfOk result (λ fate. fate ≡ (walk F.behaviour time 1 functions.old frame.now).fate) }
    ensures counted { OnOk result (RaisesAll (copies_of graph.now.stages frame.now (walk F.behaviour time 1 functions.old frame.now).fate) tally.old tally.new) }
    ensures refused { OnErr result (RaisesUpTo (copies_of graph.now.stages frame.now (walk F.behaviour time 1 functions.old frame.now).fate) tally.old tally.new) }
    ensures settled { OnOk result (notes.new.items ≡ []) }
{
    graph_is_chain::<F>();
    quiet_functions_keep_to_profiles::<F>();
    frames_walk_as_fields::<F>();
    notes_are_settled_behind::<F, FlowNote>();
    notes_are_settled_by_position::<F, FlowNote>();
    let fate = pass_stages(
        rt, alloc, gate, chain, number, functions, graph, taggers, time, frame, tally, notes,
    )?;
    settle_all(functions, notes, &fate)?;
    Ok(fate)
}

/// Runs a packet through the stages, with the counting of their functions left out: what they note of the packet is
/// added to its notes.
#[inline(always)]
fn pass_stages<F: Function, G: Gate, R: Wait>(
    rt: &R,
    alloc: Global,
    gate: &G,
    chain: u32,
    number: u32,
    functions: &mut [F],
    graph: &Graph,
    taggers: u32,
    time: u64,
    frame: &[u8],
    tally: &mut Tally,
    notes: &mut Vec<Noted>,
) -> Result<Fate, AllocError>
    requires running { IsRunning F.behaviour functions.old graph.now }
    requires taggers { taggers ≡ adders_from (profiles_of F.behaviour functions.old) 1 }
    ensures functions { OnOk result (functions.new ≡ (walk (quiet F.behaviour) time 1 functions.old frame.now).functions) }
    ensures fate { IfOk result (λ fate. fate ≡ (walk (quiet F.behaviour) time 1 functions.old frame.now).fate) }
    ensures counted { OnOk result (RaisesAll (copies_of graph.now.stages frame.now (walk (quiet F.behaviour) time 1 functions.old frame.now).fate) tally.old tally.new) }
    ensures refused { OnErr result (RaisesUpTo (copies_of graph.now.stages frame.now (walk (quiet F.behaviour) time 1 functions.old frame.now).fate) tally.old tally.new) }
    ensures noted { OnOk result (notes.new.items ≡ notes.old.items ++ placed_by graph.now.stages (flow_notes (quiet F.behaviour) F.notes (fixed_of time frame.now) graph.now.stages (fields_of frame.now) functions.old)) }
{
    lawful_graph_is_staged();
    stages_rise();
    graph_is_chain::<F>();
    quiet_functions_keep_to_profiles::<F>();
    profiles_stay::<F>();
    fields_stay::<F>();
    stage_reached::<F>();
    values_stay_well_formed::<F>();
    frames_walk_as_fields::<F>();
    frames_are_built_again::<F>();
    let mut whole = split(alloc, frame, time, taggers)?;
    for stage in graph.stages.as_slice() {
        match run_stage(
            rt, alloc, gate, chain, number, functions, stage, whole, tally, notes,
        )? {
            Merged::Whole(next) => whole = next,
            Merged::Gone(position) => return Ok(Fate::Gone(position)),
            Merged::Short => return Err(AllocError),
        }
    }
    Ok(Fate::Out(join(alloc, whole)?))
}
