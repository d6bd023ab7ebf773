//! Runs a packet through a stage: it is dealt to the branches, each runs, and the results are merged.
ghost use Rattle.std.specs.Prelude.{◌≡◌, ◌++◌, ℕ, length, IfOk, OnOk, OnErr};
ghost use Rattle.chain_walk.specs.Counting.{quiet};
ghost use Rattle.graph_law.specs.BranchNotes.{branched_notes};
ghost use Rattle.graph_law.specs.Flow.{staged};
ghost use Rattle.burst_law.specs.Placed.{placed_in};
ghost use Rattle.graph_run.specs.Carrying.{values_in, as_end};
ghost use Rattle.graph_run.specs.Counting.{RaisesAll, RaisesUpTo};
ghost use Rattle.graph_run.specs.Running.{profiles_of};
ghost use Rattle.graph_run.specs.Stages.{IsStageReady, LeavesStage, end_of, stage_copies};

use crate::branch::run_branch;
use crate::noted::Noted;
use chain_walk::quiet_functions_keep_to_profiles;
use graph_compile::{Stage, lawful_stage_has_owners};
use graph_law::profiles_stay;
use merge_ops::{
    Merged, last_writer_is_greatest, merge, merge_only, merged_is_written_last, written_is_made,
};
use nfp_outside::Gate;
use packet_function::Function;
use packet_version::{Apart, Tally, deal, deal_whole};
use std::alloc::{AllocError, Global};
use std::sync::Wait;

/// Runs a packet through the branches of a stage, one branch after another. What their functions note of it is added to
/// its notes.
#[inline(always)]
pub(crate) fn run_stage<F: Function, G: Gate, R: Wait>(
    rt: &R,
    alloc: Global,
    gate: &G,
    chain: u32,
    number: u32,
    functions: &mut [F],
    stage: &Stage,
    whole: Apart,
    tally: &mut Tally,
    notes: &mut Vec<Noted>,
) -> Result<Merged, AllocError>
    requires ready { (first : ℕ) × IsStageReady (profiles_of F.behaviour functions.old) first stage.now whole }
    ensures functions { OnOk result (functions.new ≡ (staged (quiet F.behaviour) whole.fixed stage.now (values_in whole) functions.old).functions) }
    ensures end { IfOk result (λ merged. as_end merged ≡ (staged (quiet F.behaviour) whole.fixed stage.now (values_in whole) functions.old).end) }
    ensures leaves { (first : ℕ) → IsStageReady (profiles_of F.behaviour functions.old) first stage.now whole → IfOk result (LeavesStage (profiles_of F.behaviour functions.old) (end_of first stage.now) whole) }
    ensures counted { OnOk result (RaisesAll (stage_copies stage.now whole) tally.old tally.new) }
    ensures refused { OnErr result (RaisesUpTo (stage_copies stage.now whole) tally.old tally.new) }
    ensures noted { OnOk result (notes.new.items ≡ notes.old.items ++ placed_in stage.now.branches (branched_notes (quiet F.behaviour) F.notes whole.fixed stage.now.branches stage.now.parts.touches (values_in whole) functions.old)) }
{
    if stage.branches.as_slice().len() == 1 {
        run_only(
            rt, alloc, gate, chain, number, functions, stage, whole, tally, notes,
        )
    } else {
        run_branches(
            rt, alloc, gate, chain, number, functions, stage, whole, tally, notes,
        )
    }
}

/// Runs a packet through the only branch of a stage, which has it whole.
#[inline(always)]
fn run_only<F: Function, G: Gate, R: Wait>(
    rt: &R,
    alloc: Global,
    gate: &G,
    chain: u32,
    number: u32,
    functions: &mut [F],
    stage: &Stage,
    whole: Apart,
    tally: &mut Tally,
    notes: &mut Vec<Noted>,
) -> Result<Merged, AllocError>
    requires one { length stage.now.branches ≡ 1 }
    requires ready { (first : ℕ) × IsStageReady (profiles_of F.behaviour functions.old) first stage.now whole }
    ensures functions { OnOk result (functions.new ≡ (staged (quiet F.behaviour) whole.fixed stage.now (values_in whole) functions.old).functions) }
    ensures end { IfOk result (λ merged. as_end merged ≡ (staged (quiet F.behaviour) whole.fixed stage.now (values_in whole) functions.old).end) }
    ensures leaves { (first : ℕ) → IsStageReady (profiles_of F.behaviour functions.old) first stage.now whole → IfOk result (LeavesStage (profiles_of F.behaviour functions.old) (end_of first stage.now) whole) }
    ensures counted { OnOk result (RaisesAll (stage_copies stage.now whole) tally.old tally.new) }
    ensures refused { OnErr result (RaisesUpTo (stage_copies stage.now whole) tally.old tally.new) }
    ensures noted { OnOk result (notes.new.items ≡ notes.old.items ++ placed_in stage.now.branches (branched_notes (quiet F.behaviour) F.notes whole.fixed stage.now.branches stage.now.parts.touches (values_in whole) functions.old)) }
{
    lawful_stage_has_owners();
    profiles_stay::<F>();
    quiet_functions_keep_to_profiles::<F>();
    written_is_made();
    last_writer_is_greatest();
    merged_is_written_last();
    let touch = stage.parts.touches.as_slice()[0];
    let version = deal_whole(alloc, whole, touch, &stage.parts.modes, tally)?;
    let positions = stage.branches.as_slice()[0].positions.as_slice();
    let arrival = run_branch(
        rt, gate, chain, number, functions, positions, version, notes,
    )?;
    Ok(merge_only(arrival))
}

/// Runs a packet through the branches of a stage, each of which has a version of it.
fn run_branches<F: Function, G: Gate, R: Wait>(
    rt: &R,
    alloc: Global,
    gate: &G,
    chain: u32,
    number: u32,
    functions: &mut [F],
    stage: &Stage,
    whole: Apart,
    tally: &mut Tally,
    notes: &mut Vec<Noted>,
) -> Result<Merged, AllocError>
    requires ready { (first : ℕ) × IsStageReady (profiles_of F.behaviour functions.old) first stage.now whole }
    ensures functions { OnOk result (functions.new ≡ (staged (quiet F.behaviour) whole.fixed stage.now (values_in whole) functions.old).functions) }
    ensures end { IfOk result (λ merged. as_end merged ≡ (staged (quiet F.behaviour) whole.fixed stage.now (values_in whole) functions.old).end) }
    ensures leaves { (first : ℕ) → IsStageReady (profiles_of F.behaviour functions.old) first stage.now whole → IfOk result (LeavesStage (profiles_of F.behaviour functions.old) (end_of first stage.now) whole) }
    ensures counted { OnOk result (RaisesAll (stage_copies stage.now whole) tally.old tally.new) }
    ensures refused { OnErr result (RaisesUpTo (stage_copies stage.now whole) tally.old tally.new) }
    ensures noted { OnOk result (notes.new.items ≡ notes.old.items ++ placed_in stage.now.branches (branched_notes (quiet F.behaviour) F.notes whole.fixed stage.now.branches stage.now.parts.touches (values_in whole) functions.old)) }
{
    lawful_stage_has_owners();
    profiles_stay::<F>();
    quiet_functions_keep_to_profiles::<F>();
    written_is_made();
    last_writer_is_greatest();
    merged_is_written_last();
    let (base, versions) = deal(alloc, whole, &stage.parts, tally)?;
    let branches = stage.branches.as_slice();
    let mut arrivals = Vec::with_capacity(alloc, branches.len())?;
    let mut index = 0;
    for version in versions {
        let positions = branches[index].positions.as_slice();
        let arrival = run_branch(
            rt, gate, chain, number, functions, positions, version, notes,
        )?;
        arrivals.push(arrival)?;
        index += 1;
    }
    Ok(merge(rt, base, &mut arrivals))
}
