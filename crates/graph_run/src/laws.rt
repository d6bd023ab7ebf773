//! Laws of a stage and of its branches, for the crates above.
ghost use Rattle.std.specs.Prelude.{◌≡◌, ◌≤◌, ◌+◌, ◌*◌, ℕ, suc, true, List, Some, IfSome, length, map, slice_get};
ghost use Rattle.packet_fields.specs.declared.field.Field.{Field};
ghost use Rattle.action_profile.specs.Modes.{modes_of};
ghost use Rattle.action_profile.specs.declared.parts.Touch.{Touch};
ghost use Rattle.action_profile.specs.declared.rights.Profile.{Profile};
ghost use Rattle.chain_walk.specs.Laws.{KeepsProfile};
ghost use Rattle.chain_walk.specs.Step.{Behaviour, stepped};
ghost use Rattle.graph_compile.specs.Lawful.{IsLawfulStage};
ghost use Rattle.graph_compile.specs.Parts.{profile_at};
ghost use Rattle.graph_compile.specs.declared.graph.Branch.{Branch};
ghost use Rattle.graph_compile.specs.declared.graph.Stage.{Stage};
ghost use Rattle.graph_law.specs.Branches.{BranchEnd.Live, dealt as dealt_by_law};
ghost use Rattle.graph_law.specs.Merging.{merged as merged_by_law};
ghost use Rattle.packet_version.specs.Splitting.{PlainApart, IsWhole, packet_parts};
ghost use Rattle.packet_version.specs.Versions.{PlainVersion, version_parts, HoldsNamed};
ghost use Rattle.packet_version.specs.Dealing.{dealt, based, copies_due};
ghost use Rattle.merge_ops.specs.Behind.{AreFrom};
ghost use Rattle.merge_ops.specs.Taking.{merged};
ghost use Rattle.merge_ops.specs.declared.arrival.Arrival.{Arrival};
ghost use Rattle.graph_run.specs.Carrying.{as_version, as_branch_end, as_end, values_in, wrote_at};
ghost use Rattle.graph_run.specs.Staging.{Holds, IsCarried};
ghost use Rattle.graph_run.specs.Stages.{GoesFrom, AllCarried, LeavesStage, end_of, stage_copies};

use chain_walk::values_stay_well_formed;
use graph_compile::lawful_stage_has_owners;
use merge_ops::{last_writer_is_greatest, merged_is_written_last, written_is_made};
use packet_function::Function;

/// A function of any kind does what its profile says, and no more.
pub fn functions_keep_to_profiles<F: Function>()
    ensures { KeepsProfile F.behaviour }
{}

/// A version that goes on from a function's position goes on after it, whatever that function wrote, and has room for a
/// tag that it adds.
pub fn versions_go_on<F>()
    ensures written { (b : Behaviour F) (chain : List Profile) (whole : PlainApart) (touch : Touch) (low q : ℕ) (f : F) (v : PlainVersion) →
        KeepsProfile b → 1 ≤ q → low ≤ q → profile_at chain q ≡ Some (b.profile f) → HoldsNamed (b.profile f) touch → IsCarried chain whole touch low v →
        IsCarried chain whole touch (q + 1) (wrote_at q (stepped b v.fixed f (as_version v).values).written v) }
    ensures later { (chain : List Profile) (whole : PlainApart) (touch : Touch) (low high : ℕ) (v : PlainVersion) →
        low ≤ high → IsCarried chain whole touch low v → IsCarried chain whole touch high v }
    ensures room { (chain : List Profile) (whole : PlainApart) (touch : Touch) (low q : ℕ) (p : Profile) (v : PlainVersion) →
        1 ≤ q → low ≤ q → profile_at chain q ≡ Some p → p.adds ≡ true → IsCarried chain whole touch low v →
        IfSome (version_parts v Field.Tag) (λ tags. length tags.bytes + 4 ≤ tags.room) }
{
    values_stay_well_formed::<F>();
}

/// The branches of a lawful stage hold the fields that the functions at their positions name.
pub fn branches_hold_what_is_named()
    ensures { (chain : List Profile) (first j : ℕ) (stage : Stage) (branch : Branch) (touch : Touch) →
        IsLawfulStage chain first stage → 1 ≤ first → end_of first stage ≤ suc (length chain) → slice_get stage.branches j ≡ Some branch → slice_get stage.parts.touches j ≡ Some touch →
        Holds chain touch first (end_of first stage) branch.positions }
{
    lawful_stage_has_owners();
}

/// What a branch gets of a packet is what the law of graphs deals to it, and goes on from where the packet goes on.
pub fn dealt_versions_go_on()
    ensures same { (whole : PlainApart) (touch : Touch) → Live (as_version (dealt whole touch)) ≡ dealt_by_law touch (values_in whole) }
    ensures carried { (chain : List Profile) (whole : PlainApart) (touch : Touch) (first : ℕ) → GoesFrom chain first whole → IsCarried chain whole touch first (dealt whole touch) }
{
    written_is_made();
}

/// A packet of which each branch returned something, none of it short, ends after a stage as the law of graphs says. If
/// it goes on, it goes on from the next stage.
pub fn merged_packets_go_on()
    ensures from { (chain : List Profile) (whole base : PlainApart) (high : ℕ) (touches : List Touch) (arrivals : List Arrival) →
        AllCarried chain whole high touches arrivals → base ≡ based touches whole → IsWhole (packet_parts whole) whole.rest → AreFrom whole touches base arrivals }
    ensures end { (chain : List Profile) (whole base : PlainApart) (low high : ℕ) (touches : List Touch) (arrivals : List Arrival) →
        AllCarried chain whole high touches arrivals → AreFrom whole touches base arrivals → GoesFrom chain low whole → low ≤ high →
        as_end (merged base arrivals) ≡ merged_by_law (values_in whole) (map as_branch_end arrivals) }
    ensures leaves { (chain : List Profile) (whole base : PlainApart) (low high : ℕ) (touches : List Touch) (arrivals : List Arrival) →
        AllCarried chain whole high touches arrivals → AreFrom whole touches base arrivals → GoesFrom chain low whole → low ≤ high →
        LeavesStage chain high whole (merged base arrivals) }
{
    last_writer_is_greatest();
    merged_is_written_last();
}

/// The copies that are due for a packet at the branches of a lawful stage are those that the stage counts.
pub fn due_copies_are_counted()
    ensures modes { (chain : List Profile) (first : ℕ) (stage : Stage) → IsLawfulStage chain first stage → stage.parts.modes ≡ modes_of stage.parts.touches }
    ensures copies { (chain : List Profile) (first : ℕ) (stage : Stage) (whole : PlainApart) (f : Field) → IsLawfulStage chain first stage →
        copies_due stage.parts.touches f (packet_parts whole f) ≡ stage_copies stage whole f }
{}
