//! The law of graphs, and what else stays of functions and packets on the way.
ghost use Rattle.std.specs.Prelude.{◌≡◌, ◌++◌, ◌∷◌, ℕ, List, Some, None, length, map, slice_get, is_some, IsTrue};
ghost use Rattle.std.specs.List.{list_any};
ghost use Rattle.packet_fields.specs.declared.field.Field.{Field};
ghost use Rattle.action_profile.specs.declared.parts.Touch.{Touch};
ghost use Rattle.action_profile.specs.declared.rights.Profile.{Profile};
ghost use Rattle.chain_walk.specs.Shown.{Values};
ghost use Rattle.chain_walk.specs.Step.{Behaviour};
ghost use Rattle.chain_walk.specs.Counting.{quiet, IsQuiet};
ghost use Rattle.chain_walk.specs.Notes.{Notes, noted, CountsByNotes};
ghost use Rattle.chain_walk.specs.Packets.{Packet, fates, functions_after};
ghost use Rattle.chain_walk.specs.Laws.{KeepsProfile};
ghost use Rattle.chain_walk.specs.FieldWalk.{End.Out, End.Gone, Ended, walk_fields};
ghost use Rattle.chain_walk.specs.declared.fixed.Fixed.{Fixed};
ghost use Rattle.graph_compile.specs.Facts.{IsLawful, IsFull};
ghost use Rattle.graph_compile.specs.Positions.{stands};
ghost use Rattle.graph_compile.specs.declared.graph.Branch.{Branch};
ghost use Rattle.graph_compile.specs.declared.graph.Graph.{Graph};
ghost use Rattle.graph_compile.specs.declared.graph.Stage.{Stage};
ghost use Rattle.graph_law.specs.Branches.{BranchEnd, in_turn};
ghost use Rattle.graph_law.specs.BranchNotes.{flow_notes, gone_before, kept_by, taken_by};
ghost use Rattle.graph_law.specs.Flow.{branched, staged, flow};
ghost use Rattle.graph_law.specs.NotedWalk.{walk_notes, settled_all, packet_notes, settled_in_turn};

use chain_walk::{frames_walk_as_fields, quiet_functions_keep_to_profiles};
use dependency_table::beside_is_independent;
use graph_compile::{lawful_graph_is_staged, lawful_stage_has_owners, stages_rise};

/// A packet that goes through the stages of a lawful graph, each with a branch and each branch with a function, ends as
/// one that walks through the functions of the chain one after another, and the functions are left in the same states.
/// No function that counts changes here: what it notes of a packet is settled after the graph.
pub fn graph_is_chain<F>()
    ensures { (b : Behaviour F) (fixed : Fixed) (graph : Graph) (functions : List F) (values : Values) →
        KeepsProfile b → IsQuiet b → IsLawful graph (map b.profile functions) → IsFull graph →
        ◌≡◌ {A = Ended F} (flow b fixed graph.stages values functions) (walk_fields b fixed 1 functions values) }
{
    lawful_graph_is_staged();
    lawful_stage_has_owners();
    stages_rise();
    beside_is_independent();
}

/// Functions keep their profiles, and none is lost or new, whatever the positions, branches and stages
/// that a packet goes through: the next packet finds functions for which the same graph is lawful.
pub fn profiles_stay<F>()
    // the functions of one branch, whatever arrives
    ensures branch { (b : Behaviour F) (fixed : Fixed) (positions : List ℕ) (functions : List F) (arrival : BranchEnd) →
        KeepsProfile b → map b.profile (in_turn b fixed positions functions arrival).functions ≡ map b.profile functions }
    ensures branch_length { (b : Behaviour F) (fixed : Fixed) (positions : List ℕ) (functions : List F) (arrival : BranchEnd) →
        length (in_turn b fixed positions functions arrival).functions ≡ length functions }
    // the branches of a stage
    ensures stage { (b : Behaviour F) (fixed : Fixed) (branches : List Branch) (touches : List Touch) (functions : List F) (values : Values) →
        KeepsProfile b → map b.profile (branched b fixed branches touches values functions).functions ≡ map b.profile functions }
    ensures stage_length { (b : Behaviour F) (fixed : Fixed) (branches : List Branch) (touches : List Touch) (functions : List F) (values : Values) →
        length (branched b fixed branches touches values functions).functions ≡ length functions }
    // all stages
    ensures graph { (b : Behaviour F) (fixed : Fixed) (stages : List Stage) (functions : List F) (values : Values) →
        KeepsProfile b → map b.profile (flow b fixed stages values functions).functions ≡ map b.profile functions }
    ensures graph_length { (b : Behaviour F) (fixed : Fixed) (stages : List Stage) (functions : List F) (values : Values) →
        length (flow b fixed stages values functions).functions ≡ length functions }
{}

/// A packet that comes out has the fields with which it came in, and no others. Their values may be new.
pub fn fields_stay<F>()
    // through the chain
    ensures chain { (b : Behaviour F) (fixed : Fixed) (position : ℕ) (functions : List F) (values after : Values) (f : Field) →
        KeepsProfile b → (walk_fields b fixed position functions values).end ≡ Out after → is_some (after f) ≡ is_some (values f) }
    // through a stage, lawful or not
    ensures stage { (b : Behaviour F) (fixed : Fixed) (stage : Stage) (functions : List F) (values after : Values) (f : Field) →
        KeepsProfile b → (staged b fixed stage values functions).end ≡ Out after → is_some (after f) ≡ is_some (values f) }
    // through all stages
    ensures graph { (b : Behaviour F) (fixed : Fixed) (stages : List Stage) (functions : List F) (values after : Values) (f : Field) →
        KeepsProfile b → (flow b fixed stages values functions).end ≡ Out after → is_some (after f) ≡ is_some (values f) }
{}

/// A packet that is gone after a stage was dropped there: the position at which it is gone is in the stage.
pub fn stage_reached<F>()
    ensures stage { (b : Behaviour F) (fixed : Fixed) (stage : Stage) (functions : List F) (values : Values) (position : ℕ) →
        (staged b fixed stage values functions).end ≡ Gone position → IsTrue (stands position stage) }
    ensures graph { (b : Behaviour F) (fixed : Fixed) (stages : List Stage) (functions : List F) (values : Values) (position : ℕ) →
        (flow b fixed stages values functions).end ≡ Gone position → IsTrue (list_any (stands position) stages) }
{}

/// Packets walk through functions that count as they walk without the counting, and what each of these functions noted
/// of a packet may be settled after all of them, packet by packet. A function noted what it saw of the packet if no
/// function before it dropped the packet, and nothing otherwise.
pub fn notes_are_settled_behind<F, N>()
    ensures fates { (b : Behaviour F) (notes : Notes F N) (functions : List F) (packets : List Packet) → KeepsProfile b → CountsByNotes b notes →
        fates b functions packets ≡ fates (quiet b) functions packets }
    ensures functions { (b : Behaviour F) (notes : Notes F N) (functions : List F) (packets : List Packet) → KeepsProfile b → CountsByNotes b notes →
        functions_after b functions packets ≡ settled_in_turn notes (functions_after (quiet b) functions packets) (packet_notes (quiet b) notes functions packets) }
    // of one packet, by its fields
    ensures fields { (b : Behaviour F) (notes : Notes F N) (fixed : Fixed) (position : ℕ) (functions : List F) (values : Values) → CountsByNotes b notes →
        ◌≡◌ {A = Ended F} (walk_fields b fixed position functions values)
        (record { functions = settled_all notes (walk_fields (quiet b) fixed position functions values).functions (walk_notes (quiet b) notes fixed functions values); end = (walk_fields (quiet b) fixed position functions values).end }) }
    // one note, which may be `None`, for each function
    ensures count { (b : Behaviour F) (notes : Notes F N) (fixed : Fixed) (functions : List F) (values : Values) →
        length (walk_notes b notes fixed functions values) ≡ length functions }
    // it notes a packet by the values with which the functions before it pass the packet on
    ensures reached { (b : Behaviour F) (notes : Notes F N) (fixed : Fixed) (position : ℕ) (first : List F) (f : F) (later : List F) (values after : Values) →
        (walk_fields b fixed position first values).end ≡ Out after →
        slice_get (walk_notes b notes fixed (first ++ f ∷ later) values) (length first) ≡ Some (noted b notes fixed f after) }
    // what one of them drops, it doesn't note
    ensures dropped { (b : Behaviour F) (notes : Notes F N) (fixed : Fixed) (position : ℕ) (first : List F) (f : F) (later : List F) (values : Values) (dropped : ℕ) →
        (walk_fields b fixed position first values).end ≡ Gone dropped →
        slice_get (walk_notes b notes fixed (first ++ f ∷ later) values) (length first) ≡ Some None }
{
    frames_walk_as_fields::<F>();
    quiet_functions_keep_to_profiles::<F>();
}

/// The notes of functions on a packet's way through a lawful graph, each by the version that its branch has, are their
/// notes in the walk, except those at positions before which the packet was dropped: these are discarded, and all
/// others are settled.
pub fn branches_note_as_the_walk<F, N>()
    ensures { (b : Behaviour F) (notes : Notes F N) (fixed : Fixed) (graph : Graph) (functions : List F) (values : Values) →
        KeepsProfile b → IsQuiet b → IsLawful graph (map b.profile functions) → IsFull graph →
        kept_by (gone_before (walk_fields b fixed 1 functions values).end) graph.stages (flow_notes b notes fixed graph.stages values functions)
        ≡ taken_by graph.stages (walk_notes b notes fixed functions values) }
{
    lawful_graph_is_staged();
    lawful_stage_has_owners();
    stages_rise();
    beside_is_independent();
}
