//! The law of bursts, and laws on functions that are split and joined again, and on copies.
ghost use Rattle.std.specs.Prelude.{◌≡◌, ◌-◌, ℕ, List, length, map, slice_get, Some};
ghost use Rattle.packet_fields.specs.declared.field.Field.{Field};
ghost use Rattle.action_profile.specs.declared.parts.Touch.{Touch};
ghost use Rattle.chain_walk.specs.Step.{Behaviour};
ghost use Rattle.chain_walk.specs.Counting.{quiet, IsQuiet};
ghost use Rattle.chain_walk.specs.Laws.{KeepsProfile};
ghost use Rattle.chain_walk.specs.Notes.{Notes, CountsByNotes};
ghost use Rattle.chain_walk.specs.Packets.{Packet, fates, functions_after};
ghost use Rattle.graph_compile.specs.Facts.{IsLawful, IsFull};
ghost use Rattle.graph_compile.specs.declared.graph.Branch.{Branch};
ghost use Rattle.graph_compile.specs.declared.graph.Graph.{Graph};
ghost use Rattle.graph_compile.specs.declared.graph.Stage.{Stage};
ghost use Rattle.graph_law.specs.Branches.{BranchEnd};
ghost use Rattle.burst_law.specs.Stations.{Turn, across};
ghost use Rattle.burst_law.specs.Owned.{owned, owned_by};
ghost use Rattle.burst_law.specs.Bursts.{Message, behind, branch_stream, stage_streams, stage_burst, graph_burst, chain_burst};
ghost use Rattle.burst_law.specs.Copies.{graph_copies, chain_copies};
ghost use Rattle.burst_law.specs.Frames.{message_of, fates_of};
ghost use Rattle.chain_walk.specs.FieldWalk.{walk_fields};
ghost use Rattle.chain_walk.specs.Shown.{Values};
ghost use Rattle.chain_walk.specs.declared.fixed.Fixed.{Fixed};
ghost use Rattle.graph_law.specs.BranchNotes.{flow_notes, gone_before};
ghost use Rattle.graph_law.specs.Flow.{flow};
ghost use Rattle.burst_law.specs.Placed.{placed_by, settled_placed};
ghost use Rattle.burst_law.specs.Noting.{stream_notes, branch_settled, graph_settled, rows_listed, settled_listed};

use chain_walk::{frames_walk_as_fields, quiet_functions_keep_to_profiles};
use graph_law::{
    branches_note_as_the_walk, fields_stay, graph_is_chain, notes_are_settled_behind,
    profiles_stay, stage_reached,
};

/// A burst of packets that goes stage by stage through a lawful graph, each stage with a branch and each branch with a
/// function, where each branch owns its functions and takes all packets in their order, ends as packets that walk
/// through the chain one after another. Of the functions that the walks leave, each branch is left with those that it
/// owns.
pub fn burst_is_chain<F>()
    ensures chain { (b : Behaviour F) (graph : Graph) (functions : List F) (packets : List Message) →
        KeepsProfile b → IsQuiet b → IsLawful graph (map b.profile functions) → IsFull graph →
        ◌≡◌ {A = Turn (List (List (List F))) (List Message)}
        (graph_burst b graph.stages (owned_by graph.stages functions) packets)
        (record { state = owned_by graph.stages (chain_burst b functions packets).state; gives = (chain_burst b functions packets).gives }) }
    // the same graph is lawful for the functions that the walks leave
    ensures profiles { (b : Behaviour F) (graph : Graph) (functions : List F) (packets : List Message) →
        KeepsProfile b → IsQuiet b → IsLawful graph (map b.profile functions) → IsFull graph →
        map b.profile (chain_burst b functions packets).state ≡ map b.profile functions }
{
    graph_is_chain::<F>();
    profiles_stay::<F>();
    fields_stay::<F>();
    stage_reached::<F>();
}

/// The packets of a capture, whole frames, end as their fields in a burst that walks through the chain, and leave the
/// functions in the same states.
pub fn frames_walk_in_bursts<F>()
    ensures functions { (b : Behaviour F) (functions : List F) (packets : List Packet) → KeepsProfile b →
        functions_after b functions packets ≡ (chain_burst b functions (map message_of packets)).state }
    ensures fates { (b : Behaviour F) (functions : List F) (packets : List Packet) → KeepsProfile b →
        fates b functions packets ≡ fates_of packets (chain_burst b functions (map message_of packets)).gives }
{
    frames_walk_as_fields::<F>();
}

/// After a stage each packet is made of what the branches returned for it, and of nothing that they returned for
/// another, and each branch returns one result for each packet. So packets may be shared out by their places, and
/// merged in any order.
pub fn packets_merge_apart<F>()
    ensures arrivals { (b : Behaviour F) (stage : Stage) (own : List (List F)) (packets : List Message) (j : ℕ) (stream : List BranchEnd) →
        slice_get (stage_streams b stage own packets).gives j ≡ Some stream → length stream ≡ length packets }
    ensures count { (b : Behaviour F) (stage : Stage) (own : List (List F)) (packets : List Message) →
        length (stage_burst b stage own packets).gives ≡ length packets }
    ensures each { (b : Behaviour F) (stage : Stage) (own : List (List F)) (packets : List Message) (k : ℕ) (m : Message) →
        slice_get packets k ≡ Some m →
        slice_get (stage_burst b stage own packets).gives k ≡ Some (behind m (across k (stage_streams b stage own packets).gives)) }
{}

/// Functions that are split among the branches of a lawful graph are complete: none is lost, and if the same number of
/// functions is split into the same lists, they are the same functions.
pub fn owned_is_whole<F>()
    // a branch has the functions at its positions, one for each
    ensures count { (b : Behaviour F) (graph : Graph) (functions : List F) (i j : ℕ) (s : Stage) (x : Branch) →
        IsLawful graph (map b.profile functions) → slice_get graph.stages i ≡ Some s → slice_get s.branches j ≡ Some x →
        length (owned x.positions functions) ≡ length x.positions }
    ensures each { (b : Behaviour F) (graph : Graph) (functions : List F) (i j k q : ℕ) (s : Stage) (x : Branch) →
        IsLawful graph (map b.profile functions) → slice_get graph.stages i ≡ Some s → slice_get s.branches j ≡ Some x →
        slice_get x.positions k ≡ Some q → slice_get (owned x.positions functions) k ≡ slice_get functions (q - 1) }
    // and all branches together have all functions
    ensures whole { (b : Behaviour F) (graph : Graph) (functions others : List F) →
        IsLawful graph (map b.profile functions) → length others ≡ length functions →
        owned_by graph.stages others ≡ owned_by graph.stages functions → others ≡ functions }
{}

/// The copies that a burst makes stage by stage, of the packets that are still there, are those that each packet makes
/// in the stages that it reaches. Its walk through the chain determines these stages.
pub fn copies_are_same<F>()
    ensures { (b : Behaviour F) (graph : Graph) (f : Field) (functions : List F) (packets : List Message) →
        KeepsProfile b → IsQuiet b → IsLawful graph (map b.profile functions) → IsFull graph →
        graph_copies b graph.stages f (owned_by graph.stages functions) packets ≡ chain_copies b graph.stages f functions packets }
{
    graph_is_chain::<F>();
    profiles_stay::<F>();
    fields_stay::<F>();
    stage_reached::<F>();
}

/// A burst goes through a lawful graph with the counting of its functions left out. Each branch lists what its
/// functions note of the packets that arrive. After the burst, when it is known how each packet ends, the branch
/// settles those notes of a packet before whose position the packet wasn't dropped. It is then left with the functions
/// that it owns, in the states that packets leave that walk through the chain one after another.
pub fn notes_are_settled_behind_bursts<F, N>()
    // the packets end the same way, whether functions count or not
    ensures ends { (b : Behaviour F) (notes : Notes F N) (functions : List F) (packets : List Message) → KeepsProfile b → CountsByNotes b notes →
        (chain_burst b functions packets).gives ≡ (chain_burst (quiet b) functions packets).gives }
    // and by these ends the notes are settled
    ensures functions { (b : Behaviour F) (notes : Notes F N) (graph : Graph) (functions : List F) (packets : List Message) →
        KeepsProfile b → CountsByNotes b notes → IsLawful graph (map b.profile functions) → IsFull graph →
        graph_settled (quiet b) notes (chain_burst b functions packets).gives graph.stages (owned_by graph.stages functions) packets
        ≡ owned_by graph.stages (chain_burst b functions packets).state }
{
    graph_is_chain::<F>();
    profiles_stay::<F>();
    fields_stay::<F>();
    stage_reached::<F>();
    quiet_functions_keep_to_profiles::<F>();
    notes_are_settled_behind::<F, N>();
    branches_note_as_the_walk::<F, N>();
}

/// A branch that lists its notes one after another, each with the packet's place in the burst and the function's place
/// in the branch, may settle them one by one, in the order of the list.
pub fn notes_are_settled_as_listed<F, N>()
    ensures { (b : Behaviour F) (notes : Notes F N) (ends : List Message) (x : Branch × Touch) (functions : List F) (packets : List Message) →
        length functions ≡ length x.0.positions → length ends ≡ length packets →
        settled_listed notes x.0.positions ends (branch_stream b x functions packets).state (rows_listed 0 (stream_notes b notes x functions packets))
        ≡ branch_settled b notes ends x functions packets }
{}

/// One packet goes through a lawful graph with the counting of its functions left out. Its notes, each with the
/// position of its function, are settled among all functions of the chain once it is known how the packet ends. The
/// functions are then left as its walk leaves them.
pub fn notes_are_settled_by_position<F, N>()
    ensures { (b : Behaviour F) (notes : Notes F N) (fixed : Fixed) (graph : Graph) (functions : List F) (values : Values) →
        KeepsProfile b → CountsByNotes b notes → IsLawful graph (map b.profile functions) → IsFull graph →
        settled_placed notes (gone_before (flow (quiet b) fixed graph.stages values functions).end) (flow (quiet b) fixed graph.stages values functions).functions
        (placed_by graph.stages (flow_notes (quiet b) notes fixed graph.stages values functions))
        ≡ (walk_fields b fixed 1 functions values).functions }
{
    graph_is_chain::<F>();
    profiles_stay::<F>();
    fields_stay::<F>();
    stage_reached::<F>();
    quiet_functions_keep_to_profiles::<F>();
    notes_are_settled_behind::<F, N>();
    branches_note_as_the_walk::<F, N>();
}
