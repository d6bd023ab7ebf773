//! The law of streams: a burst ends after the nodes of a graph's stages as packets that walk through the chain.
ghost use Rattle.std.specs.Prelude.{◌≡◌, List, length, map};
ghost use Rattle.packet_fields.specs.declared.field.Field.{Field};
ghost use Rattle.chain_walk.specs.Counting.{quiet};
ghost use Rattle.graph_compile.specs.declared.graph.Graph.{Graph};
ghost use Rattle.merge_ops.specs.declared.merging.Merged.{Merged};
ghost use Rattle.burst_law.specs.Owned.{owned_by};
ghost use Rattle.burst_law.specs.Bursts.{chain_burst};
ghost use Rattle.burst_law.specs.Copies.{chain_copies};
ghost use Rattle.stream_law.specs.Rests.{KeepsRests};
ghost use Rattle.stream_law.specs.Messages.{as_message};
ghost use Rattle.stage_nodes.specs.Flows.{MayPassAll};
ghost use Rattle.stage_nodes.specs.Streams.{of_merged, as_merged, through, ends_of, copies_along};
ghost use Rattle.stream_law.specs.Owned.{owned_kit, owned_may};
ghost use Rattle.stream_law.specs.Ready.{IsReadyBurst};
ghost use Rattle.stream_law.specs.Listed.{graph_listed};
ghost use Rattle.stream_law.specs.Works.{works_of};

use burst_law::{burst_is_chain, copies_are_same, owned_is_whole};
use chain_walk::quiet_functions_keep_to_profiles;
use graph_compile::{lawful_graph_is_staged, lawful_stage_has_owners, stages_rise};
use graph_run::{
    branches_hold_what_is_named, dealt_versions_go_on, due_copies_are_counted,
    functions_keep_to_profiles, merged_packets_go_on, versions_go_on,
};
use merge_ops::{last_writer_is_greatest, merged_is_written_last};
use packet_function::Function;
use packet_version::shape_fits;

/// A burst of packets that is ready for a graph may go through the nodes of its stages, each branch with the functions
/// that it owns. The messages of the nodes are the burst that walks: the packets after the last stage and the functions
/// that are left are those of packets that walk through the chain one after another, and the dealers make as many
/// copies as the walks. Functions that count don't change meanwhile: their notes are settled after the burst
/// (`notes_are_settled_behind_bursts` of `burst_law`).
pub fn nodes_walk_the_chain<F: Function>()
    // each dealer, branch and merger may take what is due to it
    ensures pass { (graph : Graph) (functions : List F) (packets : List Merged) →
        IsReadyBurst (quiet F.behaviour) graph functions packets →
        MayPassAll (owned_kit (quiet F.behaviour) F.notes) (owned_may (quiet F.behaviour))
        (works_of (quiet F.behaviour) graph.stages (owned_by graph.stages functions) (length packets)) (map of_merged packets) }
    // of the functions that the walks leave, each branch is left with those that it owns
    ensures functions { (graph : Graph) (functions : List F) (packets : List Merged) →
        IsReadyBurst (quiet F.behaviour) graph functions packets →
        map (λ l. map (λ o. o.functions) l) (ends_of (owned_kit (quiet F.behaviour) F.notes)
        (works_of (quiet F.behaviour) graph.stages (owned_by graph.stages functions) (length packets)) (map of_merged packets))
        ≡ owned_by graph.stages (chain_burst (quiet F.behaviour) functions (map as_message packets)).state }
    // which are at the branch's positions
    ensures positions { (graph : Graph) (functions : List F) (packets : List Merged) →
        IsReadyBurst (quiet F.behaviour) graph functions packets →
        map (λ l. map (λ o. o.positions) l) (ends_of (owned_kit (quiet F.behaviour) F.notes)
        (works_of (quiet F.behaviour) graph.stages (owned_by graph.stages functions) (length packets)) (map of_merged packets))
        ≡ map (λ s. map (λ x. x.positions) s.branches) graph.stages }
    // and with what its functions noted of the packets, as it lists them
    ensures listed { (graph : Graph) (functions : List F) (packets : List Merged) →
        IsReadyBurst (quiet F.behaviour) graph functions packets →
        map (λ l. map (λ o. o.listed) l) (ends_of (owned_kit (quiet F.behaviour) F.notes)
        (works_of (quiet F.behaviour) graph.stages (owned_by graph.stages functions) (length packets)) (map of_merged packets))
        ≡ graph_listed (quiet F.behaviour) F.notes graph.stages (owned_by graph.stages functions) (map as_message packets) }
    // the packets end as those that walk
    ensures packets { (graph : Graph) (functions : List F) (packets : List Merged) →
        IsReadyBurst (quiet F.behaviour) graph functions packets →
        map as_message (map as_merged (through (owned_kit (quiet F.behaviour) F.notes)
        (works_of (quiet F.behaviour) graph.stages (owned_by graph.stages functions) (length packets)) (map of_merged packets)))
        ≡ (chain_burst (quiet F.behaviour) functions (map as_message packets)).gives }
    // there is one for each, none is short, and one that isn't gone has the rest of its frame without its fields
    ensures rests { (graph : Graph) (functions : List F) (packets : List Merged) →
        IsReadyBurst (quiet F.behaviour) graph functions packets →
        KeepsRests packets (map as_merged (through (owned_kit (quiet F.behaviour) F.notes)
        (works_of (quiet F.behaviour) graph.stages (owned_by graph.stages functions) (length packets)) (map of_merged packets))) }
    // and the dealers make as many copies as the walks
    ensures counted { (graph : Graph) (functions : List F) (packets : List Merged) (f : Field) →
        IsReadyBurst (quiet F.behaviour) graph functions packets →
        copies_along (owned_kit (quiet F.behaviour) F.notes)
        (works_of (quiet F.behaviour) graph.stages (owned_by graph.stages functions) (length packets)) (map of_merged packets) f
        ≡ chain_copies (quiet F.behaviour) graph.stages f functions (map as_message packets) }
{
    functions_keep_to_profiles::<F>();
    quiet_functions_keep_to_profiles::<F>();
    lawful_graph_is_staged();
    stages_rise();
    lawful_stage_has_owners();
    owned_is_whole::<F>();
    branches_hold_what_is_named();
    versions_go_on::<F>();
    dealt_versions_go_on();
    due_copies_are_counted();
    last_writer_is_greatest();
    merged_is_written_last();
    shape_fits();
    merged_packets_go_on();
    burst_is_chain::<F>();
    copies_are_same::<F>();
}
