//! The law of frames: if the packets of a burst walk in parts, their frames end as whole frames that walk.
ghost use Rattle.std.specs.Prelude.{◌≡◌, ℕ, List, All, map};
ghost use Rattle.burst_law.specs.Copies.{chain_copies};
ghost use Rattle.chain_walk.specs.Packets.{Packet, fates};
ghost use Rattle.chain_walk.specs.declared.walk.Fate.{Fate};
ghost use Rattle.graph_run.specs.Counting.{RaisesUpTo, copies_made};
ghost use Rattle.graph_run.specs.Leading.{Leads};
ghost use Rattle.graph_run.specs.Rooms.{adders_from};
ghost use Rattle.graph_run.specs.Running.{PlainRunning, profiles_of};
ghost use Rattle.merge_ops.specs.Fates.{fate_behind};
ghost use Rattle.merge_ops.specs.declared.merging.Merged.{Merged};
ghost use Rattle.stream_law.specs.Apart.{all_apart};
ghost use Rattle.stream_law.specs.Ended.{HasEnded};
ghost use Rattle.stream_law.specs.Messages.{as_message};
ghost use Rattle.stream_law.specs.Ready.{AllEnter, Fits};

use burst_law::frames_walk_in_bursts;
use chain_walk::{frames_are_built_again, packets_walk_in_a_row, values_stay_well_formed};
use graph_run::functions_keep_to_profiles;
use packet_function::Function;
use packet_version::frames_come_apart;

/// Packets of a burst that were taken apart, with room for a tag of each function that adds one, may enter the first
/// stage. If they end as packets in parts that walk through the chain, their frames end as whole frames that walk.
pub fn bursts_in_parts_lead<F: Function>()
    ensures enter { (functions : List F) (packets : List Packet) →
        AllEnter (profiles_of F.behaviour functions) 1 (all_apart (adders_from (profiles_of F.behaviour functions) 1) packets) }
    ensures fits { (taggers : ℕ) (packets : List Packet) → All Fits (all_apart taggers packets) }
    ensures leads { (run after : PlainRunning F) (packets : List Packet) (behind : List Merged) (ended : List Fate) (old new : List ℕ) →
        HasEnded F.behaviour run (all_apart (adders_from (profiles_of F.behaviour run.functions) 1) packets) after.functions behind old new →
        after.graph ≡ run.graph → ended ≡ map fate_behind behind → Leads F.behaviour run packets old new after ended }
    // if memory runs out on the way, at most the copies of the walks were made
    ensures refused { (run : PlainRunning F) (packets : List Packet) (old new : List ℕ) →
        RaisesUpTo (λ f. chain_copies F.behaviour run.graph.stages f run.functions (map as_message (all_apart (adders_from (profiles_of F.behaviour run.functions) 1) packets))) old new →
        RaisesUpTo (copies_made run.graph.stages packets (fates F.behaviour run.functions packets)) old new }
{
    functions_keep_to_profiles::<F>();
    frames_walk_in_bursts::<F>();
    frames_are_built_again::<F>();
    values_stay_well_formed::<F>();
    packets_walk_in_a_row::<F>();
    frames_come_apart();
}
