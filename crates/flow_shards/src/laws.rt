//! Properties of the counts of flows, stated without the definitions.
ghost use Rattle.std.specs.Prelude.{◌≡◌, ◌≤◌, ◌<◌, ◌++◌, ℕ, List, [], true, map, filter, filter_map, fold};
ghost use Rattle.capture_bytes.specs.declared.packet.Unit.{Unit as TimeUnit};
ghost use Rattle.classifier.specs.declared.burst.Item.{Item};
ghost use Rattle.flow_line.specs.declared.key.FlowKey.{FlowKey};
ghost use Rattle.packet_function.specs.declared.flow.FiveTuple.{FiveTuple};
ghost use Rattle.packet_function.specs.SameFlow.{is_same_flow};
ghost use Rattle.nf_observe.specs.Counting.{flows_with};
ghost use Rattle.flow_shards.specs.Flows.{counted_all, flows_from, key_of, sight_of};
ghost use Rattle.flow_shards.specs.InOrderOfTime.{AreInOrderOfTime, counted_to_last};
ghost use Rattle.flow_shards.specs.Sharding.{in_shard, is_own, shard_of};
ghost use Rattle.flow_shards.specs.Monitoring.{counts_in, shown};
ghost use Rattle.flow_shards.specs.declared.sight.Sight.{Sight};

/// A flow is in exactly one shard, and a shard's lines are the counts of the packets of its own flows alone, as if
/// there were no others.
#[tactic(auto, using(crate::proofs::SameKeys::same_shard, crate::proofs::Monitored::inside_shards, crate::proofs::OwnPackets::own_counted))]
pub fn flows_have_one_shard()
    ensures one { (workers : ℕ) (a b : FiveTuple) → is_same_flow a b ≡ true → shard_of workers (key_of a) ≡ shard_of workers (key_of b) }
    ensures there { (workers : ℕ) (key : FlowKey) → 1 ≤ workers → shard_of workers key < workers }
    ensures own { (workers worker : ℕ) (sights : List Sight) → filter (in_shard workers worker) (counted_all [] sights) ≡ counted_all [] (filter (is_own workers worker) sights) }
{}

/// Flows, packets and bytes are those that one monitor counts on the same packets.
#[tactic(auto, using(crate::proofs::Monitored::monitored))]
pub fn lines_are_a_monitors()
    ensures { (unit : TimeUnit) (items : List Item) → map counts_in (flows_from unit [] items) ≡ flows_with [] (map shown (filter_map (sight_of unit) items)) }
{}

/// If no packet is earlier than one before it, the least time of a flow is that of its first packet, and the greatest
/// that of its last.
#[tactic(auto, using(crate::proofs::Timely::last_packets_end))]
pub fn first_and_last_packets_bound_flows()
    ensures { (sights : List Sight) → AreInOrderOfTime 0 sights → counted_all [] sights ≡ fold counted_to_last [] sights }
{}

/// The counts don't depend on how packets are cut into bursts.
#[tactic(auto, using(crate::proofs::Monitored::goes_on))]
pub fn bursts_go_on()
    ensures { (unit : TimeUnit) (first later : List Item) → flows_from unit (flows_from unit [] first) later ≡ flows_from unit [] (first ++ later) }
{}
