//! What is reported of packets, and where they end in a run.
ghost use Rattle.std.specs.Prelude.{◌≡◌, List, map};
ghost use Rattle.capture_bytes.specs.declared.packet.PcapRecord.{PcapRecord};
ghost use Rattle.capture_bytes.specs.declared.packet.Unit.{Unit as TimeUnit};
ghost use Rattle.policy_chains.specs.Fates.{fates_of};
ghost use Rattle.policy_chains.specs.Services.{Chains};
ghost use Rattle.plain_chains.specs.PacketWays.{ways_of};

use policy_chains::NamedFunction;
use traced_walk::the_ways_are_the_walk;

/// A law: each packet ends where a run of the policy lets it end.
#[tactic(auto, unfolding(policy_chains::specs::Fates::fates_of))]
pub fn packets_end_as_with_run()
    ensures { (chains : Chains) → (unit : TimeUnit) → (records : List PcapRecord) → map (λ way. way.fate) (ways_of chains unit records) ≡ fates_of chains unit records }
{
    the_ways_are_the_walk::<NamedFunction>();
}
