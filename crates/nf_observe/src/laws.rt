//! Properties of the counts of flows and of token buckets.
ghost use Rattle.std.specs.Prelude.{◌≡◌, ℕ, ◌+◌, ◌-◌, ◌*◌, ◌≤◌, List, [], ◌∷◌, ◌++◌, true, false, is_some, if◌then◌else◌, ◌↔◌, Some};
ghost use Rattle.std.specs.Map.{keys_of};
ghost use Rattle.std.specs.declared.net.ip_addr.IpAddr.{IpAddr};
ghost use Rattle.nf_observe.specs.Buckets.{tokens_of, full, filled, affords, paid};
ghost use Rattle.nf_observe.specs.Counting.{Sight, flows_with, counts_of, of_flow, totals};
ghost use Rattle.first_sight.specs.FirstSight.{belonging};
ghost use Rattle.frame_seen.specs.Seeing.{source_address};
ghost use Rattle.chain_walk.specs.Shown.{Shown};
ghost use Rattle.chain_walk.specs.declared.verdict.Verdict.{Verdict};
ghost use Rattle.first_sight.specs.SameAddress.{is_same_address};
ghost use Rattle.nf_observe.specs.Flows.{counted};
ghost use Rattle.packet_function.specs.SameFlow.{is_same_flow};
ghost use Rattle.packet_function.specs.declared.deciding.DecidingLine.{DecidingLine};
ghost use Rattle.packet_function.specs.declared.deciding.SettingKey.{SettingKey};
ghost use Rattle.nf_observe.specs.Spending.{Arrival, left_by, bytes_paid, bytes_of, IsConforming, IsWithinRate};
ghost use Rattle.nf_observe.specs.Limiters.{limited, bucket_of, verdict_by, limiter_step, limiter_decides};
ghost use Rattle.nf_observe.specs.declared.limiter.Limiter.{Limiter};
ghost use Rattle.nf_observe.specs.declared.bucket.TokenBucket.{TokenBucket};
ghost use Rattle.packet_function.specs.declared.flow.FiveTuple.{FiveTuple};
ghost use Rattle.nf_observe.specs.declared.flow.FlowCounts.{FlowCounts};

use crate::bucket::TokenBucket;
use crate::flow::FlowCounts;
use first_sight::noted_is_found;
use packet_function::FiveTuple;
use std::net::IpAddr;

/// The counts of each flow are those of its packets and their bytes, whatever comes in between. A known flow keeps its
/// place, and a new one goes last.
pub fn flows_count_their_packets()
    ensures counts { (packets : List Sight) (flow : FiveTuple) → counts_of (flows_with [] packets) flow ≡ totals (of_flow flow packets) }
    ensures order { (flows : List (FiveTuple × FlowCounts)) (flow : FiveTuple) (bytes : ℕ) →
        keys_of (counted flows flow bytes) ≡ (if is_some (belonging is_same_flow flows flow) then keys_of flows else keys_of flows ++ flow ∷ []) }
{
    noted_is_found::<FiveTuple, FlowCounts>();
}

/// What a bucket pays for in a row of packets, with what is left in it, is no more than what it held and what came
/// meanwhile at the rate. So a new source sends no more than a burst and what comes at the rate up to its last packet,
/// and in any later row of packets no more than a burst and what comes at the rate from the first of them to the last.
pub fn buckets_keep_the_rate()
    ensures all { (rate burst : ℕ) (b : TokenBucket) (packets : List Arrival) → IsWithinRate rate b (left_by rate burst b packets) (bytes_paid rate burst b packets) }
    ensures new { (rate burst time : ℕ) (packets : List Arrival) →
        tokens_of (bytes_paid rate burst (full burst time) packets) ≤ tokens_of burst + ((left_by rate burst (full burst time) packets).moment - time) * rate }
    ensures any_row { (rate burst time : ℕ) (earlier : List Arrival) (first : Arrival) (later : List Arrival) →
        tokens_of (bytes_paid rate burst (left_by rate burst (full burst time) earlier) (first ∷ later)) ≤
        tokens_of burst + ((left_by rate burst (full burst time) (earlier ++ first ∷ later)).moment - first.0) * rate }
{}

/// A source that keeps to its rate loses nothing. Take packets of which any row, from one packet to a later one, has no
/// more bytes than a burst and what came meanwhile at the rate: a bucket that is new at the first pays for all of them.
pub fn conforming_sources_pass()
    ensures { (rate burst : ℕ) (first : Arrival) (later : List Arrival) → IsConforming rate burst (first ∷ later) →
        bytes_paid rate burst (full burst first.0) (first ∷ later) ≡ bytes_of (first ∷ later) }
{}

/// Each source has a bucket of its own, and only this bucket decides on its packets and pays for them: packets from one
/// source leave the buckets of all others unchanged. An address of IPv4 and one of IPv6 are two sources.
pub fn sources_have_their_own_buckets()
    ensures decides { (l : Limiter) (source : IpAddr) (bytes time : ℕ) → (limited l source bytes time).verdict ≡ verdict_by (affords (bucket_of l source time) bytes) }
    ensures pays { (l : Limiter) (source same : IpAddr) (bytes time later : ℕ) → is_same_address same source ≡ true →
        bucket_of (limited l source bytes time).after same later ≡ filled l.rate l.burst later (paid (bucket_of l source time) bytes) }
    ensures others { (l : Limiter) (source other : IpAddr) (bytes time later : ℕ) → is_same_address other source ≡ false →
        bucket_of (limited l source bytes time).after other later ≡ bucket_of l other later }
{
    noted_is_found::<IpAddr, TokenBucket>();
}

/// A limiter drops a packet exactly where its `set rate` decides, and no line decides on any other packet. `set rate`
/// decides exactly where the bucket of the source doesn't pay for the packet.
pub fn set_rate_decides_drops()
    ensures drops { (l : Limiter) (shown : Shown) →
        (limiter_decides l shown ≡ DecidingLine.Set SettingKey.Rate ∷ []) ↔ ((limiter_step l shown).verdict ≡ Verdict.Drop) }
    ensures passes { (l : Limiter) (shown : Shown) → (limiter_decides l shown ≡ []) ↔ ((limiter_step l shown).verdict ≡ Verdict.Pass) }
    ensures unpaid { (l : Limiter) (shown : Shown) (source : IpAddr) (bytes : ℕ) →
        source_address shown.values ≡ Some source → shown.fixed.ip_len ≡ Some bytes →
        (limiter_decides l shown ≡ DecidingLine.Set SettingKey.Rate ∷ []) ↔ (affords (bucket_of l source shown.fixed.time) bytes ≡ false) }
{}
