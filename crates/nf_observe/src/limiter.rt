//! A limiter, and the packets that it passes.

mod build;
mod lines;

use crate::bucket::TokenBucket;
use chain_walk::Verdict;
use first_sight::FirstSeen;
use frame_seen::seen_ip_address;
pub use lines::LimiterLine;
use packet_fields::Field;
use packet_function::{DecidingLine, SettingKey};
use packet_version::{View, unwritten_stays};
use std::alloc::AllocError;
use std::net::IpAddr;

/// Drops what a source sends beyond a rate.
#[derive(Debug, Drop)]
pub struct Limiter {
    /// The rate in bytes a second.
    pub rate: u32,
    /// The number of bytes that a source may send at once after it was quiet.
    pub burst: u32,
    /// The bucket of each source, in the order of first sight. An address of IPv4 is never one of IPv6.
    pub sources: FirstSeen<IpAddr, TokenBucket>,
}

impl Limiter {
    ghost use Rattle.std.specs.Prelude.{◌≡◌, ◌<◌, ◌++◌, [], ◌∷◌, length, slice_index_or, position, if◌then◌else◌, IsOk, OnOk, OnErr, IfOk};
    ghost use Rattle.std.specs.List.{flat_map};
    ghost use Rattle.std.specs.Map.{keys_of};
    ghost use Rattle.chain_walk.specs.Step.{is_drop};
    ghost use Rattle.packet_version.specs.Views.{seen_values, viewed, wrote_all};
    ghost use Rattle.packet_function.specs.Deciding.{decided};
    ghost use Rattle.packet_function.specs.declared.deciding.DecidingLine.{DecidingLine};
    ghost use Rattle.packet_function.specs.declared.deciding.SettingKey.{SettingKey};
    ghost use Rattle.first_sight.specs.FirstSight.{noted, seen_with};
    ghost use Rattle.first_sight.specs.SameAddress.{is_same_address};
    ghost use Rattle.nf_observe.specs.Limiters.{limiter_behaviour, limiter_decides, limiter_text, bucket_of, limited};
    ghost use Rattle.nf_observe.specs.StateRows.{limiter_rows};

    /// Judges one packet, which it sees through a view of a limiter's profile. It writes nothing. If there is no memory
    /// for a new source, nothing changes.
    pub fn step(&mut self, view: &mut View) -> Result<Verdict, AllocError>
        requires profile { view.old.profile ≡ limiter_behaviour.profile self.old }
        ensures after { OnOk result (self.new ≡ (viewed limiter_behaviour self.old view.old).after) }
        ensures verdict { IfOk result (λ verdict. verdict ≡ (viewed limiter_behaviour self.old view.old).verdict) }
        ensures view { OnOk result (view.new ≡ wrote_all (viewed limiter_behaviour self.old view.old).written view.old) }
        // If memory runs out, nothing has changed.
        ensures function_stays { OnErr result (self.new ≡ self.old) }
        ensures view_stays { OnErr result (view.new ≡ view.old) }
        // Only one more line of its state, that of a new source, needs memory.
        ensures known { length (limiter_rows (viewed limiter_behaviour self.old view.old).after) ≡ length (limiter_rows self.old) → IsOk result }
    {
        // Nothing is written, so the view is as it was.
        unwritten_stays(view);
        match (source_in(view), view.ip_len()) {
            (Some(source), Some(bytes)) => self.charge(source, bytes, view.time()),
            _ => Ok(Verdict::Pass),
        }
    }

    /// Appends the line that decides what it does to one packet in its present state, which it sees through a view of a
    /// limiter's profile: `set rate` if it drops the packet, and none otherwise. If memory runs out, it appends nothing.
    pub fn decide(&self, view: &View, deciding: &mut Vec<DecidingLine>) -> Result<(), AllocError>
        requires profile { view.now.profile ≡ limiter_behaviour.profile self.now }
        ensures decided { OnOk result (deciding.new.items ≡
            deciding.old.items ++ decided limiter_behaviour limiter_decides view.now.version.fixed self.now (seen_values view.now)) }
        ensures stays { OnErr result (deciding.new.items ≡ deciding.old.items) }
    {
        match (source_in(view), view.ip_len()) {
            (Some(source), Some(bytes)) => self.decide_on(source, bytes, view.time(), deciding),
            _ => Ok(()),
        }
    }

    // Appends `set rate` if the bucket of the source doesn't pay for a packet of `bytes` bytes.
    fn decide_on(
        &self,
        source: IpAddr,
        bytes: u16,
        time: u64,
        deciding: &mut Vec<DecidingLine>,
    ) -> Result<(), AllocError>
        ensures decided { OnOk result (deciding.new.items ≡
            deciding.old.items ++ (if is_drop (limited self.now source bytes time).verdict then DecidingLine.Set SettingKey.Rate ∷ [] else [])) }
        ensures stays { OnErr result (deciding.new.items ≡ deciding.old.items) }
    {
        let (_, bucket) = self.place_and_bucket(source, time);
        if bucket.affords(bytes) {
            return Ok(());
        }
        deciding.push(DecidingLine::Set(SettingKey::Rate))?;
        Ok(())
    }

    /// Appends the lines of its state, one for each source. If memory runs out, it appends nothing.
    pub fn state_lines(&self, out: &mut Vec<u8>) -> Result<(), AllocError>
        ensures lines { OnOk result (out.new.items ≡ out.old.items ++ limiter_text self.now) }
        ensures stays { OnErr result (out.new.items ≡ out.old.items) }
    {
        self.sources.push_lines(self, out)
    }

    /// The number of lines of its state: one for each source.
    pub fn state_count(&self) -> usize
        ensures count { result ≡ length (limiter_rows self.now) }
        ensures told { flat_map (λ row. row) (limiter_rows self.now) ≡ limiter_text self.now }
    {
        self.sources.line_count(self)
    }

    /// Appends the line of its state at a place, counted from 0. If memory runs out, it appends nothing.
    pub fn state_line(&self, place: usize, out: &mut Vec<u8>) -> Result<(), AllocError>
        requires inside { place < length (limiter_rows self.now) }
        ensures line { OnOk result (out.new.items ≡ out.old.items ++ slice_index_or (limiter_rows self.now) place []) }
        ensures stays { OnErr result (out.new.items ≡ out.old.items) }
    {
        self.sources.push_line(self, place, out)
    }

    // Passes a packet of `bytes` bytes if the source's bucket pays for it.
    fn charge(&mut self, source: IpAddr, bytes: u16, time: u64) -> Result<Verdict, AllocError>
        ensures after { OnOk result (self.new ≡ (limited self.old source bytes time).after) }
        ensures verdict { IfOk result (λ verdict. verdict ≡ (limited self.old source bytes time).verdict) }
        ensures stays { OnErr result (self.new ≡ self.old) }
        ensures known { length (limiter_rows (limited self.old source bytes time).after) ≡ length (limiter_rows self.old) → IsOk result }
    {
        let (place, bucket) = self.place_and_bucket(source, time);
        self.note(place, source, bucket.paid(bytes))?;
        Ok(verdict(bucket.affords(bytes)))
    }

    // The place of a source, if it was seen, and its bucket at this time. The bucket of a new source is full.
    fn place_and_bucket(&self, source: IpAddr, time: u64) -> (Option<usize>, TokenBucket)
        ensures place { result.0 ≡ position (is_same_address source) (keys_of self.now.sources) }
        ensures bucket { result.1 ≡ bucket_of self.now source time }
    {
        match self.sources.find(&source) {
            Some((place, bucket)) => (Some(place), bucket.filled(self.rate, self.burst, time)),
            None => (None, TokenBucket::full(self.burst, time)),
        }
    }

    // Gives a source this bucket. `place` is that of a source that was seen, which is not looked for again.
    fn note(
        &mut self,
        place: Option<usize>,
        source: IpAddr,
        bucket: TokenBucket,
    ) -> Result<(), AllocError>
        requires place { place ≡ position (is_same_address source) (keys_of self.old.sources) }
        ensures noted { OnOk result (self.new ≡ record self.old { sources = noted is_same_address self.old.sources source bucket }) }
        ensures stays { OnErr result (self.new ≡ self.old) }
        ensures known { length (seen_with is_same_address (keys_of self.old.sources) source) ≡ length (keys_of self.old.sources) → IsOk result }
    {
        match place {
            Some(place) => self.sources.renew(&source, place, bucket),
            None => {
                self.sources.note(source, bucket)?;
            }
        }
        Ok(())
    }
}

ghost use Rattle.std.specs.Prelude.{◌≡◌};
ghost use Rattle.action_profile.specs.Profiles.{profile_of};
ghost use Rattle.action_profile.specs.declared.kind.Kind.{Kind};
ghost use Rattle.frame_seen.specs.Seeing.{source_address};
ghost use Rattle.packet_version.specs.Views.{seen_values};
ghost use Rattle.nf_observe.specs.Limiters.{verdict_by};

fn verdict(affords: bool) -> Verdict
    ensures { result ≡ verdict_by affords }
{
    if affords {
        Verdict::Pass
    } else {
        Verdict::Drop
    }
}

/// The source of the packet of a view.
fn source_in(view: &View) -> Option<IpAddr>
    requires profile { view.now.profile ≡ profile_of Kind.Limiter }
    ensures { result ≡ source_address (seen_values view.now) }
{
    seen_ip_address(view.get(Field::SrcIp))
}
