//! The time that either way took, and the choice.

use crate::way::Way;

/// The number of packets with which threads are tried.
const ON_THREADS: u32 = 8_192;

/// The number of packets with which one thread is tried.
const ALONE: u32 = 2_048;

/// The number of packets that then run in the better way.
const CHOSEN: u32 = 514_048;

/// The greatest number of packets in the first burst on threads, and the number of packets that are tried first on one
/// thread.
const FIRST: u32 = 1_024;

/// Threads that take this many times as long as one thread are hopeless, and no more bursts try them.
const HOPELESS: u64 = 4;

/// A packet that takes fewer nanoseconds on one thread is light: passing it from thread to thread costs more than
/// threads save.
const LIGHT: u64 = 4_000;

/// The ways to run a burst.
#[derive(Clone, Copy, PartialEq, Eq, Debug)]
pub enum Lead {
    /// The branches of its stages run side by side, each on a thread of its own if one can be started. A branch that
    /// neither keeps a state nor counts has a thread for each merger.
    Threads,
    /// All of it runs on the caller's thread.
    Alone,
}

/// The parts of a round.
#[derive(Clone, Copy, PartialEq, Eq, Debug)]
pub enum Part {
    /// One burst runs on threads.
    FirstOnThreads,
    /// Bursts run on one thread, until its time is known.
    FirstAlone,
    /// If threads aren't hopeless, bursts run on threads, whatever is known.
    MoreOnThreads,
    /// Then bursts run on one thread.
    MoreAlone,
    /// Bursts run in the way that was better.
    Chosen,
}

/// The time of a packet in either way, as measured on bursts, and the state of the round.
#[derive(Clone, Copy, PartialEq, Eq, Debug)]
pub struct Pace {
    /// On threads.
    pub threads: Way,
    /// On one thread.
    pub alone: Way,
    /// The part of the round to which the next burst belongs.
    pub part: Part,
    /// The number of packets of this part so far.
    pub packets: u32,
    /// The nanoseconds that these packets took.
    pub nanos: u64,
}

ghost use Rattle.std.specs.Prelude.{◌≡◌, ◌<◌, ◌/◌, Some, None};
ghost use Rattle.pace.specs.Pacing.{after, after_burst_alone, after_burst_on_threads, after_on_threads, are_hopeless, are_light, better, have_failed, is_light, is_over, lead_of, left, most, next_part, pays, size};
ghost use Rattle.pace.specs.declared.pace.Lead.{Lead};
ghost use Rattle.pace.specs.declared.pace.Part.{Part};

impl Pace {
    /// A pace with neither way tried.
    pub fn new() -> Pace
        ensures { result ≡ record { threads = record { each = None; packets = 0; nanos = 0 }; alone = record { each = None; packets = 0; nanos = 0 }; part = Part.FirstOnThreads; packets = 0; nanos = 0 } }
    {
        Pace {
            threads: Way::new(),
            alone: Way::new(),
            part: Part::FirstOnThreads,
            packets: 0,
            nanos: 0,
        }
    }

    /// The way of the next burst.
    pub fn lead(&self) -> Lead
        ensures { result ≡ lead_of self.now }
    {
        match self.part {
            Part::FirstOnThreads | Part::MoreOnThreads => Lead::Threads,
            Part::FirstAlone | Part::MoreAlone => Lead::Alone,
            Part::Chosen => self.better(),
        }
    }

    /// The greatest number of packets to run in that way before `lead` is called again.
    pub fn most(&self) -> u32
        ensures most { result ≡ most self.now }
        ensures some { 0 < result }
    {
        match (self.part, self.threads.each) {
            (Part::MoreOnThreads, None) => FIRST,
            (part, _) => size(part),
        }
    }

    /// The better way, as far as it is known.
    fn better(&self) -> Lead
        ensures { result ≡ better self.now.threads.each self.now.alone.each }
    {
        match (self.threads.each, self.alone.each) {
            (Some(threads), Some(alone)) if !pays(threads, alone) => Lead::Alone,
            _ => Lead::Threads,
        }
    }

    /// Remembers a burst of `packets` packets, at least one, which ran in this way and took `nanos` nanoseconds.
    pub fn note_burst(&mut self, lead: Lead, packets: u32, nanos: u64)
        requires some { 0 < packets }
        ensures threads { lead ≡ Lead.Threads → self.new ≡ after_burst_on_threads packets nanos self.old }
        ensures alone { lead ≡ Lead.Alone → self.new ≡ after_burst_alone packets nanos self.old }
    {
        let part_packets = self.packets.saturating_add(packets);
        let part_nanos = self.nanos.saturating_add(nanos);
        match lead {
            Lead::Threads => {
                self.threads = self.threads.timed(packets, nanos);
                self.go_on_from_threads(part_packets, part_nanos);
            }
            Lead::Alone => {
                self.alone = self.alone.timed(packets, nanos);
                self.go_on(part_packets, part_nanos);
            }
        }
    }

    /// Goes on with a part that ran on threads: if they failed, one thread takes the rest of the round.
    fn go_on_from_threads(&mut self, packets: u32, nanos: u64)
        requires some { 0 < packets }
        ensures { self.new ≡ after_on_threads packets nanos self.old }
    {
        if self.have_threads_failed(packets, nanos) {
            self.threads = Way::known(nanos / u64::from(packets));
            self.part = Part::Chosen;
            self.packets = 0;
            self.nanos = 0;
        } else {
            self.go_on(packets, nanos);
        }
    }

    /// Goes on with a part that has had `packets` packets, which took `nanos` nanoseconds.
    fn go_on(&mut self, packets: u32, nanos: u64)
        ensures { self.new ≡ after packets nanos self.old }
    {
        if is_over(self.part, packets) {
            self.part = self.next_part();
            self.packets = 0;
            self.nanos = 0;
        } else {
            self.packets = packets;
            self.nanos = nanos;
        }
    }

    /// Did the packets of a part take more than twice the time of one thread? Fewer than 1,024 are measured against the
    /// time of 1,024.
    fn have_threads_failed(&self, packets: u32, nanos: u64) -> bool
        ensures { result ≡ have_failed self.now.alone.each packets nanos }
    {
        match self.alone.each {
            Some(alone) => nanos / (2 * u64::from(packets.max(FIRST))) > alone,
            None => false,
        }
    }

    /// The part after this one.
    fn next_part(&self) -> Part
        ensures { result ≡ next_part self.now.threads.each self.now.alone.each self.now.part }
    {
        match self.part {
            Part::FirstOnThreads => Part::FirstAlone,
            Part::FirstAlone if self.are_threads_hopeless() => Part::Chosen,
            Part::FirstAlone => Part::MoreOnThreads,
            Part::MoreOnThreads => Part::MoreAlone,
            Part::MoreAlone => Part::Chosen,
            Part::Chosen if self.are_packets_light() => Part::Chosen,
            Part::Chosen => Part::FirstOnThreads,
        }
    }

    /// Are packets light, or did threads take more than [`HOPELESS`] times as long, so that they need not be tried again?
    fn are_threads_hopeless(&self) -> bool
        ensures { result ≡ are_hopeless self.now.threads.each self.now.alone.each }
    {
        match (self.threads.each, self.alone.each) {
            (Some(threads), Some(alone)) => is_light(alone) || threads / HOPELESS > alone,
            (None, Some(alone)) => is_light(alone),
            (_, None) => false,
        }
    }

    /// Are packets light, as far as that is known?
    fn are_packets_light(&self) -> bool
        ensures { result ≡ are_light self.now.alone.each }
    {
        self.alone.each.is_some_and(is_light)
    }
}

/// The number of packets of a part.
fn size(part: Part) -> u32
    ensures size { result ≡ size part }
    ensures some { 0 < result }
{
    match part {
        Part::FirstOnThreads | Part::FirstAlone => FIRST,
        Part::MoreOnThreads => ON_THREADS,
        Part::MoreAlone => ALONE,
        Part::Chosen => CHOSEN,
    }
}

/// Is a part over after `packets` packets? The first has one burst.
fn is_over(part: Part, packets: u32) -> bool
    ensures { result ≡ is_over part packets }
{
    match part {
        Part::FirstOnThreads => true,
        _ => packets >= size(part),
    }
}

/// Is a packet light that takes `alone` nanoseconds on one thread?
fn is_light(alone: u64) -> bool
    ensures { result ≡ is_light alone }
{
    alone < LIGHT
}

/// Do threads save a tenth of the time of one thread? Not for light packets.
fn pays(threads: u64, alone: u64) -> bool
    ensures { result ≡ pays threads alone }
{
    !is_light(alone) && threads <= alone - alone / 10
}
