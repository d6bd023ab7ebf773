//! The counts so far.

use crate::count::Counted;
use capture_bytes::{PcapRecord, Unit};
use classifier::Cutter;
use flow_export::Span5;
use flow_shards::Shards;
use item_list::Items;
use pcap_io::CaptureFault;
use std::alloc::{AllocError, Global};
use std::marker::Model;
use std::thread::Threads;

/// The counts of the records so far. Contracts see them as if the packets of the open burst were counted already.
#[derive(Drop)]
pub(crate) struct Counting {
    unit: Unit,
    records: u32,
    cutter: Cutter,
    shards: Shards,
    span: Option<Span5>,
}

impl Model for Counting {
    ghost use Rattle.flow_run.specs.Counting.{CountingView, IsCounting};
    ghost use Rattle.flow_shards.specs.Flows.{flows_from};

    ghost Value = { CountingView };

    ghost view = { λ c. record { unit = c.unit; records = c.records; lines = flows_from c.unit c.shards.lines c.cutter.held; span = c.span } };

    ghost invariant = { λ c. IsCounting c.records c.cutter c.shards c.span };
}

impl Counting {
    ghost use Rattle.std.specs.Prelude.{◌≡◌, ◌≤◌, ◌<◌, ◌-◌, ◌^◌, All, IfOk, length};
    ghost use Rattle.flow_line.specs.Versions.{HasFittingKey};
    ghost use Rattle.flow_run.specs.Counting.{FitsSpan, IsCountedWith, nothing_counted, with_record};

    /// The counts before the first record.
    pub(crate) fn new(
        alloc: Global,
        unit: Unit,
        workers: u32,
        burst: u32,
    ) -> Result<Counting, AllocError>
        requires some_workers { 1 ≤ workers }
        requires few_workers { workers ≤ 16 }
        requires some_packets { 1 ≤ burst }
        requires few_packets { burst ≤ 65536 }
        ensures { IfOk result (λ counting. counting ≡ nothing_counted unit) }
    {
        Ok(Counting {
            unit,
            records: 0,
            cutter: Cutter::new(alloc, burst)?,
            shards: Shards::new(alloc, workers)?,
            span: None,
        })
    }

    /// The counts with one more record. If it closes the burst, the burst is counted.
    pub(crate) fn take<R: Threads + Sync>(
        self,
        rt: &R,
        alloc: Global,
        packet: PcapRecord,
    ) -> Result<Counting, AllocError>
        requires { self.records < 2 ^ 32 - 1 }
        ensures { IfOk result (λ after. after ≡ with_record self packet) }
    {
        let Counting {
            unit,
            records,
            mut cutter,
            shards,
            span,
        } = self;
        let span = Some(with_time(span, time_of(&packet, unit)));
        let records = records + 1;
        match cutter.add(packet, None)? {
            None => Ok(Counting {
                unit,
                records,
                cutter,
                shards,
                span,
            }),
            Some(burst) => {
                let shards = shards.feed(rt, alloc, &burst, unit)?;
                Ok(Counting {
                    unit,
                    records,
                    cutter,
                    shards,
                    span,
                })
            }
        }
    }

    /// Counts the packets of the open burst, and puts the lines of all workers together.
    pub(crate) fn end<R: Threads + Sync>(
        self,
        rt: &R,
        alloc: Global,
        fault: Option<CaptureFault>,
    ) -> Result<Counted, AllocError>
        ensures counted { IfOk result (IsCountedWith self fault) }
        ensures span { IfOk result (λ counted. FitsSpan counted.span) }
        ensures fits { IfOk result (λ counted. All HasFittingKey counted.lines) }
        ensures few { IfOk result (λ counted. length counted.lines < 2 ^ 32) }
    {
        let Counting {
            unit,
            records,
            cutter,
            shards,
            span,
        } = self;
        let shards = shards.feed(rt, alloc, &cutter.rest(), unit)?;
        Ok(Counted {
            records,
            lines: Items::new(shards.gather(alloc)?),
            span: span.unwrap_or(NO_SPAN),
            fault,
        })
    }
}

/// The span of no records.
const NO_SPAN: Span5 = Span5 {
    origin: 0,
    greatest: 0,
};

ghost use Rattle.std.specs.Prelude.{◌≡◌, ◌<◌, ◌^◌, IfSome};
ghost use Rattle.capture_bytes.specs.Packets.{time_of};
ghost use Rattle.flow_run.specs.Counting.{FitsSpan, with_time};

/// The time of a record in nanoseconds, which is below 2^63.
fn time_of(packet: &PcapRecord, unit: Unit) -> u64
    ensures time { result ≡ time_of unit packet.now }
    ensures below { result < 2 ^ 63 }
{
    let _seconds = packet.seconds;
    let _fraction = packet.fraction;
    packet.time(unit)
}

/// A span with one more time.
fn with_time(span: Option<Span5>, time: u64) -> Span5
    requires before { IfSome span FitsSpan }
    requires below { time < 2 ^ 63 }
    ensures span { result ≡ with_time span time }
    ensures fits { FitsSpan result }
{
    match span {
        None => Span5 {
            origin: time,
            greatest: time,
        },
        Some(span) => Span5 {
            origin: span.origin.min(time),
            greatest: span.greatest.max(time),
        },
    }
}
