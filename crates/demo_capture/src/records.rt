//! The records of the demo's capture, one after another.
ghost use Rattle.std.specs.Prelude.{◌≡◌, ◌≤◌, IfOk, length};
ghost use Rattle.capture_bytes.specs.Packets.{IsShort};
ghost use Rattle.demo_capture.specs.DemoCapture.{record_of};

use crate::draws::{Draws, draw_four};
use crate::frame::make_frame;
use capture_bytes::PcapRecord;
use std::alloc::{AllocError, Global};
use std::marker::Model;

/// Returns the records of a seed and a count. A contract sees the number of records so far, and those that are still to
/// come.
#[derive(Drop)]
pub struct DemoRecords {
    // The number of the generator after the last draw.
    last: u64,
    given: u32,
    count: u32,
}

impl Model for DemoRecords {
    ghost use Rattle.std.specs.Prelude.{◌-◌, ◌+◌};
    ghost use Rattle.demo_capture.specs.DemoCapture.{records_from};
    ghost use Rattle.demo_capture.specs.Giving.{DemoLeft};

    ghost Value = { DemoLeft };

    ghost view = { λ d. record { given = d.given; records = records_from (d.count - d.given) (d.given + 1) d.last } };
}

impl DemoRecords {
    ghost use Rattle.std.specs.Prelude.{[], IfNone, IfSome, OnErr};
    ghost use Rattle.demo_capture.specs.DemoCapture.{demo_records};
    ghost use Rattle.demo_capture.specs.Giving.{GivesNext};

    /// The first `count` records of this seed.
    pub fn new(seed: u64, count: u32) -> Self
        ensures given { result.given ≡ 0 }
        ensures records { result.records ≡ demo_records seed count }
    {
        DemoRecords {
            last: seed,
            given: 0,
            count,
        }
    }

    /// The next record; `None` exactly if none is left. If memory runs out, the record is still to come.
    pub fn next(&mut self, alloc: Global) -> Result<Option<PcapRecord>, AllocError>
        ensures record { IfOk result (λ o. IfSome o (λ r. GivesNext r self.old self.new)) }
        ensures end { IfOk result (λ o. IfNone o (self.old.records ≡ [])) }
        ensures stays { IfOk result (λ o. IfNone o (self.new ≡ self.old)) }
        ensures err { OnErr result (self.new ≡ self.old) }
    {
        if self.given >= self.count {
            return Ok(None);
        }
        let number = self.given + 1;
        let (draws, behind) = draw_four(self.last);
        let record = make_record(alloc, number, draws)?;
        self.given = number;
        self.last = behind;
        Ok(Some(record))
    }
}

// The record of this number, counted from 1, with these draws.
#[tactic(auto, unfolding(crate::specs::DemoCapture::record_of), using(crate::proofs::Lengths::frame_short))]
fn make_record(alloc: Global, number: u32, draws: Draws) -> Result<PcapRecord, AllocError>
    ensures value { IfOk result (λ r. r ≡ record_of number draws) }
    ensures short { IfOk result IsShort }
{
    let frame = make_frame(alloc, draws)?;
    let wire = frame.bytes().len() as u32;
    Ok(PcapRecord {
        seconds: number / 1000,
        fraction: number % 1000 * 1000,
        wire,
        frame,
    })
}
