//! One record of a capture, read off the slot Capture.
ghost use Rattle.std.specs.Prelude.{◌≡◌, ◌≢◌, ◌≤◌, ◌+◌, IsSome, IfOk, IfErr, IfSome, IfNone, IsErrOf, length};
ghost use Rattle.nfp_outside.specs.declared.slot.Slot.{Slot};
ghost use Rattle.nfp_outside.specs.Outside.{TakesFront};
ghost use Rattle.pcap_io.specs.declared.capture.CaptureFault.{CaptureFault};
ghost use Rattle.capture_bytes.specs.Filling.{Fills};
ghost use Rattle.pcap_io.specs.Filling.{EndsWithin, IsRefusal};
ghost use Rattle.pcap_io.specs.Reader.{reader_at, ReadsRecord, IsAtEnd, RefusesRecord, ReaderCause};

use crate::capture::CaptureFault;
use crate::fault::PcapFault;
use crate::fill::fill;
use capture_bytes::{Endian, PcapRecord, u32_at};
use nfp_outside::{Desk, Slot};
use packet_fields::Frame;
use std::alloc::Global;

pub const RECORD_HEAD_LEN: usize = 16;

const MAX_FRAME: u32 = 262_144;

// The record after `given` others, or `None` if nothing is left.
pub fn read_next<D: Desk>(
    alloc: Global,
    desk: &mut D,
    order: Endian,
    given: u32,
) -> Result<Option<PcapRecord>, PcapFault>
    requires { IsSome (D.slots desk.old Slot.Capture).name }
    ensures record { IfOk result (λ o. IfSome o (λ r. ReadsRecord r (reader_at order given) (reader_at order (given + 1)) (D.slots desk.old Slot.Capture) (D.slots desk.new Slot.Capture))) }
    ensures end { IfOk result (λ o. IfNone o (IsAtEnd (reader_at order given) (reader_at order given) (D.slots desk.old Slot.Capture) (D.slots desk.new Slot.Capture))) }
    ensures refused { (fault : CaptureFault) → IsErrOf result (PcapFault.Capture fault) → RefusesRecord fault (reader_at order given) (D.slots desk.old Slot.Capture) }
    ensures taken { TakesFront 262160 (D.slots desk.old Slot.Capture) (D.slots desk.new Slot.Capture) }
    ensures cause { ReaderCause (D.slots desk.old Slot.Capture) (D.slots desk.new Slot.Capture) result }
    ensures others { (s : Slot) → s ≢ Slot.Capture → D.slots desk.new s ≡ D.slots desk.old s }
{
    let mut head = [0; RECORD_HEAD_LEN];
    let count = fill(desk, &mut head)?;
    if count == 0 {
        return Ok(None);
    }
    if given == u32::MAX {
        return Err(PcapFault::Capture(CaptureFault::TooManyRecords));
    }
    if count < RECORD_HEAD_LEN {
        return Err(PcapFault::Capture(CaptureFault::CutRecord(given + 1)));
    }
    let captured = u32_at(order, &head, 8);
    if captured > MAX_FRAME {
        return Err(PcapFault::Capture(CaptureFault::FrameTooLong(given + 1, captured)));
    }
    match read_frame(alloc, desk, captured as usize)? {
        Some(frame) => Ok(Some(PcapRecord {
            seconds: u32_at(order, &head, 0),
            fraction: u32_at(order, &head, 4),
            wire: u32_at(order, &head, 12),
            frame,
        })),
        None => Err(PcapFault::Capture(CaptureFault::CutRecord(given + 1))),
    }
}

// A frame of `captured` bytes, or `None` if fewer are left.
fn read_frame<D: Desk>(
    alloc: Global,
    desk: &mut D,
    captured: usize,
) -> Result<Option<Frame>, PcapFault>
    requires { IsSome (D.slots desk.old Slot.Capture).name }
    ensures size { IfOk result (λ o. IfSome o (λ frame. length frame ≡ captured)) }
    ensures whole { IfOk result (λ o. IfSome o (λ frame. Fills captured frame (D.slots desk.old Slot.Capture) (D.slots desk.new Slot.Capture))) }
    ensures cut { IfOk result (λ o. IfNone o (EndsWithin captured (D.slots desk.old Slot.Capture) (D.slots desk.new Slot.Capture))) }
    ensures err { IfErr result (IsRefusal captured (D.slots desk.old Slot.Capture) (D.slots desk.new Slot.Capture)) }
    ensures later { (D.slots desk.old Slot.Capture).faults ≤ (D.slots desk.new Slot.Capture).faults }
    ensures others { (s : Slot) → s ≢ Slot.Capture → D.slots desk.new s ≡ D.slots desk.old s }
{
    let Ok(mut bytes) = vec![in alloc; 0; captured] else {
        return Err(PcapFault::OutOfMemory);
    };
    let count = fill(desk, &mut bytes)?;
    if count < captured {
        return Ok(None);
    }
    Ok(Some(Frame::new(bytes)))
}
