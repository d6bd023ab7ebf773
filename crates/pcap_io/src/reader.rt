ghost use Rattle.std.specs.Prelude.{◌≡◌, ◌≤◌, length, take};

use crate::capture::CaptureHead;
use crate::fault::PcapFault;
use crate::fill::fill;
use crate::parse::{HEAD_LEN, head_in};
use crate::record::read_next;
use capture_bytes::{Endian, PcapRecord};
use nfp_outside::{Desk, Slot};
use std::alloc::Global;
use std::marker::Model;

/// Room for a head, with these bytes at its front.
fn behind(first: &[u8]) -> [u8; HEAD_LEN]
    requires { length first.now ≤ 4 }
    ensures size { length result ≡ 24 }
    ensures front { take (length first.now) result ≡ first.now }
{
    let mut bytes = [0; HEAD_LEN];
    bytes[..first.len()].copy_from_slice(first);
    bytes
}

/// Reads a capture record by record off the slot Capture of a desk, in whatever pieces the desk
/// gives it.
///
/// It takes no more bytes than a record needs, and allocates at most 262,144 bytes for a frame, whatever the capture
/// claims. After an error a reader must not be used again.
#[derive(Drop)]
pub struct Reader {
    order: Endian,
    given: u32,
    spent: bool,
}

impl Model for Reader {
    ghost use Rattle.pcap_io.specs.Reader.{ReaderState};

    ghost Value = { ReaderState };

    ghost view = { λ r. record { order = r.order; given = r.given; spent = r.spent } };
}

impl Reader {
    ghost use Rattle.std.specs.Prelude.{◌≡◌, ◌≢◌, ◌≤◌, IsSome, IfOk, OnErr, IfSome, IfNone, IsErrOf, false, length};
    ghost use Rattle.nfp_outside.specs.declared.slot.Slot.{Slot};
    ghost use Rattle.nfp_outside.specs.Outside.{TakesFront};
    ghost use Rattle.capture_bytes.specs.Filling.{unread};
    ghost use Rattle.pcap_io.specs.declared.capture.CaptureFault.{CaptureFault};
    ghost use Rattle.pcap_io.specs.Reader.{reader_at, refused, ReadsHead, RefusesHead, ReadsRecord, IsAtEnd, RefusesRecord, ReaderCause};

    /// Reads the head, the first 24 bytes that are left.
    ///
    /// `CutHead` exactly if fewer are left; otherwise `BadMagic`, `BadVersion` and `BadLink`, checked in this order. It
    /// allocates nothing.
    pub fn begin<D: Desk>(desk: &mut D) -> Result<(CaptureHead, Reader), PcapFault>
        requires attached { IsSome (D.slots desk.old Slot.Capture).name }
        ensures head { IfOk result (λ x. ReadsHead x.0 x.1 (D.slots desk.old Slot.Capture) (D.slots desk.new Slot.Capture)) }
        ensures refused { (fault : CaptureFault) → IsErrOf result (PcapFault.Capture fault) → RefusesHead fault (D.slots desk.old Slot.Capture) }
        ensures taken { TakesFront 24 (D.slots desk.old Slot.Capture) (D.slots desk.new Slot.Capture) }
        ensures cause { ReaderCause (D.slots desk.old Slot.Capture) (D.slots desk.new Slot.Capture) result }
        ensures others { (s : Slot) → s ≢ Slot.Capture → D.slots desk.new s ≡ D.slots desk.old s }
    {
        Reader::begin_after(desk, &[])
    }

    /// Reads the head as [`Reader::begin`] does, after its first bytes, at most four, were taken already; they are
    /// `first`.
    pub fn begin_after<D: Desk>(
        desk: &mut D,
        first: &[u8],
    ) -> Result<(CaptureHead, Reader), PcapFault>
        requires attached { IsSome (D.slots desk.old Slot.Capture).name }
        requires few { length first.now ≤ 4 }
        ensures head { IfOk result (λ x. ReadsHead x.0 x.1 (unread first.now (D.slots desk.old Slot.Capture)) (D.slots desk.new Slot.Capture)) }
        ensures refused { (fault : CaptureFault) → IsErrOf result (PcapFault.Capture fault) → RefusesHead fault (unread first.now (D.slots desk.old Slot.Capture)) }
        ensures taken { TakesFront 24 (D.slots desk.old Slot.Capture) (D.slots desk.new Slot.Capture) }
        ensures cause { ReaderCause (D.slots desk.old Slot.Capture) (D.slots desk.new Slot.Capture) result }
        ensures others { (s : Slot) → s ≢ Slot.Capture → D.slots desk.new s ≡ D.slots desk.old s }
    {
        let mut bytes = behind(first);
        let known = first.len();
        let count = fill(desk, &mut bytes[known..])?;
        match head_in(&bytes[..known + count]) {
            Ok(head) => Ok((head, Reader::resume(&head, 0))),
            Err(fault) => Err(PcapFault::Capture(fault)),
        }
    }

    /// A reader that has given `count` records of a capture with this head.
    pub fn resume(head: &CaptureHead, count: u32) -> Reader
        ensures { result ≡ reader_at head.now.order count }
    {
        Reader {
            order: head.order,
            given: count,
            spent: false,
        }
    }

    /// Reads the next record; `None` exactly if nothing is left.
    ///
    /// With 4,294,967,295 records given and something left, `TooManyRecords`. `CutRecord` exactly if the input ends
    /// inside the record's head or inside its frame. `FrameTooLong` exactly if the head is whole and claims more than
    /// 262,144 bytes. After an `Err` the reader must not be used again.
    pub fn next<D: Desk>(
        &mut self,
        alloc: Global,
        desk: &mut D,
    ) -> Result<Option<PcapRecord>, PcapFault>
        requires attached { IsSome (D.slots desk.old Slot.Capture).name }
        requires unspent { self.old.spent ≡ false }
        ensures record { IfOk result (λ o. IfSome o (λ r. ReadsRecord r self.old self.new (D.slots desk.old Slot.Capture) (D.slots desk.new Slot.Capture))) }
        ensures end { IfOk result (λ o. IfNone o (IsAtEnd self.old self.new (D.slots desk.old Slot.Capture) (D.slots desk.new Slot.Capture))) }
        ensures refused { (fault : CaptureFault) → IsErrOf result (PcapFault.Capture fault) → RefusesRecord fault self.old (D.slots desk.old Slot.Capture) }
        ensures spent { OnErr result (self.new ≡ refused self.old) }
        ensures taken { TakesFront 262160 (D.slots desk.old Slot.Capture) (D.slots desk.new Slot.Capture) }
        ensures cause { ReaderCause (D.slots desk.old Slot.Capture) (D.slots desk.new Slot.Capture) result }
        ensures others { (s : Slot) → s ≢ Slot.Capture → D.slots desk.new s ≡ D.slots desk.old s }
    {
        let answer = read_next(alloc, desk, self.order, self.given);
        match &answer {
            Ok(Some(_)) => self.given += 1,
            Ok(None) => {}
            Err(_) => self.spent = true,
        }
        answer
    }
}
