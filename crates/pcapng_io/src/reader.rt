//! Captures, block by block.
ghost use Rattle.std.specs.Prelude.{◌≡◌, ◌≢◌, ◌≤◌, ◌<◌, ◌%◌, [], ◌∷◌, true, false, IfNone, IfOk, IfSome, IsErrOf, IsSome, Some, length};
ghost use Rattle.nfp_outside.specs.declared.slot.Slot.{Slot};
ghost use Rattle.nfp_outside.specs.Outside.{TakesFront};
ghost use Rattle.capture_bytes.specs.Filling.{unread};
ghost use Rattle.pcapng_io.specs.declared.fault.NgFault.{NgFault};
ghost use Rattle.pcapng_io.specs.Blocks.{content_faults, first_fault, is_of_first_block};
ghost use Rattle.pcapng_io.specs.Reader.{ArePositive, Gives, IsAtEnd, ReaderCause, ReadsItem, RefusesBlock};

use crate::contents::content_fault;
use crate::fault::{NgFault, NgReadFault};
use crate::item::NgItem;
use crate::items::item_in;
use crate::place::Place;
use crate::read::{BlockHead, close, open};
use nfp_outside::{Desk, Slot};
use std::alloc::Global;
use std::marker::Model;

// Reads the block after a place, of which these bytes were read before, and moves past it; `None` if nothing is left.
#[inline(always)]
fn read<D: Desk>(
    alloc: Global,
    desk: &mut D,
    place: &mut Place,
    first: &[u8],
) -> Result<Option<NgItem>, NgReadFault>
    requires attached { IsSome (D.slots desk.old Slot.Capture).name }
    requires few { place.old.blocks < 1099511627776 }
    requires units { ArePositive place.old.units }
    requires begun { length first.now ≤ 4 }
    ensures item { IfOk result (λ o. IfSome o (λ i. ReadsItem i place.old place.new (unread first.now (D.slots desk.old Slot.Capture)) (D.slots desk.new Slot.Capture))) }
    ensures end { IfOk result (λ o. IfNone o (IsAtEnd place.old (unread first.now (D.slots desk.old Slot.Capture)) (D.slots desk.new Slot.Capture))) }
    ensures stays { IfOk result (λ o. IfNone o (place.new ≡ place.old)) }
    ensures nothing { IfOk result (λ o. IfNone o (length first.now ≡ 0)) }
    ensures onward { place.old.blocks ≤ place.new.blocks }
    ensures few { place.new.blocks < 1099511627776 }
    ensures units { ArePositive place.new.units }
    ensures refused { (fault : NgFault) → IsErrOf result (NgReadFault.Ng fault) → RefusesBlock fault place.old (unread first.now (D.slots desk.old Slot.Capture)) }
    ensures first_block { first.now ≡ 0x0a ∷ 0x0d ∷ 0x0d ∷ 0x0a ∷ [] → place.old.blocks ≡ 0 → (fault : NgFault) → IsErrOf result (NgReadFault.Ng fault) → is_of_first_block fault ≡ true }
    ensures later_block { 0 < place.old.blocks → (fault : NgFault) → IsErrOf result (NgReadFault.Ng fault) → is_of_first_block fault ≡ false }
    ensures taken { TakesFront 16777236 (D.slots desk.old Slot.Capture) (D.slots desk.new Slot.Capture) }
    ensures cause { ReaderCause (D.slots desk.old Slot.Capture) (D.slots desk.new Slot.Capture) result }
    ensures others { (s : Slot) → s ≢ Slot.Capture → D.slots desk.new s ≡ D.slots desk.old s }
{
    let head = match open(desk, place, first) {
        Ok(Some(head)) => head,
        Ok(None) => return Ok(None),
        Err(fault) => return Err(fault),
    };
    let block = match close(alloc, desk, place, &head) {
        Ok(block) => block,
        Err(fault) => return Err(fault),
    };
    match give(alloc, place, &head, block) {
        Ok(item) => Ok(Some(item)),
        Err(fault) => Err(fault),
    }
}

// The item of a block that was read, or its fault; `place` moves past the block.
#[inline(always)]
fn give(
    alloc: Global,
    place: &mut Place,
    head: &BlockHead,
    block: Vec<u8>,
) -> Result<NgItem, NgReadFault>
    requires least { 12 ≤ length block.items }
    requires most { length block.items ≤ 16777216 }
    requires whole { length block.items % 4 ≡ 0 }
    requires few { place.old.blocks < 1099511627776 }
    requires units { ArePositive place.old.units }
    ensures ok { IfOk result (λ item. Gives place.old head.now.order head.now.kind block.items item place.new) }
    ensures onward { place.old.blocks ≤ place.new.blocks }
    ensures few { place.new.blocks < 1099511627776 }
    ensures units { ArePositive place.new.units }
    ensures refused { (fault : NgFault) → IsErrOf result (NgReadFault.Ng fault) → first_fault (content_faults place.old head.now.order head.now.kind block.items) ≡ Some fault }
    ensures only { (slot : Slot) → IsErrOf result (NgReadFault.ReadFault slot) → ⊥ }
{
    if let Some(fault) = content_fault(place, head.order, head.kind, &block) {
        return Err(NgReadFault::Ng(fault));
    }
    Ok(item_in(alloc, place, head.order, head.kind, block)?)
}

/// Reads a capture block by block off the slot Capture of a desk, in whatever pieces the desk gives it.
///
/// It takes no more bytes than a block needs. It allocates memory for one block at a time, at most 16,777,216 bytes,
/// for a copy of its options or of the block without some of them, and for the ticks of each interface of the section.
/// After an error a reader must not be used again.
#[derive(Drop)]
pub struct NgReader {
    place: Place,
    spent: bool,
}

impl Model for NgReader {
    ghost use Rattle.std.specs.Prelude.{◌<◌};
    ghost use Rattle.pcapng_io.specs.Reader.{ArePositive, ReaderState};

    ghost Value = { ReaderState };

    ghost view = { λ r. record { place = r.place; spent = r.spent } };

    ghost invariant = { λ r. (0 < r.place.blocks) × (r.place.blocks < 1099511627776) × ArePositive r.place.units };
}

impl NgReader {
    ghost use Rattle.std.specs.Prelude.{◌≡◌, ◌≢◌, [], ◌∷◌, true, false, IfNone, IfOk, IfSome, IsErrOf, IsSome, OnErr, OnOk};
    ghost use Rattle.nfp_outside.specs.declared.slot.Slot.{Slot};
    ghost use Rattle.nfp_outside.specs.Outside.{TakesFront};
    ghost use Rattle.capture_bytes.specs.Filling.{unread};
    ghost use Rattle.pcapng_io.specs.declared.fault.NgFault.{NgFault};
    ghost use Rattle.pcapng_io.specs.Blocks.{is_of_first_block, start};
    ghost use Rattle.pcapng_io.specs.Reader.{IsAtEnd, ReaderCause, ReadsItem, RefusesBlock};

    /// Reads the first block of a capture whose first four bytes were read before, and are those of a section header block.
    ///
    /// It has the errors of [`NgReader::next`].
    pub fn begin<D: Desk>(
        alloc: Global,
        desk: &mut D,
        first: &[u8],
    ) -> Result<(NgItem, NgReader), NgReadFault>
        requires attached { IsSome (D.slots desk.old Slot.Capture).name }
        requires section { first.now ≡ 0x0a ∷ 0x0d ∷ 0x0d ∷ 0x0a ∷ [] }
        ensures block { IfOk result (λ x. ReadsItem x.0 start x.1.place (unread first.now (D.slots desk.old Slot.Capture)) (D.slots desk.new Slot.Capture)) }
        ensures unspent { IfOk result (λ x. x.1.spent ≡ false) }
        ensures refused { (fault : NgFault) → IsErrOf result (NgReadFault.Ng fault) → RefusesBlock fault start (unread first.now (D.slots desk.old Slot.Capture)) }
        ensures number { (fault : NgFault) → IsErrOf result (NgReadFault.Ng fault) → is_of_first_block fault ≡ true }
        ensures taken { TakesFront 16777236 (D.slots desk.old Slot.Capture) (D.slots desk.new Slot.Capture) }
        ensures cause { ReaderCause (D.slots desk.old Slot.Capture) (D.slots desk.new Slot.Capture) result }
        ensures others { (s : Slot) → s ≢ Slot.Capture → D.slots desk.new s ≡ D.slots desk.old s }
    {
        let mut place = Place::start(alloc);
        match read(alloc, desk, &mut place, first) {
            Ok(Some(item)) => Ok((
                item,
                NgReader {
                    place,
                    spent: false,
                },
            )),
            Ok(None) => Err(NgReadFault::Ng(NgFault::CutBlock(1))),
            Err(fault) => Err(fault),
        }
    }

    /// Reads the next block; `None` exactly if nothing is left.
    ///
    /// The error is the first fault of the next block. After an `Err` the reader must not be used again.
    #[inline(always)]
    pub fn next<D: Desk>(
        &mut self,
        alloc: Global,
        desk: &mut D,
    ) -> Result<Option<NgItem>, NgReadFault>
        requires attached { IsSome (D.slots desk.old Slot.Capture).name }
        requires unspent { self.old.spent ≡ false }
        ensures block { IfOk result (λ o. IfSome o (λ i. ReadsItem i self.old.place self.new.place (D.slots desk.old Slot.Capture) (D.slots desk.new Slot.Capture))) }
        ensures end { IfOk result (λ o. IfNone o (IsAtEnd self.old.place (D.slots desk.old Slot.Capture) (D.slots desk.new Slot.Capture))) }
        ensures stays { IfOk result (λ o. IfNone o (self.new ≡ self.old)) }
        ensures unspent { OnOk result (self.new.spent ≡ false) }
        ensures spent { OnErr result (self.new.spent ≡ true) }
        ensures refused { (fault : NgFault) → IsErrOf result (NgReadFault.Ng fault) → RefusesBlock fault self.old.place (D.slots desk.old Slot.Capture) }
        ensures number { (fault : NgFault) → IsErrOf result (NgReadFault.Ng fault) → is_of_first_block fault ≡ false }
        ensures taken { TakesFront 16777236 (D.slots desk.old Slot.Capture) (D.slots desk.new Slot.Capture) }
        ensures cause { ReaderCause (D.slots desk.old Slot.Capture) (D.slots desk.new Slot.Capture) result }
        ensures others { (s : Slot) → s ≢ Slot.Capture → D.slots desk.new s ≡ D.slots desk.old s }
    {
        let answer = read(alloc, desk, &mut self.place, &[]);
        match &answer {
            Ok(_) => {}
            Err(_) => self.spent = true,
        }
        answer
    }
}
