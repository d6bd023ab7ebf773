//! A block's bytes, off the slot Capture.
ghost use Rattle.std.specs.Prelude.{◌≡◌, ◌≢◌, ◌≤◌, ◌<◌, ◌+◌, ◌==◌, [], ◌∷◌, IfErr, IfNone, IfOk, IfSome, IsErrOf, IsSome, Some, length, take};
ghost use Rattle.nfp_outside.specs.declared.slot.Slot.{Slot};
ghost use Rattle.nfp_outside.specs.Outside.{TakesFront};
ghost use Rattle.capture_bytes.specs.Filling.{Fills, unread};
ghost use Rattle.pcapng_io.specs.declared.fault.NgFault.{NgFault};
ghost use Rattle.pcapng_io.specs.declared.block_kind.BlockKind.TheVariants.{SectionHeader};
ghost use Rattle.pcapng_io.specs.Blocks.{first_fault, is_of_first_block, kind_in, order_in};
ghost use Rattle.pcapng_io.specs.Reader.{Closes, IsAtEnd, Opens, ReaderCause, RefusesBlock, Says, head_faults, head_length};

use crate::block_kind::BlockKind;
use crate::fault::{NgFault, NgReadFault};
use crate::head::{head_fault, is_section, kind_of, order_of};
use crate::place::Place;
use capture_bytes::{Endian, fill, u32_at};
use nfp_outside::{Desk, DeskFault, Slot};
use std::alloc::{AllocError, Global};

// The number of bytes that hold the kind and the length of a block.
const HEAD: usize = 8;

// The number of bytes that hold the kind, the length and the order of a section header.
const SECTION_HEAD: usize = 12;

/// What a block's first bytes say.
#[derive(Clone, Copy)]
pub struct BlockHead {
    pub kind: BlockKind,
    pub order: Endian,
    pub length: u32,
    /// The first bytes; for a block other than a section header only the first eight count.
    pub bytes: [u8; SECTION_HEAD],
}

/// Reads the rest of a block's first bytes, after those that were read before; `None` if nothing is left.
#[inline(always)]
pub fn open<D: Desk>(
    desk: &mut D,
    place: &Place,
    first: &[u8],
) -> Result<Option<BlockHead>, NgReadFault>
    requires attached { IsSome (D.slots desk.old Slot.Capture).name }
    requires few { place.now.blocks < 1099511627776 }
    requires begun { length first.now ≤ 4 }
    ensures opened { IfOk result (λ o. IfSome o (λ b. Opens place.now b.kind b.order b.length (take (head_length b.kind) b.bytes) (unread first.now (D.slots desk.old Slot.Capture)) (D.slots desk.new Slot.Capture))) }
    ensures end { IfOk result (λ o. IfNone o (IsAtEnd place.now (unread first.now (D.slots desk.old Slot.Capture)) (D.slots desk.new Slot.Capture))) }
    ensures nothing { IfOk result (λ o. IfNone o (length first.now ≡ 0)) }
    ensures section { first.now ≡ 0x0a ∷ 0x0d ∷ 0x0d ∷ 0x0a ∷ [] → IfOk result (λ o. IfSome o (λ b. b.kind ≡ SectionHeader)) }
    ensures refused { (fault : NgFault) → IsErrOf result (NgReadFault.Ng fault) → RefusesBlock fault place.now (unread first.now (D.slots desk.old Slot.Capture)) }
    ensures number { (fault : NgFault) → IsErrOf result (NgReadFault.Ng fault) → is_of_first_block fault ≡ (place.now.blocks == 0) }
    ensures taken { TakesFront 20 (D.slots desk.old Slot.Capture) (D.slots desk.new Slot.Capture) }
    ensures cause { ReaderCause (D.slots desk.old Slot.Capture) (D.slots desk.new Slot.Capture) result }
    ensures others { (s : Slot) → s ≢ Slot.Capture → D.slots desk.new s ≡ D.slots desk.old s }
{
    let mut front = behind(first);
    let count = fill_behind(desk, &mut front, first.len())?;
    if count == 0 {
        return Ok(None);
    }
    if count < HEAD {
        return Err(NgReadFault::Ng(NgFault::CutBlock(place.blocks + 1)));
    }
    let kind = kind_of(u32_at(place.order, &front, 0));
    if is_section(kind) {
        open_section(desk, place, &front)
    } else {
        open_other(place, kind, &front)
    }
}

// Reads the rest of a section header's first bytes, after the first eight.
fn open_section<D: Desk>(
    desk: &mut D,
    place: &Place,
    front: &[u8],
) -> Result<Option<BlockHead>, NgReadFault>
    requires attached { IsSome (D.slots desk.old Slot.Capture).name }
    requires few { place.now.blocks < 1099511627776 }
    requires enough { length front.now ≡ 8 }
    requires section { kind_in place.now.order front.now ≡ SectionHeader }
    ensures opened { IfOk result (λ o. IfSome o (λ b. Opens place.now b.kind b.order b.length (take (head_length b.kind) b.bytes) (unread front.now (D.slots desk.old Slot.Capture)) (D.slots desk.new Slot.Capture))) }
    ensures some { IfOk result (λ o. IsSome o) }
    ensures kind { IfOk result (λ o. IfSome o (λ b. b.kind ≡ SectionHeader)) }
    ensures refused { (fault : NgFault) → IsErrOf result (NgReadFault.Ng fault) → RefusesBlock fault place.now (unread front.now (D.slots desk.old Slot.Capture)) }
    ensures number { (fault : NgFault) → IsErrOf result (NgReadFault.Ng fault) → is_of_first_block fault ≡ (place.now.blocks == 0) }
    ensures taken { TakesFront 12 (D.slots desk.old Slot.Capture) (D.slots desk.new Slot.Capture) }
    ensures cause { ReaderCause (D.slots desk.old Slot.Capture) (D.slots desk.new Slot.Capture) result }
    ensures others { (s : Slot) → s ≢ Slot.Capture → D.slots desk.new s ≡ D.slots desk.old s }
{
    let mut head = longer(front);
    let count = fill_behind(desk, &mut head, HEAD)?;
    if count < SECTION_HEAD {
        return Err(NgReadFault::Ng(NgFault::CutBlock(place.blocks + 1)));
    }
    match head_says(place, BlockKind::SectionHeader, &head) {
        Ok((order, length)) => Ok(Some(BlockHead {
            kind: BlockKind::SectionHeader,
            order,
            length,
            bytes: head,
        })),
        Err(fault) => Err(NgReadFault::Ng(fault)),
    }
}

// What the first eight bytes of another block say.
#[inline(always)]
fn open_other(
    place: &Place,
    kind: BlockKind,
    front: &[u8],
) -> Result<Option<BlockHead>, NgReadFault>
    requires few { place.now.blocks < 1099511627776 }
    requires enough { length front.now ≡ 8 }
    requires is_kind { kind ≡ kind_in place.now.order front.now }
    requires eight { head_length kind ≡ 8 }
    ensures says { IfOk result (λ o. IfSome o (λ b. Says place.now b.kind b.order b.length front.now)) }
    ensures bytes { IfOk result (λ o. IfSome o (λ b. take (head_length b.kind) b.bytes ≡ front.now)) }
    ensures some { IfOk result (λ o. IsSome o) }
    ensures refused { (fault : NgFault) → IsErrOf result (NgReadFault.Ng fault) → first_fault (head_faults (place.now.blocks + 1) (order_in place.now.order kind front.now) kind front.now) ≡ Some fault }
    ensures number { (fault : NgFault) → IsErrOf result (NgReadFault.Ng fault) → is_of_first_block fault ≡ (place.now.blocks == 0) }
    ensures only { (slot : Slot) → IsErrOf result (NgReadFault.ReadFault slot) → ⊥ }
{
    match head_says(place, kind, front) {
        Ok((order, length)) => Ok(Some(BlockHead {
            kind,
            order,
            length,
            bytes: longer(front),
        })),
        Err(fault) => Err(NgReadFault::Ng(fault)),
    }
}

// The order and the length that a block's first bytes say, or their fault.
#[inline(always)]
fn head_says(place: &Place, kind: BlockKind, head: &[u8]) -> Result<(Endian, u32), NgFault>
    requires few { place.now.blocks < 1099511627776 }
    requires enough { length head.now ≡ head_length kind }
    requires is_kind { kind ≡ kind_in place.now.order head.now }
    ensures ok { IfOk result (λ x. Says place.now kind x.0 x.1 head.now) }
    ensures err { IfErr result (λ fault. first_fault (head_faults (place.now.blocks + 1) (order_in place.now.order kind head.now) kind head.now) ≡ Some fault) }
{
    let order = order_of(place.order, kind, head);
    match head_fault(place.blocks + 1, order, kind, head) {
        Some(fault) => Err(fault),
        None => Ok((order, u32_at(order, head, 4))),
    }
}

/// Reads the rest of a block whose first bytes were read, and returns the whole block.
#[inline(always)]
pub fn close<D: Desk>(
    alloc: Global,
    desk: &mut D,
    place: &Place,
    head: &BlockHead,
) -> Result<Vec<u8>, NgReadFault>
    requires attached { IsSome (D.slots desk.old Slot.Capture).name }
    requires few { place.now.blocks < 1099511627776 }
    requires says { Says place.now head.now.kind head.now.order head.now.length (take (head_length head.now.kind) head.now.bytes) }
    ensures closed { IfOk result (λ block. Closes head.now.length block.items (unread (take (head_length head.now.kind) head.now.bytes) (D.slots desk.old Slot.Capture)) (D.slots desk.new Slot.Capture)) }
    ensures refused { (fault : NgFault) → IsErrOf result (NgReadFault.Ng fault) → RefusesBlock fault place.now (unread (take (head_length head.now.kind) head.now.bytes) (D.slots desk.old Slot.Capture)) }
    ensures number { (fault : NgFault) → IsErrOf result (NgReadFault.Ng fault) → is_of_first_block fault ≡ (place.now.blocks == 0) }
    ensures taken { TakesFront 16777216 (D.slots desk.old Slot.Capture) (D.slots desk.new Slot.Capture) }
    ensures cause { ReaderCause (D.slots desk.old Slot.Capture) (D.slots desk.new Slot.Capture) result }
    ensures others { (s : Slot) → s ≢ Slot.Capture → D.slots desk.new s ≡ D.slots desk.old s }
{
    let length = head.length as usize;
    let known = head_length(head.kind);
    let Ok(mut block) = begun(alloc, length, &head.bytes[..known]) else {
        return Err(NgReadFault::OutOfMemory);
    };
    let count = fill_behind(desk, &mut block, known)?;
    if count < length {
        return Err(NgReadFault::Ng(NgFault::CutBlock(place.blocks + 1)));
    }
    Ok(block)
}

// The number of bytes that hold the kind and the length of a block.
fn head_length(kind: BlockKind) -> usize
    ensures { result ≡ head_length kind }
{
    if is_section(kind) { SECTION_HEAD } else { HEAD }
}

// Room for a block of this length, with its first bytes.
fn begun(alloc: Global, size: usize, first: &[u8]) -> Result<Vec<u8>, AllocError>
    requires within { length first.now ≤ size }
    ensures size { IfOk result (λ block. length block.items ≡ size) }
    ensures front { IfOk result (λ block. take (length first.now) block.items ≡ first.now) }
{
    let mut block = vec![in alloc; 0; size]?;
    put_front(&mut block, first);
    Ok(block)
}

// Puts bytes at the front of a buffer.
fn put_front(buffer: &mut [u8], first: &[u8])
    requires within { length first.now ≤ length buffer.old }
    ensures { take (length first.now) buffer.new ≡ first.now }
{
    buffer[..first.len()].copy_from_slice(first);
}

// Room for the bytes that hold the kind and the length of a block, with the first ones.
fn behind(first: &[u8]) -> [u8; HEAD]
    requires { length first.now ≤ 4 }
    ensures size { length result ≡ 8 }
    ensures front { take (length first.now) result ≡ first.now }
{
    let mut bytes = [0; HEAD];
    bytes[..first.len()].copy_from_slice(first);
    bytes
}

// Room for the first bytes of a section header, with the first eight.
fn longer(front: &[u8]) -> [u8; SECTION_HEAD]
    requires { length front.now ≡ 8 }
    ensures size { length result ≡ 12 }
    ensures front { take 8 result ≡ front.now }
{
    let mut bytes = [0; SECTION_HEAD];
    bytes[..HEAD].copy_from_slice(front);
    bytes
}

// Fills a buffer whose first bytes were read before, and returns how many of its bytes are filled.
#[inline(always)]
fn fill_behind<D: Desk>(desk: &mut D, buffer: &mut [u8], known: usize) -> Result<usize, NgReadFault>
    requires attached { IsSome (D.slots desk.old Slot.Capture).name }
    requires within { known ≤ length buffer.old }
    ensures ok { IfOk result (λ k. Fills k buffer.new (unread (take known buffer.old) (D.slots desk.old Slot.Capture)) (D.slots desk.new Slot.Capture)) }
    ensures kept { take known buffer.new ≡ take known buffer.old }
    ensures more { IfOk result (λ k. known ≤ k) }
    ensures no_fault { (fault : NgFault) → IsErrOf result (NgReadFault.Ng fault) → ⊥ }
    ensures taken { TakesFront (length buffer.old) (D.slots desk.old Slot.Capture) (D.slots desk.new Slot.Capture) }
    ensures cause { ReaderCause (D.slots desk.old Slot.Capture) (D.slots desk.new Slot.Capture) result }
    ensures others { (s : Slot) → s ≢ Slot.Capture → D.slots desk.new s ≡ D.slots desk.old s }
{
    match fill(desk, &mut buffer[known..]) {
        Ok(count) => Ok(known + count),
        Err(DeskFault::Failed) => Err(NgReadFault::ReadFault(Slot::Capture)),
        Err(DeskFault::NoMemory) => Err(NgReadFault::OutOfMemory),
    }
}
