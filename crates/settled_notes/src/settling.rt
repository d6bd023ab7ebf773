//! Settles the notes on a burst's packets once it is known how each packet ends.
ghost use Rattle.std.specs.Prelude.{◌≡◌, List, slice_index_or, IsOk, OnOk};
ghost use Rattle.burst_law.specs.Bursts.{Message, Message.Lost};
ghost use Rattle.burst_law.specs.Noting.{lost_before, settled_listed, settled_one};
ghost use Rattle.settled_notes.specs.Settling.{line_counts, AddsNoLine, SameDrops};

use crate::listed::ListedNote;
use chain_walk::Fate;
use packet_function::Function;
use std::alloc::AllocError;

/// Settles the notes of the functions of a branch, which have these positions, on a burst whose packets have these
/// fates. The notes are settled one after another, in the order of the list, except those on packets that a function at
/// an earlier position dropped. The only error is that memory runs out.
pub fn settle_listed<F: Function>(
    functions: &mut [F],
    positions: &[u32],
    fates: &[Fate],
    listed: &[ListedNote],
) -> Result<(), AllocError>
    ensures settled { (ends : List Message) → SameDrops fates.now ends → OnOk result (functions.new ≡ settled_listed F.notes positions.now ends functions.old listed.now) }
    // Only one line more of a state needs memory.
    ensures known { (ends : List Message) → SameDrops fates.now ends → AddsNoLine F.rows F.notes positions.now ends functions.old listed.now → IsOk result }
{
    for note in listed {
        settle_one(functions, positions, fates, note)?;
    }
    Ok(())
}

/// Settles a note, unless its packet was dropped at an earlier position.
fn settle_one<F: Function>(
    functions: &mut [F],
    positions: &[u32],
    fates: &[Fate],
    note: &ListedNote,
) -> Result<(), AllocError>
    ensures settled { (ends : List Message) → SameDrops fates.now ends → OnOk result (functions.new ≡ settled_one F.notes positions.now ends functions.old note.now) }
    ensures known { (ends : List Message) → SameDrops fates.now ends → line_counts F.rows (settled_one F.notes positions.now ends functions.old note.now) ≡ line_counts F.rows functions.old → IsOk result }
{
    let index = note.index;
    if is_dropped_before(fates, note.packet, position_at(positions, index)) {
        return Ok(());
    }
    if index >= functions.len() {
        return Ok(());
    }
    functions[index].settle(&note.note)
}

/// The position at this place.
fn position_at(positions: &[u32], index: usize) -> u32
    ensures { result ≡ slice_index_or positions.now index 0 }
{
    match positions.get(index) {
        Some(position) => *position,
        None => 0,
    }
}

/// Was the packet with this number in the burst dropped before this position?
fn is_dropped_before(fates: &[Fate], packet: u32, position: u32) -> bool
    ensures { (ends : List Message) → SameDrops fates.now ends → result ≡ lost_before (slice_index_or ends packet (Lost 0)) position }
{
    match fates.get(packet as usize) {
        Some(Fate::Gone(at)) => *at < position,
        Some(Fate::Out(_)) => false,
        None => 0 < position,
    }
}
