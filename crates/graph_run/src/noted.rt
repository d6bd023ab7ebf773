//! The notes of functions that count on one packet, kept until it is known how the packet ends.
ghost use Rattle.std.specs.Prelude.{◌≡◌, ◌++◌, ◌-◌, ◌∷◌, [], OnOk, slice_get};
ghost use Rattle.burst_law.specs.Placed.{placed, settled_there, settled_where, settled_placed};
ghost use Rattle.graph_run.specs.Settling.{gone_at};

use chain_walk::Fate;
use packet_function::{FlowNote, Function};
use std::alloc::AllocError;
use std::marker::Model;

/// A note, and the chain position of the function that made it.
#[derive(Drop)]
pub(crate) struct Noted {
    position: u32,
    note: FlowNote,
}

impl Model for Noted {
    ghost use Rattle.burst_law.specs.Placed.{PlacedNote};
    ghost use Rattle.packet_function.specs.declared.note.FlowNote.{FlowNote};

    ghost Value = { PlacedNote FlowNote };

    ghost view = { λ n. record { position = n.position; note = n.note } };
}

/// Adds the note of the function at this position, if there is one, to the notes of the packet.
#[inline(always)]
pub(crate) fn note_down(
    notes: &mut Vec<Noted>,
    position: u32,
    note: Option<FlowNote>,
) -> Result<(), AllocError>
    ensures { OnOk result (notes.new.items ≡ notes.old.items ++ placed (position ∷ []) (note ∷ [])) }
{
    if let Some(note) = note {
        notes.push(Noted { position, note })?;
    }
    Ok(())
}

/// Settles the notes of a packet with this fate, in their order: each by the function that made it, except those of
/// functions after the one that dropped the packet. No note is left.
pub(crate) fn settle_all<F: Function>(
    functions: &mut [F],
    notes: &mut Vec<Noted>,
    fate: &Fate,
) -> Result<(), AllocError>
    ensures functions { OnOk result (functions.new ≡ settled_placed F.notes (gone_at fate.now) functions.old notes.old.items) }
    ensures emptied { OnOk result (notes.new.items ≡ []) }
{
    for noted in notes.as_slice() {
        settle_where(functions, noted, fate)?;
    }
    notes.clear();
    Ok(())
}

/// Settles a note, unless a function before the one that made it dropped the packet.
fn settle_where<F: Function>(
    functions: &mut [F],
    noted: &Noted,
    fate: &Fate,
) -> Result<(), AllocError>
    ensures { OnOk result (functions.new ≡ settled_where F.notes (gone_at fate.now) functions.old noted.now) }
{
    if is_gone_before(fate, noted.position) {
        return Ok(());
    }
    settle_there(functions, noted)
}

/// Settles a note by the function that made it.
fn settle_there<F: Function>(functions: &mut [F], noted: &Noted) -> Result<(), AllocError>
    ensures { OnOk result (functions.new ≡ settled_there F.notes noted.now (slice_get functions.old (noted.now.position - 1)) functions.old) }
{
    let index = noted.position.saturating_sub(1) as usize;
    if index < functions.len() {
        functions[index].settle(&noted.note)
    } else {
        Ok(())
    }
}

/// Was a packet with this fate dropped before this position?
fn is_gone_before(fate: &Fate, position: u32) -> bool
    ensures { result ≡ gone_at fate.now position }
{
    match fate {
        Fate::Out(_) => false,
        Fate::Gone(dropped) => *dropped < position,
    }
}
