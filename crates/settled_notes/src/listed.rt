//! The notes of the functions of a branch on the packets of a burst, kept until it is known how each packet ends.
ghost use Rattle.std.specs.Prelude.{◌≡◌, ◌++◌, ◌∷◌, [], OnOk, OnErr};
ghost use Rattle.burst_law.specs.Noting.{row_listed};

use packet_function::FlowNote;
use std::alloc::AllocError;
use std::marker::Model;

/// A note of the packet with this number in the burst, counted from 0, by the function at this place in its branch,
/// counted from 0.
#[derive(Drop)]
pub struct ListedNote {
    pub packet: u32,
    pub index: usize,
    pub note: FlowNote,
}

impl Model for ListedNote {
    ghost use Rattle.burst_law.specs.Noting.{OwnNote};
    ghost use Rattle.packet_function.specs.declared.note.FlowNote.{FlowNote as Note};

    ghost Value = { OwnNote Note };

    ghost view = { λ n. record { packet = n.packet; index = n.index; note = n.note } };
}

/// Lists what a function noted, if it noted anything.
pub fn list_note(
    listed: &mut Vec<ListedNote>,
    packet: u32,
    index: usize,
    note: Option<FlowNote>,
) -> Result<(), AllocError>
    ensures adds { OnOk result (listed.new.items ≡ listed.old.items ++ row_listed packet index (note ∷ [])) }
    ensures stays { OnErr result (listed.new.items ≡ listed.old.items) }
{
    if let Some(note) = note {
        listed.push(ListedNote {
            packet,
            index,
            note,
        })?;
    }
    Ok(())
}
