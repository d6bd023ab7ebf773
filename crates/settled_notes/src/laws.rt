//! A property of functions that count.
ghost use Rattle.chain_walk.specs.Notes.{CountsByNotes};

use packet_function::Function;

/// A function that counts, of any kind, only notes a packet and settles the note, and no note depends on what was
/// settled.
pub fn functions_count_by_notes<F: Function>()
    ensures { CountsByNotes F.behaviour F.notes }
{}
