//! A network function that sees a packet through a view.
ghost use Rattle.std.specs.Prelude.{◌≡◌, ◌<◌, ◌++◌, ℕ, List, [], length, slice_index_or, true, false, is_some, IsOk, IfOk, OnOk, OnErr, IsSome, IfSome};
ghost use Rattle.std.specs.List.{flat_map};
ghost use Rattle.packet_fields.specs.declared.field.Field.{Field};
ghost use Rattle.chain_walk.specs.Step.{Behaviour};
ghost use Rattle.chain_walk.specs.Laws.{KeepsProfile};
ghost use Rattle.chain_walk.specs.Notes.{Notes, noted, CountsByNotes};
ghost use Rattle.packet_function.specs.declared.note.FlowNote.{FlowNote};
ghost use Rattle.packet_version.specs.Views.{seen_parts, seen_values, viewed, wrote_all, HasTagRoom};
ghost use Rattle.packet_function.specs.Deciding.{Deciding, decided, DecidesDrops};
ghost use Rattle.packet_function.specs.Replicas.{may_be_several};

use crate::deciding::DecidingLine;
use crate::note::FlowNote;
use action_profile::Profile;
use packet_version::{Verdict, View};
use std::alloc::{AllocError, Global};

/// A network function of any kind.
pub trait Function: Sized {
    /// What each function may do, and what it does as a function of what it sees.
    ghost behaviour: { Behaviour Self };

    /// What each function notes of a packet that it counts, and how it settles a note.
    ghost notes: { Notes Self FlowNote };

    /// The lines that show its state.
    ghost lines: { Self → List ℕ };

    /// The same lines, each by itself.
    ghost rows: { Self → List (List ℕ) };

    /// The lines of its declaration that decide what it does to a packet.
    ghost decides: { Deciding Self };

    /// What it may do.
    fn profile(&self) -> Profile
        ensures { result ≡ behaviour.profile self.now };

    /// Acts on one packet, which it sees through a view of its own profile. A function that may add a tag has room for
    /// it, and one that keeps no state needs no memory. A function that counts doesn't step: it looks at a packet, and
    /// settles what it noted.
    fn step(&mut self, view: &mut View) -> Result<Verdict, AllocError>
        requires steps { (behaviour.profile self.old).counts ≡ false }
        requires profile { view.old.profile ≡ behaviour.profile self.old }
        requires room { (behaviour.profile self.old).adds ≡ true → IsSome (seen_parts view.old Field.Tag) → HasTagRoom view.old }
        ensures after { OnOk result (self.new ≡ (viewed behaviour self.old view.old).after) }
        ensures verdict { IfOk result (λ verdict. verdict ≡ (viewed behaviour self.old view.old).verdict) }
        ensures view { OnOk result (view.new ≡ wrote_all (viewed behaviour self.old view.old).written view.old) }
        // If memory runs out, nothing has changed.
        ensures function_stays { OnErr result (self.new ≡ self.old) }
        ensures view_stays { OnErr result (view.new ≡ view.old) }
        // Only a state needs memory, and only for one line more.
        ensures stateless { (behaviour.profile self.old).state ≡ false → IsOk result }
        ensures known { length (rows (viewed behaviour self.old view.old).after) ≡ length (rows self.old) → IsOk result };

    /// Appends the lines of its declaration that decide what it does to one packet in its present state. It sees the
    /// packet through a view of its own profile, before its step. If memory runs out, it appends nothing.
    fn decide(&self, view: &View, deciding: &mut Vec<DecidingLine>) -> Result<(), AllocError>
        requires profile { view.now.profile ≡ behaviour.profile self.now }
        ensures decided { OnOk result (deciding.new.items ≡ deciding.old.items ++ decided behaviour decides view.now.version.fixed self.now (seen_values view.now)) }
        ensures stays { OnErr result (deciding.new.items ≡ deciding.old.items) };

    /// What a function that counts notes of one packet, which it sees through a view of its own profile. A function
    /// that doesn't count notes nothing. Allocates nothing.
    fn look(&self, view: &View) -> Option<FlowNote>
        requires profile { view.now.profile ≡ behaviour.profile self.now }
        ensures noted { result ≡ noted behaviour notes view.now.version.fixed self.now (seen_values view.now) };

    /// Settles what it noted of a packet. A function that doesn't count doesn't change.
    fn settle(&mut self, note: &FlowNote) -> Result<(), AllocError>
        ensures settled { OnOk result (self.new ≡ notes.settle self.old note.now) }
        // If memory runs out, nothing has changed.
        ensures stays { OnErr result (self.new ≡ self.old) }
        // Only counts need memory, and only for one line more.
        ensures uncounted { (behaviour.profile self.old).counts ≡ false → IsOk result }
        ensures known { length (rows (notes.settle self.old note.now)) ≡ length (rows self.old) → IsOk result }
        ensures same { (behaviour.profile self.old).counts ≡ false → self.new ≡ self.old };

    /// Appends the lines that show its state. If memory runs out, it appends nothing. A function that neither keeps a
    /// state nor counts needs no memory.
    fn state_lines(&self, out: &mut Vec<u8>) -> Result<(), AllocError>
        ensures lines { OnOk result (out.new.items ≡ out.old.items ++ lines self.now) }
        ensures stays { OnErr result (out.new.items ≡ out.old.items) }
        ensures stateless { (behaviour.profile self.now).state ≡ false → (behaviour.profile self.now).counts ≡ false → IsOk result };

    /// The number of lines that show its state.
    fn state_count(&self) -> usize
        ensures count { result ≡ length (rows self.now) }
        ensures told { flat_map (λ row. row) (rows self.now) ≡ lines self.now };

    /// Appends the line at a place among those that show its state, counted from 0. If memory runs out, it appends
    /// nothing.
    fn state_line(&self, place: usize, out: &mut Vec<u8>) -> Result<(), AllocError>
        requires inside { place < length (rows self.now) }
        ensures line { OnOk result (out.new.items ≡ out.old.items ++ slice_index_or (rows self.now) place []) }
        ensures stays { OnErr result (out.new.items ≡ out.old.items) };

    /// The same function once more, or `None` if its profile doesn't let several copies work at once: a state can't be
    /// in two places. The only error is that memory runs out.
    fn try_clone(&self, alloc: Global) -> Result<Option<Self>, AllocError>
        ensures same { IfOk result (λ found. IfSome found (λ function. function ≡ self.now)) }
        ensures which { IfOk result (λ found. is_some found ≡ may_be_several (behaviour.profile self.now)) };

    /// It does what its profile says, and no more.
    ghost keeps: { KeepsProfile behaviour };

    /// Each drop has exactly one deciding line.
    ghost decides_drops: { DecidesDrops behaviour decides };

    /// If it counts, its step is to note a packet and to settle the note.
    ghost counts: { CountsByNotes behaviour notes };
}
