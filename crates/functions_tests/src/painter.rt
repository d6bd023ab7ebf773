//! A function that writes, drops and has a state: it writes into the type of service the number of packets that have
//! passed since it last dropped one, and drops every third packet.
ghost use Rattle.std.specs.Prelude.{◌∷◌, []};

use action_profile::{FieldSet, Profile};
use packet_fields::Field;
use packet_function::{DecidingLine, FlowNote, Function};
use packet_version::{Verdict, View, unwritten_stays, view_is_formed};
use std::alloc::{AllocError, Global};

#[derive(Drop)]
pub struct Painter {
    pub count: u8,
}

impl Function for Painter {
    ghost use Rattle.functions_tests.specs.Painter.{painter_behaviour, painter_keeps, no_notes, painter_counts};
    ghost use Rattle.functions_tests.specs.Painter.{painter_decides, painter_decides_drops};

    ghost behaviour = { painter_behaviour (λ f. f.count) (λ n. record { count = n }) };

    ghost notes = { no_notes };

    ghost lines = { λ f. f.count ∷ [] };

    ghost rows = { λ f. (f.count ∷ []) ∷ [] };

    ghost decides = { painter_decides (λ f. f.count) };

    fn profile(&self) -> Profile {
        Profile {
            reads: FieldSet::NONE,
            writes: FieldSet::TOS,
            drops: true,
            state: true,
            counts: false,
            adds: false,
            removes: false,
            whole: false,
        }
    }

    fn step(&mut self, view: &mut View) -> Result<Verdict, AllocError> {
        // These laws hold of a view in which nothing is written, and of its values.
        unwritten_stays(view);
        view_is_formed(view);
        if self.count >= 2 {
            self.count = 0;
            return Ok(Verdict::Drop);
        }
        if view.has(Field::Tos) {
            view.set(Field::Tos, &[self.count]);
        }
        self.count += 1;
        Ok(Verdict::Pass)
    }

    fn decide(&self, _view: &View, deciding: &mut Vec<DecidingLine>) -> Result<(), AllocError> {
        if self.count < 2 {
            return Ok(());
        }
        Ok(deciding.push(DecidingLine::Declaration)?)
    }

    // A painter counts nothing.
    fn look(&self, _view: &View) -> Option<FlowNote> {
        None
    }

    fn settle(&mut self, _note: &FlowNote) -> Result<(), AllocError> {
        Ok(())
    }

    fn state_lines(&self, out: &mut Vec<u8>) -> Result<(), AllocError> {
        Ok(out.push(self.count)?)
    }

    fn state_count(&self) -> usize {
        1
    }

    fn state_line(&self, _place: usize, out: &mut Vec<u8>) -> Result<(), AllocError> {
        Ok(out.push(self.count)?)
    }

    // A painter keeps a state, so there can't be two of it.
    fn try_clone(&self, _alloc: Global) -> Result<Option<Painter>, AllocError> {
        Ok(None)
    }

    ghost keeps = { painter_keeps (λ f. f.count) (λ n. record { count = n }) };

    ghost decides_drops = { painter_decides_drops (λ f. f.count) (λ n. record { count = n }) };

    ghost counts = { painter_counts (λ f. f.count) (λ n. record { count = n }) };
}
