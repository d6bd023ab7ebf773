//! A function with its name.

use action_profile::Profile;
use net_functions::NetFunction;
use packet_function::{DecidingLine, FlowNote, Function};
use packet_version::{Verdict, View};
use policy_text::Name;
use std::alloc::{AllocError, Global};

/// A function with its name.
#[derive(Debug, Drop)]
pub struct NamedFunction {
    pub name: Name,
    pub function: NetFunction,
}

impl Function for NamedFunction {
    ghost use Rattle.policy_chains.specs.NamedFunctions.{named_behaviour, named_decides, named_lines};
    ghost use Rattle.policy_chains.specs.NamedFunctionLaws.{named_keeps, named_decides_drops};
    ghost use Rattle.policy_chains.specs.NamedNotes.{named_notes, named_counts};
    ghost use Rattle.policy_chains.specs.StateRows.{named_rows};

    ghost behaviour = { named_behaviour };

    ghost notes = { named_notes };

    ghost lines = { named_lines };

    ghost rows = { named_rows };

    ghost decides = { named_decides };

    fn profile(&self) -> Profile {
        self.function.profile()
    }

    fn step(&mut self, view: &mut View) -> Result<Verdict, AllocError> {
        self.function.step(view)
    }

    fn decide(&self, view: &View, deciding: &mut Vec<DecidingLine>) -> Result<(), AllocError> {
        self.function.decide(view, deciding)
    }

    fn look(&self, view: &View) -> Option<FlowNote> {
        self.function.look(view)
    }

    fn settle(&mut self, note: &FlowNote) -> Result<(), AllocError> {
        self.function.settle(note)
    }

    fn state_lines(&self, out: &mut Vec<u8>) -> Result<(), AllocError> {
        self.function.state_lines(out)
    }

    fn state_count(&self) -> usize {
        self.function.state_count()
    }

    fn state_line(&self, place: usize, out: &mut Vec<u8>) -> Result<(), AllocError> {
        self.function.state_line(place, out)
    }

    fn try_clone(&self, alloc: Global) -> Result<Option<NamedFunction>, AllocError> {
        let name = Name::new(self.name.bytes().to_vec(alloc)?);
        match self.function.try_clone(alloc)? {
            Some(function) => Ok(Some(NamedFunction { name, function })),
            None => Ok(None),
        }
    }

    ghost keeps = { named_keeps };

    ghost decides_drops = { named_decides_drops };

    ghost counts = { named_counts };
}
