// Slots in memory: one to read from, and one to write to. Neither ever fails.
ghost use Rattle.std.specs.Prelude.{◌≤◌, length};

use crate::slot::DeskFault;
use std::alloc::Global;

/// The bytes of a read slot, of which the first `taken` were read.
#[derive(Drop)]
pub struct Source {
    pub name: Option<String>,
    pub bytes: Vec<u8>,
    pub taken: usize,
    ghost within: { taken ≤ length bytes.items },
}

/// A write slot: its name, and the bytes that were put into it.
#[derive(Drop)]
pub struct Sink {
    pub name: Option<String>,
    pub bytes: Vec<u8>,
}

impl Source {
    ghost use Rattle.std.specs.Prelude.{◌≡◌, ◌≤◌, length, drop, min, IsOk, IfOk, OnOk, OnErr, IsErrOf, Some, None};
    ghost use Rattle.nfp_outside.specs.Outside.{fresh_slot, KeepsSlot, Reads};
    ghost use Rattle.nfp_outside.specs.Memory.{source_view, left_in, moved};

    pub fn new(bytes: Vec<u8>) -> Self
        ensures { source_view result ≡ fresh_slot (Some bytes.items) }
    {
        Source {
            name: None,
            bytes,
            taken: 0,
        }
    }

    // Keeps a copy of the name.
    pub fn attach(&mut self, alloc: Global, name: &str) -> Result<(), DeskFault>
        ensures name { OnOk result ((source_view self.new).name ≡ Some name.now) }
        ensures bytes { (source_view self.new).bytes ≡ (source_view self.old).bytes }
        ensures err { OnErr result (KeepsSlot (source_view self.old) (source_view self.new)) }
        ensures never_fails { IsErrOf result DeskFault.Failed → ⊥ }
    {
        match String::from_str(alloc, name) {
            Ok(text) => {
                self.name = Some(text);
                Ok(())
            }
            Err(_) => Err(DeskFault::NoMemory),
        }
    }

    // Takes as much as it can, up to the step.
    pub fn read(&mut self, into: &mut [u8], step: usize) -> usize
        requires { 1 ≤ step }
        ensures reads { Reads result into.new (source_view self.old) (source_view self.new) }
        ensures moves { result ≡ moved step (left_in self.old) (length into.old) }
    {
        let count = (self.bytes.len() - self.taken).min(into.len()).min(step);
        let end = self.taken + count;
        into[..count].copy_from_slice(&self.bytes[self.taken..end]);
        self.taken = end;
        count
    }
}

impl Sink {
    ghost use Rattle.std.specs.Prelude.{◌≡◌, ◌≤◌, length, min, IfOk, OnOk, OnErr, IsErrOf, Some, None, []};
    ghost use Rattle.nfp_outside.specs.Outside.{fresh_slot, KeepsSlot, Writes};
    ghost use Rattle.nfp_outside.specs.Memory.{sink_view};

    pub fn new(alloc: Global) -> Self
        ensures { sink_view result ≡ fresh_slot (Some []) }
    {
        Sink {
            name: None,
            bytes: Vec::new(alloc),
        }
    }

    // Keeps a copy of the name, and drops the bytes that were put before.
    pub fn attach(&mut self, alloc: Global, name: &str) -> Result<(), DeskFault>
        ensures name { OnOk result ((sink_view self.new).name ≡ Some name.now) }
        ensures bytes { OnOk result ((sink_view self.new).bytes ≡ Some []) }
        ensures err { OnErr result (KeepsSlot (sink_view self.old) (sink_view self.new)) }
        ensures never_fails { IsErrOf result DeskFault.Failed → ⊥ }
    {
        match String::from_str(alloc, name) {
            Ok(text) => {
                self.name = Some(text);
                self.bytes.clear();
                Ok(())
            }
            Err(_) => Err(DeskFault::NoMemory),
        }
    }

    // Puts as much of the piece as it can, up to the step.
    pub fn write(&mut self, piece: &[u8], step: usize) -> Result<usize, DeskFault>
        requires { 1 ≤ step }
        ensures ok { IfOk result (λ k.
            Writes k piece.now (sink_view self.old) (sink_view self.new)) }
        ensures moves { IfOk result (λ k. k ≡ min step (length piece.now)) }
        ensures err { OnErr result (KeepsSlot (sink_view self.old) (sink_view self.new)) }
        ensures never_fails { IsErrOf result DeskFault.Failed → ⊥ }
    {
        let count = piece.len().min(step);
        match self.bytes.extend_from_slice(&piece[..count]) {
            Ok(()) => Ok(count),
            Err(_) => Err(DeskFault::NoMemory),
        }
    }
}
