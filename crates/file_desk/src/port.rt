// A slot over a file: the name, the file once there is one, the count of its faults, and the reason of the last fault.
ghost use Rattle.std.specs.Prelude.{◌≡◌, ◌≤◌, IfOk, OnOk, OnErr, IsOk, IsErr, IsErrOf, IsTrue, IfSome, MatchResult, Some, None, true};
ghost use Rattle.std.specs.String.{string_bytes};
ghost use Rattle.std.specs.Io.KnownBytes.{Keeps, ReadConsumes, WriteAppends};
ghost use Rattle.nfp_outside.specs.Outside.{KeepsSlot, HasCause, IsRisen, CountsFailure, one_more, Attaches, Reads, Writes, fresh_slot};
ghost use Rattle.file_desk.specs.Port.{port_view, left_in, account, bytes_put, IsHandedOn, IsSynced, IsWritten};

use crate::reason::{OpenFault, Reason};
use crate::system::OutputFile;
use crate::target::Target;
use nfp_outside::{DeskFault, Slot};
use std::io::{BufReader, BufWriter, Read, Write};

/// What a desk over files keeps of a slot.
#[derive(Drop)]
pub struct Port<F> {
    pub name: Option<String>,
    pub file: Option<F>,
    pub faults: u64,
    pub reason: Option<Reason>,
}

impl<F: Drop> Port<F> {
    pub fn new() -> Self
        ensures view { port_view result ≡ fresh_slot None }
        ensures no_file { result.file ≡ None }
    {
        Port {
            name: None,
            file: None,
            faults: 0,
            reason: None,
        }
    }

    // Counts a failure, and keeps its reason.
    fn fail(&mut self, reason: Reason) -> DeskFault
        ensures keeps { KeepsSlot (port_view self.old) (port_view self.new) }
        ensures later { self.old.faults ≤ self.new.faults }
        ensures risen { IsRisen self.old.faults self.new.faults }
        ensures one_more { self.new.faults ≡ one_more self.old.faults }
        ensures failed { result ≡ DeskFault.Failed }
        ensures same_file { self.new.file ≡ self.old.file }
    {
        self.faults = self.faults.saturating_add(1);
        self.reason = Some(reason);
        DeskFault::Failed
    }

    // Keeps the file and its name, if it could be opened.
    pub fn attach(
        &mut self,
        slot: Slot,
        name: String,
        opened: Result<F, OpenFault>,
    ) -> Result<(), DeskFault>
        ensures ok { OnOk result
            (Attaches slot (string_bytes name) (port_view self.old) (port_view self.new)) }
        ensures err { OnErr result (KeepsSlot (port_view self.old) (port_view self.new)) }
        ensures cause { HasCause (port_view self.old) (port_view self.new) result }
        ensures counted { CountsFailure self.old.faults self.new.faults result }
        ensures want { IsErrOf result DeskFault.NoMemory → IsErrOf opened OpenFault.NoMemory }
        ensures file { MatchResult opened
            (λ file. IsOk result × (self.new.file ≡ Some file))
            (λ _. IsErr result × (self.new.file ≡ self.old.file)) }
    {
        match opened {
            Ok(file) => {
                self.name = Some(name);
                self.file = Some(file);
                Ok(())
            }
            Err(OpenFault::Failed(reason)) => Err(self.fail(reason)),
            Err(OpenFault::NoMemory) => Err(DeskFault::NoMemory),
        }
    }
}

impl<F: Read + Drop> Port<BufReader<F>> {
    // A read that the file refuses is a failure, and never the end.
    pub fn read(&mut self, into: &mut [u8]) -> Result<usize, DeskFault>
        ensures ok { IfOk result (λ k. Reads k into.new (port_view self.old) (port_view self.new)) }
        ensures err { OnErr result (KeepsSlot (port_view self.old) (port_view self.new)) }
        ensures cause { HasCause (port_view self.old) (port_view self.new) result }
        ensures no_want { IsErrOf result DeskFault.NoMemory → ⊥ }
        ensures counted { CountsFailure self.old.faults self.new.faults result }
        ensures consumed { ReadConsumes (left_in F.remaining self.old) (left_in F.remaining self.new) result into.new }
    {
        match &mut self.file {
            Some(file) => match file.read(into) {
                Ok(count) => Ok(count),
                Err(error) => Err(self.fail(Reason::System(error))),
            },
            None => Err(self.fail(Reason::TookNothing)),
        }
    }
}

impl<F: OutputFile + Drop> Port<BufWriter<Target<F>>> {
    // A write that takes nothing of a piece is a failure.
    pub fn write(&mut self, bytes: &[u8]) -> Result<usize, DeskFault>
        ensures ok { IfOk result (λ k.
            Writes k bytes.now (port_view self.old) (port_view self.new)) }
        ensures err { OnErr result (KeepsSlot (port_view self.old) (port_view self.new)) }
        ensures cause { HasCause (port_view self.old) (port_view self.new) result }
        ensures no_want { IsErrOf result DeskFault.NoMemory → ⊥ }
        ensures counted { CountsFailure self.old.faults self.new.faults result }
        ensures put { WriteAppends (bytes_put (account F.contents self.old)) (bytes_put (account F.contents self.new)) result bytes.now }
    {
        match &mut self.file {
            Some(file) => match file.write(bytes) {
                Ok(count) if count > 0 || bytes.is_empty() => Ok(count),
                Ok(_) => Err(self.fail(Reason::TookNothing)),
                Err(error) => Err(self.fail(Reason::System(error))),
            },
            None => Err(self.fail(Reason::TookNothing)),
        }
    }

    // Hands the gathered bytes on to the file, unless a call of this slot has failed. Returns whether it took all of them.
    fn hand_on(&mut self) -> bool
        ensures view { port_view self.new ≡ port_view self.old }
        ensures put { Keeps (bytes_put (account F.contents self.old)) (bytes_put (account F.contents self.new)) }
        ensures handed_on { IsTrue result → IsHandedOn F.contents self.new }
    {
        match &mut self.file {
            Some(file) if self.faults == 0 => match file.flush() {
                Ok(()) => true,
                Err(error) => {
                    self.reason = Some(Reason::System(error));
                    false
                }
            },
            _ => true,
        }
    }

    // Brings what the file holds to the disk, unless a call of this slot has failed. Returns whether it is there.
    fn sync(&mut self) -> bool
        ensures view { port_view self.new ≡ port_view self.old }
        ensures put { Keeps (bytes_put (account F.contents self.old)) (bytes_put (account F.contents self.new)) }
        ensures handed_on { IsHandedOn F.contents self.old → IsHandedOn F.contents self.new }
        ensures synced { IsTrue result → IsSynced F.on_disk self.new }
    {
        match &mut self.file {
            Some(writer) if self.faults == 0 => match writer.get_mut().sync() {
                Ok(()) => true,
                Err(error) => {
                    self.reason = Some(Reason::System(error));
                    false
                }
            },
            _ => true,
        }
    }

    // Hands the gathered bytes on, and where `syncs` is true brings what the file holds to the disk then. Returns whether
    // both went well.
    pub fn finish(&mut self, syncs: bool) -> bool
        ensures view { port_view self.new ≡ port_view self.old }
        ensures put { Keeps (bytes_put (account F.contents self.old)) (bytes_put (account F.contents self.new)) }
        ensures handed_on { IsTrue result → IsHandedOn F.contents self.new }
        ensures synced { IsTrue result → syncs ≡ true → IsSynced F.on_disk self.new }
    {
        self.hand_on() && (!syncs || self.sync())
    }

    // Empties the file, if there is one. Returns whether it is empty, and keeps the reason if it can't be emptied.
    pub fn make_ready(&mut self) -> bool
        ensures view { port_view self.new ≡ port_view self.old }
        ensures put { Keeps (bytes_put (account F.contents self.old)) (bytes_put (account F.contents self.new)) }
        ensures ready { IsTrue result → IfSome (account F.contents self.new) (λ a. a.is_emptied ≡ true) }
    {
        match &mut self.file {
            Some(writer) => match writer.get_mut().empty() {
                Ok(()) => true,
                Err(error) => {
                    self.reason = Some(Reason::System(error));
                    false
                }
            },
            None => true,
        }
    }

    // Whether no call of this slot has failed, and its file, if there is one, holds what was put.
    pub fn is_written(&self) -> bool
        ensures { IsTrue result → IsWritten F.contents self.now }
    {
        if self.faults > 0 {
            return false;
        }
        match &self.file {
            Some(writer) => writer.get_ref().is_emptied() && writer.buffer().is_empty(),
            None => true,
        }
    }
}
