// A desk over files and standard output.
ghost use Rattle.std.specs.Prelude.{◌≡◌, ◌≢◌, IfOk, IfErr, OnOk, OnErr, IsErrOf, IsNone, IsSome, IsSomeAnd, IsTrue, None, false, true, ◌⊎◌, []};
ghost use Rattle.std.specs.Io.Buffered.{writer_inner};
ghost use Rattle.std.specs.Io.KnownBytes.{Keeps, IsAtEnd, ReadConsumes, WriteAppends};
ghost use Rattle.nfp_outside.specs.declared.slot.Slot.{Slot};
ghost use Rattle.nfp_outside.specs.Outside.{is_read, fresh_slot, KeepsSlot, Attaches, Reads, Writes, HasCause, CountsFailure};
ghost use Rattle.file_desk.specs.Accounts.{IsAsOpened, IsEmpty};
ghost use Rattle.file_desk.specs.Apart.{Differ};
ghost use Rattle.file_desk.specs.Desks.{IsAllSynced, IsAllWritten, IsApart};
ghost use Rattle.file_desk.specs.Port.{port_view, stream_view, left_at, account, account_of, bytes_put, input_identity, output_identity, IsHandedOn};
ghost use Rattle.std.specs.String.{string_bytes};
ghost use Rattle.nfp_outside.specs.Slots.{at_slot};

use crate::identity::Identity;
use crate::port::Port;
use crate::reason::{OpenFault, Reason};
use crate::system::{InputFile, OutputFile, Stream, System};
use crate::target::Target;
use nfp_outside::{Desk, DeskFault, Slot};
use std::alloc::Global;
use std::io::{BufReader, BufWriter};

// The size of the read buffer. A read of as much or more goes straight to the file.
const READ_AHEAD: usize = 65536;

// The size of the write buffer. A piece of as much or more goes straight to the file.
const GATHERED: usize = 65536;

/// A desk over files, and for Note over standard output: the name of a slot is the path of its file. Its view shows no
/// bytes.
///
/// A file to read must exist; a file to write is created, or emptied. Out or Report isn't attached, and no file is
/// emptied for it, if its name leads to a file that is attached already, to a regular file to which standard output or
/// standard error leads, or to one that another run has locked. Both are locked as soon as they are open, and emptied
/// once Report is attached. If Report is refused, the file of Out is removed if it was created for it. If Report is never
/// attached, Out is emptied before it takes its first bytes, and at the latest before Note takes any, unless a call
/// failed. Files are compared by device and inode number. If the system has no such numbers, and for character
/// devices, no two files count as the same.
///
/// A file to read isn't attached if standard output or standard error leads to it. If standard output does, Note takes
/// nothing.
///
/// Reads are buffered, and what is written to a file is gathered and passed on in pieces of 64 KiB, in the order of the
/// calls. Before Note takes anything, all gathered bytes are written to their files, and with [`FileDesk::set_sync`] these
/// are brought to the disk; if that fails, the write of Note is refused, and [`FileDesk::hand_on`] returns the slot for
/// which it failed. Bytes that are still gathered when the desk
/// is dropped are written then, if possible.
///
/// Each failed open, read or write raises the count of its own slot, up to the maximum of `u64`, and no other count. So
/// a failed write of gathered bytes counts when it is found: at the call of its own slot that needed the room, or at
/// that of Note.
#[derive(Drop)]
pub struct FileDesk<S: System + Drop> {
    system: S,
    policy: Port<BufReader<S::Input>>,
    capture: Port<BufReader<S::Input>>,
    out: Port<BufWriter<Target<S::Output>>>,
    report: Port<BufWriter<Target<S::Output>>>,
    note_faults: u64,
    graph: Port<BufReader<S::Input>>,
    lost: Option<Slot>,
    syncs: bool,
}

impl<S: System + Drop> FileDesk<S> {
    /// A desk over the files of a system. Nothing is attached, and every count is 0.
    #[tactic(auto, unfolding(nfp_outside::specs::Slots::at_slot))]
    pub fn new(system: S) -> Self
        ensures { (s : Slot) → ⟦<FileDesk<S> as Desk>⟧.slots result s ≡ fresh_slot None }
    {
        FileDesk {
            system,
            policy: Port::new(),
            capture: Port::new(),
            out: Port::new(),
            report: Port::new(),
            note_faults: 0,
            graph: Port::new(),
            lost: None,
            syncs: false,
        }
    }

    /// Whether the files of Out and Report are brought to the disk before Note takes anything. A new desk doesn't do it.
    #[tactic(auto, unfolding(nfp_outside::specs::Slots::at_slot))]
    pub fn set_sync(&mut self, syncs: bool)
        ensures view { let slots = ⟦<FileDesk<S> as Desk>⟧.slots in
            (s : Slot) → slots self.new s ≡ slots self.old s }
        ensures syncs { self.new.syncs ≡ syncs }
        ensures out_same { self.new.out ≡ self.old.out }
        ensures report_same { self.new.report ≡ self.old.report }
    {
        self.syncs = syncs;
    }

    // A file to read, with a buffer in front of it. No stream of the program leads to it, so nothing that is printed gets
    // into it.
    fn open_input(&self, name: &str) -> Result<BufReader<S::Input>, OpenFault> {
        let file = match self.system.open_input(name) {
            Ok(file) => file,
            Err(error) => return Err(OpenFault::Failed(Reason::System(error))),
        };
        match streams_to(&self.system, file.identity()) {
            Some(streams) => Err(OpenFault::Failed(streams)),
            None => BufReader::with_capacity(self.system.alloc(), READ_AHEAD, file).map_err(
                |_| OpenFault::NoMemory,
            ),
        }
    }

    // Whether standard output leads to a file that was to be read.
    fn prints_into_input(&self) -> bool {
        is_printed(self.policy.reason)
            || is_printed(self.capture.reason)
            || is_printed(self.graph.reason)
    }

    // A file to write that isn't attached yet, locked. Its content stays.
    fn open_target(&self, name: &str) -> Result<Target<S::Output>, OpenFault>
        ensures as_it_was { IfOk result (λ target. target.is_emptied ≡ false) }
        ensures apart { IfOk result (λ target. IsApart S.Input.known_as S.Output.known_as (S.Output.known_as target.file) self.now) }
    {
        let file = match self.system.open_output(name) {
            Ok(file) => file,
            Err(error) => return Err(OpenFault::Failed(Reason::System(error))),
        };
        let target = Target::new(file);
        if let Some(holder) = self.holder(target.identity()) {
            return Err(OpenFault::Failed(holder));
        }
        if !target.lock() {
            return Err(OpenFault::Failed(Reason::Locked));
        }
        Ok(target)
    }

    // Out, whose content stays until Report is attached too.
    fn open_out(&self, name: &str) -> Result<BufWriter<Target<S::Output>>, OpenFault>
        ensures as_opened { IfOk result (λ writer. IsAsOpened (account_of S.Output.contents writer)) }
        ensures apart { IfOk result (λ writer.
            IsApart S.Input.known_as S.Output.known_as (S.Output.known_as (writer_inner writer).file) self.now) }
    {
        let target = self.open_target(name)?;
        gathering(self.system.alloc(), target)
    }

    // Report, emptied.
    fn open_report(&self, name: &str) -> Result<BufWriter<Target<S::Output>>, OpenFault>
        ensures empty { IfOk result (λ writer. IsEmpty (account_of S.Output.contents writer)) }
        ensures apart { IfOk result (λ writer.
            IsApart S.Input.known_as S.Output.known_as (S.Output.known_as (writer_inner writer).file) self.now) }
    {
        let mut target = self.open_target(name)?;
        match target.empty() {
            Ok(()) => gathering(self.system.alloc(), target),
            Err(error) => Err(OpenFault::Failed(Reason::System(error))),
        }
    }

    // What already uses the file with this identity: a slot, or a stream of the program itself.
    fn holder(&self, file: Option<Identity>) -> Option<Reason>
        ensures { IsNone result → IsApart S.Input.known_as S.Output.known_as file self.now }
    {
        if is_one(file, identity_read(&self.policy)) {
            Some(Reason::AttachedAt(Slot::Policy))
        } else if is_one(file, identity_read(&self.capture)) {
            Some(Reason::AttachedAt(Slot::Capture))
        } else if is_one(file, identity_read(&self.graph)) {
            Some(Reason::AttachedAt(Slot::Graph))
        } else if is_one(file, identity_written(&self.out)) {
            Some(Reason::AttachedAt(Slot::Out))
        } else if is_one(file, identity_written(&self.report)) {
            Some(Reason::AttachedAt(Slot::Report))
        } else {
            stream_to(&self.system, file)
        }
    }

    // Removes the file of Out again if it was created for this run.
    fn remove_new_out(&self) {
        if let Some(name) = &self.out.name
            && let Some(writer) = &self.out.file
            && writer.get_ref().is_new()
        {
            let _ = self.system.remove(name.as_str());
        }
    }

    // Empties Out if it is attached alone and no call failed: nothing may have been put into it, and what it held before is
    // no part of this call.
    fn empty_lone_out(&mut self)
        ensures view { let slots = ⟦<FileDesk<S> as Desk>⟧.slots in
            (s : Slot) → slots self.new s ≡ slots self.old s }
        ensures out_put { Keeps (bytes_put (account S.Output.contents self.old.out))
            (bytes_put (account S.Output.contents self.new.out)) }
        ensures report_same { self.new.report ≡ self.old.report }
        ensures same_syncs { self.new.syncs ≡ self.old.syncs }
    {
        let is_alone = self.report.name.is_none() && self.report.faults == 0;
        if is_alone && self.capture.faults == 0 && self.out.faults == 0 && !self.out.make_ready() {
            self.lost = Some(Slot::Out);
        }
    }

    /// Why the last failed call on a slot failed, or why its gathered bytes were lost. `None` if neither happened, and
    /// for Note.
    pub fn reason(&self, slot: Slot) -> Option<Reason> {
        match slot {
            Slot::Policy => self.policy.reason,
            Slot::Capture => self.capture.reason,
            Slot::Out => self.out.reason,
            Slot::Report => self.report.reason,
            Slot::Note => None,
            Slot::Graph => self.graph.reason,
        }
    }

    /// Whether the file of Capture was opened.
    pub fn has_capture(&self) -> bool {
        self.capture.file.is_some()
    }

    /// Hands the gathered bytes on to their files, which are brought to the disk then if [`FileDesk::set_sync`] asked for
    /// it. Returns the first slot for which either failed. A slot that has failed at one of its own calls, which reported it,
    /// is left out.
    #[tactic(auto, unfolding(nfp_outside::specs::Slots::at_slot))]
    pub fn hand_on(&mut self) -> Option<Slot>
        ensures view { let slots = ⟦<FileDesk<S> as Desk>⟧.slots in
            (s : Slot) → slots self.new s ≡ slots self.old s }
        ensures out_put { Keeps (bytes_put (account S.Output.contents self.old.out))
            (bytes_put (account S.Output.contents self.new.out)) }
        ensures report_put { Keeps (bytes_put (account S.Output.contents self.old.report))
            (bytes_put (account S.Output.contents self.new.report)) }
        ensures out_handed_on { IsNone result → IsHandedOn S.Output.contents self.new.out }
        ensures report_handed_on { IsNone result → IsHandedOn S.Output.contents self.new.report }
        ensures synced { IsNone result → self.old.syncs ≡ true → IsAllSynced S.Output.on_disk self.new }
        ensures same_syncs { self.new.syncs ≡ self.old.syncs }
    {
        if self.lost.is_none() {
            if !self.out.finish(self.syncs) {
                self.lost = Some(Slot::Out);
            } else if !self.report.finish(self.syncs) {
                self.lost = Some(Slot::Report);
            }
        }
        self.lost
    }

    /// The first of Out and Report that has failed, or whose file doesn't hold all that was put into it.
    pub fn unwritten(&self) -> Option<Slot>
        ensures { IsNone result → IsAllWritten S.Output.contents self.now }
    {
        if !self.out.is_written() {
            Some(Slot::Out)
        } else if !self.report.is_written() {
            Some(Slot::Report)
        } else {
            None
        }
    }
}

impl<S: System + Drop> Desk for FileDesk<S> {
    ghost slots = { λ d. at_slot
        (port_view d.policy) (port_view d.capture)
        (port_view d.out) (port_view d.report) (stream_view d.note_faults)
        (port_view d.graph) };

    /// `Failed` if the file can't be opened, and at Out and Report also if the file is attached already, or if standard
    /// output or standard error leads to it. The count of the slot rises by one then, and in no other case.
    #[tactic(auto, unfolding(nfp_outside::specs::Slots::at_slot))]
    fn attach(&mut self, slot: Slot, name: &str) -> Result<(), DeskFault>
        requires not_note { slot ≢ Slot.Note }
        requires free { IsNone (⟦<FileDesk<S> as Desk>⟧.slots self.old slot).name }
        ensures ok { let slots = ⟦<FileDesk<S> as Desk>⟧.slots in
            OnOk result (Attaches slot name.now (slots self.old slot) (slots self.new slot)) }
        ensures err { let slots = ⟦<FileDesk<S> as Desk>⟧.slots in
            OnErr result (KeepsSlot (slots self.old slot) (slots self.new slot)) }
        ensures cause { let slots = ⟦<FileDesk<S> as Desk>⟧.slots in
            HasCause (slots self.old slot) (slots self.new slot) result }
        ensures others { let slots = ⟦<FileDesk<S> as Desk>⟧.slots in
            (s : Slot) → s ≢ slot → slots self.new s ≡ slots self.old s }
        ensures counted { let slots = ⟦<FileDesk<S> as Desk>⟧.slots in
            CountsFailure (slots self.old slot).faults (slots self.new slot).faults result }

        // Out stays as it was until Report is attached.
        ensures out_untouched { slot ≡ Slot.Out →
            OnOk result (IsSomeAnd (account S.Output.contents self.new.out) IsAsOpened) }
        ensures out_kept { slot ≢ Slot.Out → slot ≢ Slot.Report → self.new.out ≡ self.old.out }
        ensures out_not_emptied { slot ≡ Slot.Report → OnErr result (self.new.out ≡ self.old.out) }
        ensures out_put { slot ≡ Slot.Report → Keeps (bytes_put (account S.Output.contents self.old.out))
            (bytes_put (account S.Output.contents self.new.out)) }
        ensures report_empty { slot ≡ Slot.Report →
            OnOk result (IsSomeAnd (account S.Output.contents self.new.report) IsEmpty) }
        ensures report_kept { slot ≢ Slot.Report → self.new.report ≡ self.old.report }

        // A file to write is none of the other files.
        ensures out_apart { slot ≡ Slot.Out → OnOk result (IsApart S.Input.known_as S.Output.known_as
            (output_identity S.Output.known_as self.new.out) self.old) }
        ensures report_apart { slot ≡ Slot.Report → OnOk result (IsApart S.Input.known_as S.Output.known_as
            (output_identity S.Output.known_as self.new.report) self.old) }
        ensures same_syncs { self.new.syncs ≡ self.old.syncs }
    {
        let text = copy_of(self.system.alloc(), name)?;
        match slot {
            Slot::Policy => {
                let opened = self.open_input(name);
                self.policy.attach(slot, text, opened)
            }
            Slot::Capture => {
                let opened = self.open_input(name);
                self.capture.attach(slot, text, opened)
            }
            Slot::Out => {
                let opened = self.open_out(name);
                self.out.attach(slot, text, opened)
            }
            Slot::Report => {
                let opened = self.open_report(name);
                if opened.is_err() {
                    self.remove_new_out();
                }
                self.report.attach(slot, text, opened)?;
                // If it can't be emptied, its first bytes can't be written either.
                let _ = self.out.make_ready();
                Ok(())
            }
            Slot::Note => unreachable!(),
            Slot::Graph => {
                let opened = self.open_input(name);
                self.graph.attach(slot, text, opened)
            }
        }
    }

    /// `Failed` if the file can't be read. The count of the slot rises by one then, and in no other
    /// case.
    #[tactic(auto, unfolding(nfp_outside::specs::Slots::at_slot))]
    fn read(&mut self, slot: Slot, into: &mut [u8]) -> Result<usize, DeskFault>
        requires read_slot { IsTrue (is_read slot) }
        requires attached { IsSome (⟦<FileDesk<S> as Desk>⟧.slots self.old slot).name }
        ensures ok { let slots = ⟦<FileDesk<S> as Desk>⟧.slots in
            IfOk result (λ k. Reads k into.new (slots self.old slot) (slots self.new slot)) }
        ensures err { let slots = ⟦<FileDesk<S> as Desk>⟧.slots in
            OnErr result (KeepsSlot (slots self.old slot) (slots self.new slot)) }
        ensures cause { let slots = ⟦<FileDesk<S> as Desk>⟧.slots in
            HasCause (slots self.old slot) (slots self.new slot) result }
        ensures others { let slots = ⟦<FileDesk<S> as Desk>⟧.slots in
            (s : Slot) → s ≢ slot → slots self.new s ≡ slots self.old s }
        ensures no_want { IsErrOf result DeskFault.NoMemory → ⊥ }
        ensures counted { let slots = ⟦<FileDesk<S> as Desk>⟧.slots in
            CountsFailure (slots self.old slot).faults (slots self.new slot).faults result }
        ensures consumed { ReadConsumes
            (left_at S.Input.remaining self.old.policy self.old.capture self.old.graph slot)
            (left_at S.Input.remaining self.new.policy self.new.capture self.new.graph slot) result into.new }
        ensures others_left { (s : Slot) → s ≢ slot →
            left_at S.Input.remaining self.new.policy self.new.capture self.new.graph s
            ≡ left_at S.Input.remaining self.old.policy self.old.capture self.old.graph s }
        ensures out_kept { self.new.out ≡ self.old.out }
        ensures report_kept { self.new.report ≡ self.old.report }
        ensures same_syncs { self.new.syncs ≡ self.old.syncs }
    {
        match slot {
            Slot::Policy => self.policy.read(into),
            Slot::Capture => self.capture.read(into),
            Slot::Graph => self.graph.read(into),
            _ => unreachable!(),
        }
    }

    /// `Failed` if the file can't be written, or takes nothing of a piece; at Note also if bytes that were gathered for
    /// a file can't be written. The count of the slot rises by one then, and in no other case.
    #[tactic(auto, unfolding(nfp_outside::specs::Slots::at_slot))]
    fn write(&mut self, slot: Slot, bytes: &[u8]) -> Result<usize, DeskFault>
        requires write_slot { is_read slot ≡ false }
        requires attached { let slots = ⟦<FileDesk<S> as Desk>⟧.slots in
            (slot ≡ Slot.Note) ⊎ IsSome (slots self.old slot).name }
        ensures ok { let slots = ⟦<FileDesk<S> as Desk>⟧.slots in
            IfOk result (λ k. Writes k bytes.now (slots self.old slot) (slots self.new slot)) }
        ensures err { let slots = ⟦<FileDesk<S> as Desk>⟧.slots in
            OnErr result (KeepsSlot (slots self.old slot) (slots self.new slot)) }
        ensures cause { let slots = ⟦<FileDesk<S> as Desk>⟧.slots in
            HasCause (slots self.old slot) (slots self.new slot) result }
        ensures others { let slots = ⟦<FileDesk<S> as Desk>⟧.slots in
            (s : Slot) → s ≢ slot → slots self.new s ≡ slots self.old s }
        ensures no_want { IsErrOf result DeskFault.NoMemory → ⊥ }
        ensures counted { let slots = ⟦<FileDesk<S> as Desk>⟧.slots in
            CountsFailure (slots self.old slot).faults (slots self.new slot).faults result }

        // What is put is appended to what was put before, and Note takes nothing before all of it is handed on.
        ensures out_put { slot ≡ Slot.Out → WriteAppends (bytes_put (account S.Output.contents self.old.out))
            (bytes_put (account S.Output.contents self.new.out)) result bytes.now }
        ensures report_put { slot ≡ Slot.Report → WriteAppends (bytes_put (account S.Output.contents self.old.report))
            (bytes_put (account S.Output.contents self.new.report)) result bytes.now }
        ensures out_kept { slot ≢ Slot.Out → Keeps (bytes_put (account S.Output.contents self.old.out))
            (bytes_put (account S.Output.contents self.new.out)) }
        ensures report_kept { slot ≢ Slot.Report → Keeps (bytes_put (account S.Output.contents self.old.report))
            (bytes_put (account S.Output.contents self.new.report)) }
        ensures out_handed_on { slot ≡ Slot.Note → OnOk result (IsHandedOn S.Output.contents self.new.out) }
        ensures report_handed_on { slot ≡ Slot.Note → OnOk result (IsHandedOn S.Output.contents self.new.report) }
        ensures synced { slot ≡ Slot.Note → self.old.syncs ≡ true → OnOk result (IsAllSynced S.Output.on_disk self.new) }
        ensures same_syncs { self.new.syncs ≡ self.old.syncs }
    {
        match slot {
            Slot::Out => self.out.write(bytes),
            Slot::Report => self.report.write(bytes),
            Slot::Note => {
                self.empty_lone_out();
                if self.hand_on().is_none()
                    && !self.prints_into_input()
                    && let Ok(count) = self.system.print(bytes)
                    && (count > 0 || bytes.is_empty())
                {
                    return Ok(count);
                }
                self.note_faults = self.note_faults.saturating_add(1);
                Err(DeskFault::Failed)
            }
            _ => unreachable!(),
        }
    }
}

// A copy of a name, made before any file is touched for it.
fn copy_of(alloc: Global, name: &str) -> Result<String, DeskFault>
    ensures name { IfOk result (λ text. string_bytes text ≡ name.now) }
    ensures err { IfErr result (λ e. e ≡ DeskFault.NoMemory) }
{
    String::from_str(alloc, name).map_err(|_| DeskFault::NoMemory)
}

// A file to write, with a buffer in front of it that is empty.
fn gathering<F: OutputFile + Drop>(
    alloc: Global,
    target: Target<F>,
) -> Result<BufWriter<Target<F>>, OpenFault>
    ensures inner { IfOk result (λ writer. writer_inner writer ≡ target) }
    ensures empty { IfOk result (λ writer. (account_of F.contents writer).gathered ≡ []) }
{
    BufWriter::with_capacity(alloc, GATHERED, target).map_err(|_| OpenFault::NoMemory)
}

fn identity_read<F: InputFile + Drop>(port: &Port<BufReader<F>>) -> Option<Identity>
    ensures { result ≡ input_identity F.known_as port.now }
{
    match &port.file {
        Some(reader) => reader.get_ref().identity(),
        None => None,
    }
}

fn identity_written<F: OutputFile + Drop>(port: &Port<BufWriter<Target<F>>>) -> Option<Identity>
    ensures { result ≡ output_identity F.known_as port.now }
{
    match &port.file {
        Some(writer) => writer.get_ref().identity(),
        None => None,
    }
}

// Whether two files are known to be one.
fn is_one(file: Option<Identity>, other: Option<Identity>) -> bool
    ensures { result ≡ false → Differ file other }
{
    match (file, other) {
        (Some(file), Some(other)) => file.device == other.device && file.number == other.number,
        _ => false,
    }
}

// The stream of the program that leads to this file, if one does.
fn stream_to<S: System>(system: &S, file: Option<Identity>) -> Option<Reason> {
    if is_one(file, system.stream_identity(Stream::Output)) {
        Some(Reason::StandardOutput)
    } else if is_one(file, system.stream_identity(Stream::Error)) {
        Some(Reason::StandardError)
    } else {
        None
    }
}

// The streams of the program that lead to this file, if any does.
fn streams_to<S: System>(system: &S, file: Option<Identity>) -> Option<Reason> {
    let output = is_one(file, system.stream_identity(Stream::Output));
    let error = is_one(file, system.stream_identity(Stream::Error));
    match (output, error) {
        (true, true) => Some(Reason::BothStreams),
        (true, false) => Some(Reason::StandardOutput),
        (false, true) => Some(Reason::StandardError),
        (false, false) => None,
    }
}

// Whether a file wasn't opened since standard output leads to it.
fn is_printed(reason: Option<Reason>) -> bool {
    matches!(reason, Some(Reason::StandardOutput | Reason::BothStreams))
}
