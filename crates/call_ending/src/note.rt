//! The one line that is put into Note for each outcome.
ghost use Rattle.std.specs.Prelude.{◌≡◌, ◌≢◌, ◌≤◌, IfOk};
ghost use Rattle.nfp_outside.specs.declared.slot.Slot.{Slot};
ghost use Rattle.call_ending.specs.Notes.{number_text, usage_text, done_text, slot_word, read_fault_text, write_fault_text};
ghost use Rattle.call_ending.specs.Endings.{outcome_seen, stop_text, text_of, untold, CountsWithin, Notes, NotesLine};

use crate::ending::{Ending, GraphRefusal};
use crate::outcome::Outcome;
use capture_items::{Totals, capture_line, ng_line, totals_line};
use command_words::{Option4, UsageFault};
use item_list::Items;
use nfp_outside::{Desk, OutsideFault, Slot, write_whole};
use policy_judge::Refusal;
use std::alloc::{AllocError, Global};
use text_lines::Piece::Text;
use text_lines::join;

/// Puts the line of this ending into Note.
pub fn put_note<D: Desk>(alloc: Global, desk: &mut D, ending: Ending) -> Outcome
    requires { CountsWithin ending }
    ensures notes { Notes ending (D.slots desk.old Slot.Note) (D.slots desk.new Slot.Note) result }
    ensures others { (s : Slot) → s ≢ Slot.Note → D.slots desk.new s ≡ D.slots desk.old s }
{
    let told = match tell(alloc, ending) {
        Ok(told) => told,
        Err(_) => return Outcome::OutOfMemory,
    };
    put_line(desk, told.outcome, told.line.as_slice())
}

/// Puts this line into Note, for a call with this outcome.
pub fn put_line<D: Desk>(desk: &mut D, outcome: Outcome, line: &[u8]) -> Outcome
    ensures notes { NotesLine outcome line.now (D.slots desk.old Slot.Note) (D.slots desk.new Slot.Note) result }
    ensures others { (s : Slot) → s ≢ Slot.Note → D.slots desk.new s ≡ D.slots desk.old s }
{
    match write_whole(desk, Slot::Note, line) {
        Ok(()) => outcome,
        Err(OutsideFault::WriteFault(_)) => untold(outcome),
        Err(_) => Outcome::OutOfMemory,
    }
}

// The outcome if the line couldn't be put: a fault of Note if the work was done, and otherwise the outcome that there
// was.
fn untold(outcome: Outcome) -> Outcome
    ensures { result ≡ untold outcome }
{
    match outcome {
        Outcome::Done => Outcome::WriteFault(Slot::Note),
        outcome => outcome,
    }
}

/// How a call ended, and the line that reports it.
#[derive(Drop)]
struct Told {
    outcome: Outcome,
    line: Items<u8>,
}

// The outcome of this ending, with its line.
fn tell(alloc: Global, ending: Ending) -> Result<Told, AllocError>
    requires { CountsWithin ending }
    ensures outcome { IfOk result (λ told. told.outcome ≡ outcome_seen ending) }
    ensures line { IfOk result (λ told. told.line ≡ text_of ending) }
{
    match ending {
        Ending::Completed(totals) => Ok(Told {
            outcome: Outcome::Done,
            line: Items::new(done_text(alloc, totals)?),
        }),
        Ending::Shown(text) => Ok(Told {
            outcome: Outcome::Done,
            line: text,
        }),
        Ending::Refused(Refusal { fault, line }) => Ok(Told {
            outcome: Outcome::Policy(fault),
            line,
        }),
        Ending::GraphRefused(GraphRefusal { fault, line }) => Ok(Told {
            outcome: Outcome::Graph(fault),
            line,
        }),
        Ending::Stopped(outcome) => {
            let line = Items::new(stop_text(alloc, &outcome)?);
            Ok(Told { outcome, line })
        }
    }
}

// The line of an outcome that needs nothing else.
fn stop_text(alloc: Global, outcome: &Outcome) -> Result<Vec<u8>, AllocError>
    ensures { IfOk result (λ v. v.items ≡ stop_text outcome.now) }
{
    match outcome {
        Outcome::Usage(fault) => Vec::from_slice(alloc, usage_text(*fault)),
        Outcome::Capture(fault) => capture_line(alloc, *fault),
        Outcome::CaptureNg(fault) => ng_line(alloc, *fault),
        Outcome::ReadFault(slot) => read_fault_text(alloc, *slot),
        Outcome::WriteFault(slot) => write_fault_text(alloc, *slot),
        // The line of these is made elsewhere.
        Outcome::Done | Outcome::Policy(_) | Outcome::Graph(_) => Ok(Vec::new(alloc)),
        Outcome::OutOfMemory => Ok(Vec::new(alloc)),
    }
}

// Why the words are refused.
fn usage_text(fault: UsageFault) -> &'static [u8]
    ensures { result.now ≡ usage_text fault }
{
    match fault {
        UsageFault::NoCommand => b"usage: no command\n",
        UsageFault::UnknownCommand => b"usage: unknown command\n",
        UsageFault::Words => b"usage: words\n",
        UsageFault::Number(which) => number_text(which),
        UsageFault::Merge => b"usage: merge\n",
        UsageFault::SameName => b"usage: same name\n",
    }
}

// Which number is refused.
fn number_text(which: Option4) -> &'static [u8]
    ensures { result.now ≡ number_text which }
{
    match which {
        Option4::Mergers => b"usage: number mergers\n",
        Option4::Burst => b"usage: number burst\n",
        Option4::Workers => b"usage: number workers\n",
        Option4::Record => b"usage: number record\n",
        Option4::Seed => b"usage: number seed\n",
        Option4::Count => b"usage: number count\n",
    }
}

// The line of a capture that went through the chains whole.
#[tactic(auto, unfolding(crate::specs::Notes::done_text))]
fn done_text(alloc: Global, totals: Totals) -> Result<Vec<u8>, AllocError>
    requires { totals.dropped ≤ totals.records }
    ensures { IfOk result (λ v. v.items ≡ done_text totals.records totals.dropped) }
{
    let mut line = Vec::from_slice(alloc, b"done ".as_slice())?;
    line.extend_from_slice(&totals_line(alloc, totals)?)?;
    Ok(line)
}

// The line of a slot that couldn't be read.
#[tactic(auto, unfolding(crate::specs::Notes::read_fault_text))]
fn read_fault_text(alloc: Global, slot: Slot) -> Result<Vec<u8>, AllocError>
    ensures { IfOk result (λ v. v.items ≡ read_fault_text slot) }
{
    join(
        alloc,
        &[Text(b"read fault: "), Text(slot_word(slot)), Text(b"\n")],
    )
}

/// The line of a slot that couldn't be written. An error means that there is no memory for it.
#[tactic(auto, unfolding(crate::specs::Notes::write_fault_text))]
pub fn write_fault_text(alloc: Global, slot: Slot) -> Result<Vec<u8>, AllocError>
    ensures { IfOk result (λ v. v.items ≡ write_fault_text slot) }
{
    join(
        alloc,
        &[Text(b"write fault: "), Text(slot_word(slot)), Text(b"\n")],
    )
}

fn slot_word(slot: Slot) -> &'static [u8]
    ensures { result.now ≡ slot_word slot }
{
    match slot {
        Slot::Policy => b"policy",
        Slot::Capture => b"capture",
        Slot::Out => b"out",
        Slot::Report => b"report",
        Slot::Note => b"note",
        Slot::Graph => b"graph",
    }
}
