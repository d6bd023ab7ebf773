//! The top call, with the program's theorem.
ghost use Rattle.std.specs.Prelude.{◌≡◌, ◌≢◌, ◌⊎◌, [], map, IfSome, Err, None, string_bytes};
ghost use Rattle.nfp_outside.specs.declared.slot.Slot.{Slot};
ghost use Rattle.nfp_outside.specs.Outside.{Appends, AppendsPrefix, IsRisen};
ghost use Rattle.graph_text.specs.declared.fault.GraphFault.{GraphFault};
ghost use Rattle.policy_judge.specs.declared.fault.PolicyFault.{PolicyFault};
ghost use Rattle.command_words.specs.declared.usage.UsageFault.{UsageFault};
ghost use Rattle.nfp_run.specs.Answers.{IsDue, IsFinal, HasNames, NoneRose, Leaves, LeavesPrefixes, AttachesDue, ReportBehindOut, ReachesCapture, ReadsToEnd, PolicyCause, GraphCause, ReadFaultCause, WriteFaultCause, NotesPrefix, note_due};
ghost use Rattle.nfp_run.specs.Called.{WhereDue};
ghost use Rattle.command_words.specs.Words.{command_of};

use crate::commands::run_words;
use call_ending::{Outcome, put_note};
use nfp_outside::{Desk, Gate};
use std::alloc::Global;
use std::rt::Clock;
use std::sync::Wait;
use std::thread::Threads;

/// Does what the words of a command line say. `run POLICY CAPTURE OUT REPORT` runs the chains of a policy over a
/// capture, and `plan POLICY` shows the plan of a policy, either with graphs that were written by hand if the words
/// have `--graph NAME`. `demo SEED COUNT` runs a demo. `flows CAPTURE OUT` counts the flows of a capture.
///
/// The policy is checked as a whole before anything else is touched, and the graphs, if the words name them, before the
/// capture is. A chain that they list runs in its graph, every other chain in the graph that is compiled for it. `run`
/// runs each packet through the first chain whose clauses it meets, and passes a packet that no chain takes as it was
/// read. It puts the capture of the packets that passed into Out. Into Report it puts the line of each packet that was
/// dropped, the totals, the copies that the graphs of each chain made of each field, the functions of each chain, and
/// the capture's fault if it has one. The capture is read record by record, and written burst by burst, each of at most
/// as many packets as `--burst` says. `demo` makes its own capture, runs it through its own policy, and touches no slot
/// but Note. `flows` uses no policy: it reads a classic capture record by record, counts its flows on as many workers
/// as `--workers` says, and puts their packets of NetFlow version 5 into Out. Last, one line goes into Note, or the
/// plan, or the demo's summary.
///
/// If a burst runs on threads, the branches of a stage run side by side, on as many threads as suit the machine (a
/// branch whose functions keep no state and don't count runs once for each merger). After them come as many mergers as
/// `--mergers` says, or fewer if there are fewer packets or more don't pay. The results of the branches get to a merger
/// as `--merge` says: over a link from each branch, or on a board of its own. A chain that is one branch takes no
/// thread, and bursts for which threads save too little by the clock run on the caller's thread. Each step of a
/// function, and each look of one that counts, passes the gate first. The result that is due depends on none of these.
pub fn nfp<R: Threads + Wait + Clock + Sync, D: Desk, G: Gate + Sync>(
    rt: &R,
    alloc: Global,
    words: &[String],
    desk: &mut D,
    gate: &G,
) -> Outcome
    requires none_attached { (s : Slot) → (D.slots desk.old s).name ≡ None }
    requires note_empty { IfSome (D.slots desk.old Slot.Note).bytes (λ bytes. bytes ≡ []) }

    // The clauses on what is due hold if the desk shows what the words read: the policy, the graphs and the capture,
    // all of them, some or none. If no count of the desk rose, the outcome is the one that is due and the slots hold
    // what is due, or memory ran out.
    ensures answers { NoneRose (D.slots desk.old) (D.slots desk.new) → WhereDue (map string_bytes words.now) (D.slots desk.old) (λ due.
        (IsDue due (D.slots desk.old) (D.slots desk.new) result
        × Appends due.note (D.slots desk.old Slot.Note) (D.slots desk.new Slot.Note))
        ⊎ (result ≡ Outcome.OutOfMemory)) }
    // Whatever the counts did, an outcome other than a fault of a slot or out of memory is the one that is due.
    ensures exact { IsFinal result → WhereDue (map string_bytes words.now) (D.slots desk.old) (λ due.
        IsDue due (D.slots desk.old) (D.slots desk.new) result) }
    // Whatever the outcome, Out and Report hold a front part of what is due, or were never attached.
    ensures prefixes { WhereDue (map string_bytes words.now) (D.slots desk.old) (λ due.
        LeavesPrefixes due.written (D.slots desk.old) (D.slots desk.new)) }

    // Note holds a front part of its line, and the whole of it unless its own count rose.
    ensures noted { result ≢ Outcome.OutOfMemory → WhereDue (map string_bytes words.now) (D.slots desk.old) (λ due.
        AppendsPrefix (note_due result due.note) (D.slots desk.old Slot.Note) (D.slots desk.new Slot.Note)) }
    ensures noted_whole { result ≢ Outcome.OutOfMemory →
        ¬ IsRisen (D.slots desk.old Slot.Note).faults (D.slots desk.new Slot.Note).faults →
        WhereDue (map string_bytes words.now) (D.slots desk.old) (λ due.
        Appends (note_due result due.note) (D.slots desk.old Slot.Note) (D.slots desk.new Slot.Note)) }
    // Done says that Note holds its line or the plan whole, whatever the counts did.
    ensures done_noted { result ≡ Outcome.Done → WhereDue (map string_bytes words.now) (D.slots desk.old) (λ due.
        Appends due.note (D.slots desk.old Slot.Note) (D.slots desk.new Slot.Note)) }
    // If memory ran out, Note holds a front part of what is due, and then Out and Report hold all that is due; or a front
    // part of the line of a fault of reading or writing a slot whose count rose; or nothing.
    ensures noted_short { result ≡ Outcome.OutOfMemory → WhereDue (map string_bytes words.now) (D.slots desk.old) (λ due.
        NotesPrefix due.note due.written (D.slots desk.old) (D.slots desk.new)) }
    // Nothing goes into Note once memory ran out. So if it holds something all the same and no slot failed, Out and
    // Report hold what is due as a whole.
    ensures noted_late { result ≡ Outcome.OutOfMemory → NoneRose (D.slots desk.old) (D.slots desk.new) →
        WhereDue (map string_bytes words.now) (D.slots desk.old) (λ due.
        Leaves due.written (D.slots desk.old) (D.slots desk.new)
        ⊎ Appends [] (D.slots desk.old Slot.Note) (D.slots desk.new Slot.Note)) }
    // A fault of Note is the outcome only if the work was done, and then Out and Report are whole.
    ensures note_fault { result ≡ Outcome.WriteFault Slot.Note → WhereDue (map string_bytes words.now) (D.slots desk.old) (λ due.
        IsDue due (D.slots desk.old) (D.slots desk.new) Outcome.Done) }

    // Done says that the policy, the graphs and the capture that the words name were read to their ends, whatever the
    // counts did.
    ensures read_whole { result ≡ Outcome.Done → ReadsToEnd (command_of (map string_bytes words.now)) (D.slots desk.new) }

    // Each attached slot has the name that the words give it, so a plan attaches only the policy and the graphs.
    ensures names { HasNames (command_of (map string_bytes words.now)) (D.slots desk.new) }
    // Out and Report are attached exactly if the outcome says so, even if the desk shows no bytes.
    ensures attached { AttachesDue (command_of (map string_bytes words.now)) result (D.slots desk.new) }
    // Whatever the outcome, Report is attached only if Out is.
    ensures report_behind { ReportBehindOut (D.slots desk.new) }

    // Whether words are refused depends only on the words, unless there is no memory to say so.
    ensures usage { (f : UsageFault) → result ≡ Outcome.Usage f → command_of (map string_bytes words.now) ≡ Err f }
    ensures usage_always { (f : UsageFault) → command_of (map string_bytes words.now) ≡ Err f →
        (result ≡ Outcome.Usage f) ⊎ (result ≡ Outcome.OutOfMemory) }
    // A policy is refused only for its first fault, and accepted only if it has none, even if the desk shows only the
    // policy.
    ensures refused { (f : PolicyFault) → result ≡ Outcome.Policy f →
        PolicyCause (command_of (map string_bytes words.now)) (D.slots desk.old) (D.slots desk.new) f }
    // Graphs are refused only for their first fault, after a policy without fault, and accepted only if they have none.
    ensures graph_refused { (f : GraphFault) → result ≡ Outcome.Graph f →
        GraphCause (command_of (map string_bytes words.now)) (D.slots desk.old) (D.slots desk.new) f }
    ensures policy { ReachesCapture (command_of (map string_bytes words.now)) result (D.slots desk.old) }
    // Each fault comes only if the count of its own slot rose, and not before the slots that are due earlier were good.
    ensures read_faults { (s : Slot) → result ≡ Outcome.ReadFault s →
        ReadFaultCause (command_of (map string_bytes words.now)) (D.slots desk.old) (D.slots desk.new) s }
    ensures write_faults { (s : Slot) → result ≡ Outcome.WriteFault s →
        WriteFaultCause (command_of (map string_bytes words.now)) (D.slots desk.old) (D.slots desk.new) s }
{
    let ending = run_words(rt, alloc, words, desk, gate);
    put_note(alloc, desk, ending)
}
