//! The call, with its theorem.
ghost use Rattle.std.specs.Prelude.{◌≡◌, ◌≢◌, ◌⊎◌, [], map, IfSome, Err, None, string_bytes};
ghost use Rattle.nfp_outside.specs.declared.slot.Slot.{Slot};
ghost use Rattle.nfp_outside.specs.Outside.{Appends, AppendsPrefix, IsRisen};
ghost use Rattle.policy_judge.specs.declared.fault.PolicyFault.{PolicyFault};
ghost use Rattle.command_words.specs.declared.usage.UsageFault.{UsageFault};
ghost use Rattle.command_words.specs.WhyWords.{why_of};
ghost use Rattle.call_ending.specs.Left.{IsFinal, LeavesPrefix, LeavesSlot, NoneRose, note_due};
ghost use Rattle.why_call.specs.Answers.{AttachesDue, HasNames, IsDue, NotesPrefix, PolicyCause, ReachesCapture, ReadsToEnd, WhereRead};
ghost use Rattle.why_call.specs.Answers.{ReadFaultCause, WriteFaultCause};
ghost use Rattle.why_call.specs.Due.{why_due};

use crate::ending::put_ending;
use crate::explain::run_words;
use call_ending::Outcome;
use nfp_outside::Desk;
use std::alloc::Global;
use std::sync::Wait;

/// Does what the words behind `why` say: `POLICY CAPTURE REPORT`, and `--record N` if a record is asked for.
///
/// The policy is checked as a whole before the capture is touched. Each packet goes through the first chain whose clauses
/// it meets, function after function. Into Report goes the line of each packet that was dropped, with the line of the
/// policy that decided, then the totals, and for each function how many packets it saw, changed and dropped, and how often
/// each of its lines decided, and the capture's fault if it has one. Last, the line of the totals goes into Note, or the
/// trace of the record that was asked for.
///
/// The capture is read record by record, and memory doesn't grow with it but by what functions remember. Out and Graph
/// aren't touched.
pub fn why<R: Wait, D: Desk>(rt: &R, alloc: Global, words: &[String], desk: &mut D) -> Outcome
    requires none_attached { (s : Slot) → (D.slots desk.old s).name ≡ None }
    requires note_empty { IfSome (D.slots desk.old Slot.Note).bytes (λ bytes. bytes ≡ []) }

    // The clauses on what is due hold if the desk shows what the words read: the policy and the capture, or neither. If no
    // count of the desk rose, the outcome is the one that is due and the slots hold what is due, or memory ran out.
    ensures answers { NoneRose (D.slots desk.old) (D.slots desk.new)
        → WhereRead (why_of (map string_bytes words.now)) (D.slots desk.old) (λ p c.
        (IsDue (why_due (map string_bytes words.now) p c) (D.slots desk.old) (D.slots desk.new) result
        × Appends (why_due (map string_bytes words.now) p c).note (D.slots desk.old Slot.Note) (D.slots desk.new Slot.Note))
        ⊎ (result ≡ Outcome.OutOfMemory)) }
    // Whatever the counts did, an outcome other than a fault of a slot or out of memory is the one that is due.
    ensures exact { IsFinal result → WhereRead (why_of (map string_bytes words.now)) (D.slots desk.old) (λ p c.
        IsDue (why_due (map string_bytes words.now) p c) (D.slots desk.old) (D.slots desk.new) result) }
    // Whatever the outcome, Report holds a prefix of what is due, or was never attached.
    ensures prefixes { WhereRead (why_of (map string_bytes words.now)) (D.slots desk.old) (λ p c.
        LeavesPrefix (why_due (map string_bytes words.now) p c).report (D.slots desk.old Slot.Report) (D.slots desk.new Slot.Report)) }

    // Note holds a prefix of its text, and the whole of it unless its own count rose.
    ensures noted { result ≢ Outcome.OutOfMemory → WhereRead (why_of (map string_bytes words.now)) (D.slots desk.old) (λ p c.
        AppendsPrefix (note_due result (why_due (map string_bytes words.now) p c).note)
        (D.slots desk.old Slot.Note) (D.slots desk.new Slot.Note)) }
    ensures noted_whole { result ≢ Outcome.OutOfMemory → ¬ IsRisen (D.slots desk.old Slot.Note).faults (D.slots desk.new Slot.Note).faults
        → WhereRead (why_of (map string_bytes words.now)) (D.slots desk.old) (λ p c.
        Appends (note_due result (why_due (map string_bytes words.now) p c).note)
        (D.slots desk.old Slot.Note) (D.slots desk.new Slot.Note)) }
    // Done says that Note holds its text whole, whatever the counts did.
    ensures done_noted { result ≡ Outcome.Done → WhereRead (why_of (map string_bytes words.now)) (D.slots desk.old) (λ p c.
        Appends (why_due (map string_bytes words.now) p c).note (D.slots desk.old Slot.Note) (D.slots desk.new Slot.Note)) }
    // If memory ran out, Note holds a prefix of what is due, and then Report holds all that is due; or a prefix of the line
    // of a fault of reading or writing a slot whose count rose; or nothing.
    ensures noted_short { result ≡ Outcome.OutOfMemory → WhereRead (why_of (map string_bytes words.now)) (D.slots desk.old) (λ p c.
        NotesPrefix (why_due (map string_bytes words.now) p c) (D.slots desk.old) (D.slots desk.new)) }
    // Nothing goes into Note once memory ran out. So if it holds something all the same and no slot failed, Report holds what
    // is due as a whole.
    ensures noted_late { result ≡ Outcome.OutOfMemory → NoneRose (D.slots desk.old) (D.slots desk.new)
        → WhereRead (why_of (map string_bytes words.now)) (D.slots desk.old) (λ p c.
        LeavesSlot (why_due (map string_bytes words.now) p c).report (D.slots desk.old Slot.Report) (D.slots desk.new Slot.Report)
        ⊎ Appends [] (D.slots desk.old Slot.Note) (D.slots desk.new Slot.Note)) }
    // A fault of Note is the outcome only if the work was done, and then Report is whole.
    ensures note_fault { result ≡ Outcome.WriteFault Slot.Note → WhereRead (why_of (map string_bytes words.now)) (D.slots desk.old) (λ p c.
        IsDue (why_due (map string_bytes words.now) p c) (D.slots desk.old) (D.slots desk.new) Outcome.Done) }

    // Done says that the policy and the capture were read to their ends, whatever the counts did.
    ensures read_whole { result ≡ Outcome.Done → ReadsToEnd (D.slots desk.new) }

    // Each attached slot has the name that the words give it.
    ensures names { HasNames (why_of (map string_bytes words.now)) (D.slots desk.new) }
    // Report is attached exactly if the outcome says so, even if the desk shows no bytes.
    ensures attached { AttachesDue (why_of (map string_bytes words.now)) result (D.slots desk.new Slot.Report) }
    // Out and Graph aren't touched.
    ensures out_stays { D.slots desk.new Slot.Out ≡ D.slots desk.old Slot.Out }
    ensures graph_stays { D.slots desk.new Slot.Graph ≡ D.slots desk.old Slot.Graph }

    // Whether words are refused depends only on the words, unless there is no memory to say so.
    ensures usage { (f : UsageFault) → result ≡ Outcome.Usage f → why_of (map string_bytes words.now) ≡ Err f }
    ensures usage_always { (f : UsageFault) → why_of (map string_bytes words.now) ≡ Err f
        → (result ≡ Outcome.Usage f) ⊎ (result ≡ Outcome.OutOfMemory) }
    // A policy is refused only for its first fault, and accepted only if it has none, even if the desk shows only the policy.
    ensures refused { (f : PolicyFault) → result ≡ Outcome.Policy f
        → PolicyCause (why_of (map string_bytes words.now)) (D.slots desk.old) (D.slots desk.new) f }
    ensures policy { ReachesCapture (why_of (map string_bytes words.now)) result (D.slots desk.old) }
    // Each fault comes only if the count of its own slot rose, and not before the slots that are due earlier were good.
    ensures read_faults { (s : Slot) → result ≡ Outcome.ReadFault s
        → ReadFaultCause (why_of (map string_bytes words.now)) (D.slots desk.old) (D.slots desk.new) s }
    ensures write_faults { (s : Slot) → result ≡ Outcome.WriteFault s
        → WriteFaultCause (why_of (map string_bytes words.now)) (D.slots desk.old) (D.slots desk.new) s }
{
    let ending = run_words(rt, alloc, words, desk);
    put_ending(alloc, desk, ending)
}
