//! The result of a call without any fault.
ghost use Rattle.std.specs.Prelude.{◌≡◌, ℕ, List, true, None, IsOk, Ok};
ghost use Rattle.capture_bytes.specs.declared.packet.PcapRecord.{PcapRecord};
ghost use Rattle.pcap_io.specs.Capture.{capture_of};
ghost use Rattle.pcap_io.specs.declared.capture.CaptureHead.{CaptureHead};
ghost use Rattle.pcapng_io.specs.Blocks.{blocks_of, next_of, start};
ghost use Rattle.pcapng_io.specs.declared.item.NgItem.{NgItem};
ghost use Rattle.policy_judge.specs.Judging.{judged};
ghost use Rattle.policy_judge.specs.declared.judged.Judged.{Judged};
ghost use Rattle.command_words.specs.WhyWords.{WhyAsked, why_of};
ghost use Rattle.call_ending.specs.Told.{is_ng};
ghost use Rattle.call_ending.specs.declared.outcome.Outcome.{Outcome};
ghost use Rattle.why_call.specs.Due.{why_due};

/// A law: if the words are accepted, and neither the policy nor the capture has a fault, the result that is due is Done.
/// With the clause `answers` of [`crate::why`], such a call returns Done, or runs out of memory, if no slot failed.
pub fn a_good_why_is_done()
    ensures pcap { (words : List (List ℕ)) → (asked : WhyAsked) → (p c : List ℕ) → (policy : Judged) →
        (head : CaptureHead) → (records : List PcapRecord) →
        why_of words ≡ Ok asked → judged p ≡ Ok policy →
        capture_of c ≡ Ok (head, record { records = records; fault = None }) → (why_due words p c).outcome ≡ Outcome.Done }
    ensures ng { (words : List (List ℕ)) → (asked : WhyAsked) → (p c : List ℕ) → (policy : Judged) → (items : List NgItem) →
        why_of words ≡ Ok asked → judged p ≡ Ok policy → is_ng c ≡ true → IsOk (next_of start c) →
        blocks_of start c ≡ record { items = items; fault = None } → (why_due words p c).outcome ≡ Outcome.Done }
{}
