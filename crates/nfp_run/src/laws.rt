//! The result of a call without any fault.
ghost use Rattle.std.specs.Prelude.{◌≡◌, ℕ, List, true, None, IsOk, Ok};
ghost use Rattle.pcap_io.specs.Capture.{capture_of};
ghost use Rattle.pcap_io.specs.declared.capture.CaptureHead.{CaptureHead};
ghost use Rattle.capture_bytes.specs.declared.packet.PcapRecord.{PcapRecord};
ghost use Rattle.pcapng_io.specs.Blocks.{blocks_of, next_of, start};
ghost use Rattle.pcapng_io.specs.declared.item.NgItem.{NgItem};
ghost use Rattle.call_ending.specs.declared.outcome.Outcome.{Outcome};
ghost use Rattle.nfp_run.specs.Due.{due};
ghost use Rattle.call_ending.specs.Told.{is_ng};
ghost use Rattle.nfp_run.specs.Preparing.{prepared};
ghost use Rattle.nfp_run.specs.declared.prepared.Prepared.{Prepared};
ghost use Rattle.command_words.specs.declared.requests.DemoInput.{DemoInput};
ghost use Rattle.command_words.specs.declared.requests.FlowOptions.{FlowOptions};
ghost use Rattle.command_words.specs.declared.requests.RunOptions.{RunOptions};
ghost use Rattle.command_words.specs.Words.{Names, FlowFiles, PlanFiles, command_of, Run, Plan, Demo, Flows};

/// A law: if the words are a command, the policy and the graphs have no fault, and for `run` the capture has none, the
/// result that is due is Done; `flows` needs only the capture, and a demo none of them. With the clause `answers` of
/// [`crate::nfp`], such a call returns Done, or runs out of memory, if no slot failed.
#[tactic(auto, using(crate::proofs::GoodCalls::run_is_done, crate::proofs::GoodCalls::ng_run_is_done, crate::proofs::GoodCalls::plan_is_done, crate::proofs::GoodCalls::demo_is_done, crate::proofs::GoodCalls::flows_are_done))]
pub fn a_good_call_is_done()
    ensures run { (words : List (List ℕ)) → (names : Names) → (options : RunOptions) → (p g c : List ℕ) → (policy : Prepared) →
        (head : CaptureHead) → (records : List PcapRecord) →
        command_of words ≡ Ok (Run names options) → prepared names.graph p g ≡ Ok policy → capture_of c ≡ Ok (head, record { records = records; fault = None }) → (due words p g c).outcome ≡ Outcome.Done }
    ensures run_ng { (words : List (List ℕ)) → (names : Names) → (options : RunOptions) → (p g c : List ℕ) → (policy : Prepared) →
        (items : List NgItem) →
        command_of words ≡ Ok (Run names options) → prepared names.graph p g ≡ Ok policy → is_ng c ≡ true → IsOk (next_of start c) → blocks_of start c ≡ record { items = items; fault = None } → (due words p g c).outcome ≡ Outcome.Done }
    ensures plan { (words : List (List ℕ)) → (names : PlanFiles) → (p g c : List ℕ) → (policy : Prepared) →
        command_of words ≡ Ok (Plan names) → prepared names.graph p g ≡ Ok policy → (due words p g c).outcome ≡ Outcome.Done }
    ensures demo { (words : List (List ℕ)) → (input : DemoInput) → (options : RunOptions) → (p g c : List ℕ) →
        command_of words ≡ Ok (Demo input options) → (due words p g c).outcome ≡ Outcome.Done }
    ensures flows { (words : List (List ℕ)) → (names : FlowFiles) → (options : FlowOptions) → (p g c : List ℕ) → (head : CaptureHead) →
        (records : List PcapRecord) →
        command_of words ≡ Ok (Flows names options) → capture_of c ≡ Ok (head, record { records = records; fault = None }) → (due words p g c).outcome ≡ Outcome.Done }
{}
