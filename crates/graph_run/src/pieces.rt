//! A law of bursts that are run in pieces.
ghost use Rattle.std.specs.Prelude.{◌≡◌, ℕ, List, [], ◌++◌};
ghost use Rattle.capture_bytes.specs.declared.packet.Unit.{Unit as TimeUnit};
ghost use Rattle.chain_walk.specs.Laws.{KeepsProfile};
ghost use Rattle.chain_walk.specs.Packets.{Packet, fates};
ghost use Rattle.chain_walk.specs.Step.{Behaviour};
ghost use Rattle.chain_walk.specs.declared.walk.Fate.{Fate};
ghost use Rattle.classifier.specs.declared.burst.Item.{Item};
ghost use Rattle.graph_run.specs.Counting.{RaisesUpTo, copies_made};
ghost use Rattle.graph_run.specs.Leading.{Leads};
ghost use Rattle.graph_run.specs.Packets.{packets_taken};
ghost use Rattle.graph_run.specs.Running.{PlainRunning};

use chain_walk::packets_walk_in_a_row;

/// A law: a burst may be run in pieces, each with the functions as the piece before left them. If a piece fails, the
/// copies made are within those of the whole burst.
pub fn pieces_are_led_in_a_row<F>()
    ensures none { (b : Behaviour F) (run : PlainRunning F) (tally : List ℕ) → Leads b run [] tally tally run [] }
    ensures leads { (b : Behaviour F) (run between after : PlainRunning F) (first later : List Packet) (old new newer : List ℕ) (ended more : List Fate) → KeepsProfile b →
        Leads b run first old new between ended → Leads b between later new newer after more → Leads b run (first ++ later) old newer after (ended ++ more) }
    ensures refused { (b : Behaviour F) (run between : PlainRunning F) (first later last : List Packet) (old new newer : List ℕ) (ended : List Fate) →
        Leads b run first old new between ended → RaisesUpTo (copies_made between.graph.stages later (fates b between.functions later)) new newer →
        RaisesUpTo (copies_made run.graph.stages (first ++ (later ++ last)) (fates b run.functions (first ++ (later ++ last)))) old newer }
    ensures taken { (unit : TimeUnit) (chain : ℕ) (first later : List Item) → packets_taken unit chain (first ++ later) ≡ packets_taken unit chain first ++ packets_taken unit chain later }
{
    packets_walk_in_a_row::<F>();
}
