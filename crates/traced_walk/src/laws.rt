//! What holds of the acts of functions on a packet.
ghost use Rattle.std.specs.Prelude.{◌≡◌, ℕ, List, All, length, map, sum_by};
ghost use Rattle.chain_walk.specs.Step.{Behaviour};
ghost use Rattle.chain_walk.specs.Walk.{walk};
ghost use Rattle.piece_walk.specs.Pieces.{Piece, count_of, long};
ghost use Rattle.packet_function.specs.Deciding.{Deciding, DecidesDrops};
ghost use Rattle.service_walk.specs.Service.{Classed, fates_among};
ghost use Rattle.traced_walk.specs.Following.{Follow, HasCause, IfOut, LedTo, left_by};
ghost use Rattle.traced_walk.specs.Traced.{long_traced, traced};
ghost use Rattle.traced_walk.specs.Ways.{ways};

/// Without its acts a trace is the walk.
#[tactic(auto, using(crate::proofs::AsWalked::same_functions, crate::proofs::AsWalked::same_fate, crate::proofs::AsWalked::same_pieces, crate::proofs::AsWalked::same_long_fate))]
pub fn the_trace_is_the_walk<F>()
    ensures functions { (b : Behaviour F) (d : Deciding F) (time position : ℕ) (functions : List F) (frame : List ℕ) →
        (traced b d time position functions frame).functions ≡ (walk b time position functions frame).functions }
    ensures fate { (b : Behaviour F) (d : Deciding F) (time position : ℕ) (functions : List F) (frame : List ℕ) →
        (traced b d time position functions frame).fate ≡ (walk b time position functions frame).fate }
    ensures pieces { (b : Behaviour F) (d : Deciding F) (time position : ℕ) (pieces : List (Piece F)) (frame : List ℕ) →
        (long_traced b d time position pieces frame).pieces ≡ (long b time position pieces frame).pieces }
    ensures long_fate { (b : Behaviour F) (d : Deciding F) (time position : ℕ) (pieces : List (Piece F)) (frame : List ℕ) →
        (long_traced b d time position pieces frame).fate ≡ (long b time position pieces frame).fate }
{}

/// A packet goes out exactly if each function passed it on, and there are then as many acts as functions. Otherwise the
/// last act dropped it, no act before it did, and its position is the one that the fate names.
#[tactic(auto, using(crate::proofs::Dropping::led_to, crate::proofs::Dropping::long_led_to))]
pub fn a_drop_is_the_last_act<F>()
    ensures piece { (b : Behaviour F) (d : Deciding F) (time position : ℕ) (functions : List F) (frame : List ℕ) →
        LedTo position (length functions) (traced b d time position functions frame).acts
        (traced b d time position functions frame).fate }
    ensures pieces { (b : Behaviour F) (d : Deciding F) (time position : ℕ) (pieces : List (Piece F)) (frame : List ℕ) →
        LedTo position (sum_by count_of pieces) (long_traced b d time position pieces frame).acts
        (long_traced b d time position pieces frame).fate }
{}

/// In a piece each function acts on the frame that the one before left, the first on the frame that entered. What the
/// last left is the frame that goes out.
#[tactic(auto, using(crate::proofs::Following::acts_follow, crate::proofs::Following::last_goes_out))]
pub fn acts_follow_each_other<F>()
    ensures follow { (b : Behaviour F) (d : Deciding F) (time position : ℕ) (functions : List F) (frame : List ℕ) →
        Follow frame (traced b d time position functions frame).acts }
    ensures out { (b : Behaviour F) (d : Deciding F) (time position : ℕ) (functions : List F) (frame : List ℕ) →
        IfOut (left_by frame (traced b d time position functions frame).acts) (traced b d time position functions frame).fate }
{}

/// Each act that dropped a packet has exactly one deciding line.
#[tactic(auto, using(crate::proofs::Causes::each_has_cause, crate::proofs::Causes::each_of_pieces_has_cause))]
pub fn a_drop_has_one_line<F>()
    ensures piece { (b : Behaviour F) (d : Deciding F) (time position : ℕ) (functions : List F) (frame : List ℕ) →
        DecidesDrops b d →
        All HasCause (traced b d time position functions frame).acts }
    ensures pieces { (b : Behaviour F) (d : Deciding F) (time position : ℕ) (pieces : List (Piece F)) (frame : List ℕ) →
        DecidesDrops b d →
        All HasCause (long_traced b d time position pieces frame).acts }
{}

/// Among several chains each packet ends as without its acts, and each has one way, with its class.
#[tactic(auto, using(crate::proofs::Ways::same_fates, crate::proofs::Ways::same_classes))]
pub fn the_ways_are_the_walk<F>()
    ensures fates { (b : Behaviour F) (d : Deciding F) (chains : List (List (Piece F))) (xs : List Classed) →
        map (λ way. way.fate) (ways b d chains xs) ≡ fates_among b chains xs }
    ensures classes { (b : Behaviour F) (d : Deciding F) (chains : List (List (Piece F))) (xs : List Classed) →
        map (λ way. way.class) (ways b d chains xs) ≡ map (λ x. x.class) xs }
{}
