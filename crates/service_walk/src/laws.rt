//! What holds of packets that go through several chains.
ghost use Rattle.std.specs.Prelude.{◌≡◌, ℕ, List, ◌∷◌, ◌++◌, None, length, map};
ghost use Rattle.chain_walk.specs.Step.{Behaviour};
ghost use Rattle.chain_walk.specs.declared.walk.Fate.TheVariants.{Out};
ghost use Rattle.piece_walk.specs.Pieces.{Piece};
ghost use Rattle.piece_walk.specs.PiecePackets.{long_fates, pieces_after};
ghost use Rattle.service_walk.specs.Service.{Classed, at_chain, chains_after, fates_among, fates_in, packets_in};
ghost use Rattle.service_walk.specs.Weaving.{each_after, each_fates, fates_seen, woven};

/// The packets of a chain end as if there were no other chain, and so do they leave its pieces. A packet that no chain
/// takes passes with its own frame.
#[tactic(auto, using(crate::proofs::Apart::fates_apart, crate::proofs::Apart::pieces_apart, crate::proofs::Rowing::untaken_passes, crate::proofs::Counting::as_many_chains))]
pub fn chains_walk_apart<F>()
    ensures fates { (b : Behaviour F) (chains : List (List (Piece F))) (xs : List Classed) (chain : ℕ) → fates_in chain xs (fates_among b chains xs) ≡ long_fates b (at_chain chains chain) (packets_in chain xs) }
    ensures pieces { (b : Behaviour F) (chains : List (List (Piece F))) (xs : List Classed) (chain : ℕ) → at_chain (chains_after b chains xs) chain ≡ pieces_after b (at_chain chains chain) (packets_in chain xs) }
    ensures untaken { (b : Behaviour F) (chains : List (List (Piece F))) (first : List Classed) (x : Classed) (later : List Classed) → x.class ≡ None → fates_among b chains (first ++ x ∷ later) ≡ fates_among b chains first ++ Out x.packet.frame ∷ fates_among b (chains_after b chains first) later }
    ensures as_many_chains { (b : Behaviour F) (chains : List (List (Piece F))) (xs : List Classed) → length (chains_after b chains xs) ≡ length chains }
{}

/// Packets in two lots end as in one lot, each meeting the functions as the packet before left them, and each has one
/// fate.
#[tactic(auto, using(crate::proofs::Rowing::fates_in_a_row, crate::proofs::Rowing::chains_in_a_row, crate::proofs::Counting::count_of_fates))]
pub fn packets_pass_in_a_row<F>()
    ensures fates { (b : Behaviour F) (chains : List (List (Piece F))) (first later : List Classed) → fates_among b chains (first ++ later) ≡ fates_among b chains first ++ fates_among b (chains_after b chains first) later }
    ensures chains { (b : Behaviour F) (chains : List (List (Piece F))) (first later : List Classed) → chains_after b chains (first ++ later) ≡ chains_after b (chains_after b chains first) later }
    ensures count { (b : Behaviour F) (chains : List (List (Piece F))) (xs : List Classed) → length (fates_among b chains xs) ≡ length xs }
{}

/// Chains that are run one after another, each with its own packets, end in the states in which the packets in their
/// order leave them, and the fates of all packets are those of each chain, taken in the packets' order.
#[tactic(auto, using(crate::proofs::Weaving::fates_woven, crate::proofs::Each::each_apart))]
pub fn fates_are_woven<F>()
    ensures fates { (b : Behaviour F) (chains : List (List (Piece F))) (xs : List Classed) → fates_seen xs (woven (map (λ x. x.class) xs) (each_fates b xs 0 chains)) ≡ fates_among b chains xs }
    ensures chains { (b : Behaviour F) (chains : List (List (Piece F))) (xs : List Classed) → each_after b xs 0 chains ≡ chains_after b chains xs }
{}
