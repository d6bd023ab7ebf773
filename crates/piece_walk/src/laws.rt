//! What holds of packets that go through pieces.
ghost use Rattle.std.specs.Prelude.{◌≡◌, ◌≤◌, ◌+◌, ◌*◌, ℕ, List, [], ◌∷◌, ◌++◌, All, length, map, sum_by};
ghost use Rattle.graph_compile.specs.declared.graph.Stage.{Stage};
ghost use Rattle.chain_walk.specs.Laws.{KeepsProfile};
ghost use Rattle.chain_walk.specs.Packets.{Packet, fates, functions_after};
ghost use Rattle.chain_walk.specs.Step.{Behaviour};
ghost use Rattle.chain_walk.specs.Walk.{EndsWithin, walk};
ghost use Rattle.chain_walk.specs.declared.walk.Fate.TheVariants.{Out};
ghost use Rattle.piece_walk.specs.Kinds.{GrowsLittle, IsNoLonger, kind_of, stages_of};
ghost use Rattle.piece_walk.specs.PiecePackets.{handed_on, long_fates, passed, pieces_after, rewritten_by};
ghost use Rattle.piece_walk.specs.Pieces.{Piece, Graph, Whole, Went, count_of, functions_in, long};
ghost use Rattle.piece_walk.specs.Rejoining.{moved, piece_after, put_back, sealed_by, sealed_fates, still_going};

/// A chain that is one graph walks as the chain of its functions does, and what goes out is sealed by the frame that
/// entered. If the chain is one function that rewrites frames whole, each frame goes out rewritten. If it has no
/// pieces, each frame goes out unchanged.
#[tactic(auto, using(crate::proofs::OnePiece::one_piece, crate::proofs::OnePiece::one_piece_fates, crate::proofs::OnePiece::one_piece_after, crate::proofs::OnePiece::one_whole_fates, crate::proofs::OnePiece::no_piece_fates, crate::proofs::OnePiece::no_piece_after))]
pub fn a_chain_of_one_piece_walks<F>()
    ensures way { (b : Behaviour F) (stages : List Stage) (time position : ℕ) (functions : List F) (frame : List ℕ) →
        ◌≡◌ {A = Went F} (long b time position (Graph stages functions ∷ []) frame)
        (record { pieces = Graph stages (walk b time position functions frame).functions ∷ []; fate = sealed_by frame (walk b time position functions frame).fate }) }
    ensures fates { (b : Behaviour F) (stages : List Stage) (functions : List F) (ps : List Packet) → long_fates b (Graph stages functions ∷ []) ps ≡ sealed_fates ps (fates b functions ps) }
    ensures pieces { (b : Behaviour F) (stages : List Stage) (functions : List F) (ps : List Packet) → pieces_after b (Graph stages functions ∷ []) ps ≡ Graph stages (functions_after b functions ps) ∷ [] }
    ensures whole_fates { (b : Behaviour F) (rewritten : List ℕ → List ℕ) (ps : List Packet) → long_fates b (Whole rewritten ∷ []) ps ≡ map (λ p. Out (rewritten p.frame)) ps }

    // Without pieces.
    ensures no_piece_fates { (b : Behaviour F) (ps : List Packet) → long_fates b [] ps ≡ map (λ p. Out p.frame) ps }
    ensures no_piece_left { (b : Behaviour F) (ps : List Packet) → pieces_after b [] ps ≡ [] }
{}

/// All packets may go through the first piece before the first of them goes through the next: those that it passes on
/// end as the later pieces say, and a position there counts the functions of the first piece too.
#[tactic(auto, using(crate::proofs::PieceByPiece::fates_of_graph, crate::proofs::PieceByPiece::fates_of_whole, crate::proofs::PieceByPiece::pieces_by_piece, crate::proofs::PieceByPiece::fewer))]
pub fn packets_go_piece_by_piece<F>()
    ensures graph { (b : Behaviour F) (stages : List Stage) (functions : List F) (later : List (Piece F)) (ps : List Packet) →
        long_fates b (Graph stages functions ∷ later) ps ≡ put_back (fates b functions ps) (map (moved (length functions)) (long_fates b later (passed ps (fates b functions ps)))) }
    ensures whole { (b : Behaviour F) (rewritten : List ℕ → List ℕ) (later : List (Piece F)) (ps : List Packet) →
        long_fates b (Whole rewritten ∷ later) ps ≡ map (moved 1) (long_fates b later (map (rewritten_by rewritten) ps)) }
    ensures pieces { (b : Behaviour F) (piece : Piece F) (later : List (Piece F)) (ps : List Packet) →
        pieces_after b (piece ∷ later) ps ≡ piece_after b piece ps ∷ pieces_after b later (handed_on b piece ps) }
    ensures fewer { (b : Behaviour F) (piece : Piece F) (ps : List Packet) → length (handed_on b piece ps) ≤ length ps }
{}

/// The same for some pieces in front of others: the packets that go out of those in front go on to the others.
#[tactic(auto, using(crate::proofs::Through::fates_through, crate::proofs::Through::pieces_through, crate::proofs::Through::handed_on_goes, crate::proofs::Through::going_through, crate::proofs::Through::no_piece_goes))]
pub fn pieces_come_one_behind_another<F>()
    ensures fates { (b : Behaviour F) (pieces later : List (Piece F)) (ps : List Packet) →
        long_fates b (pieces ++ later) ps ≡ put_back (long_fates b pieces ps) (map (moved (sum_by count_of pieces)) (long_fates b later (still_going ps (long_fates b pieces ps)))) }
    ensures pieces { (b : Behaviour F) (pieces later : List (Piece F)) (ps : List Packet) →
        pieces_after b (pieces ++ later) ps ≡ pieces_after b pieces ps ++ pieces_after b later (still_going ps (long_fates b pieces ps)) }

    // The packets that go on.
    ensures handed_on { (b : Behaviour F) (piece : Piece F) (ps : List Packet) → handed_on b piece ps ≡ still_going ps (long_fates b (piece ∷ []) ps) }
    ensures going { (b : Behaviour F) (pieces later : List (Piece F)) (ps : List Packet) →
        still_going ps (long_fates b (pieces ++ later) ps) ≡ still_going (still_going ps (long_fates b pieces ps)) (long_fates b later (still_going ps (long_fates b pieces ps))) }
    ensures none { (b : Behaviour F) (ps : List Packet) → still_going ps (long_fates b [] ps) ≡ ps }
{}

/// Packets in two lots end as in one lot, each meeting the pieces as the packet before left them, and each has one
/// fate. A piece passes on of two lots what it passes on of the first, and then of the second as the first left it.
#[tactic(auto, using(crate::proofs::PacketsInRow::fates_in_a_row, crate::proofs::PacketsInRow::pieces_in_a_row, crate::proofs::PacketsInRow::handed_on_in_a_row, crate::proofs::PacketsInRow::count_of_fates))]
pub fn packets_go_in_a_row<F>()
    ensures fates { (b : Behaviour F) (pieces : List (Piece F)) (first later : List Packet) → long_fates b pieces (first ++ later) ≡ long_fates b pieces first ++ long_fates b (pieces_after b pieces first) later }
    ensures pieces { (b : Behaviour F) (pieces : List (Piece F)) (first later : List Packet) → pieces_after b pieces (first ++ later) ≡ pieces_after b (pieces_after b pieces first) later }
    ensures handed_on { (b : Behaviour F) (piece : Piece F) (first later : List Packet) → handed_on b piece (first ++ later) ≡ handed_on b piece first ++ handed_on b (piece_after b piece first) later }
    ensures count { (b : Behaviour F) (pieces : List (Piece F)) (ps : List Packet) → length (long_fates b pieces ps) ≡ length ps }
{}

/// Packets change only the states of functions: the pieces stay the same pieces, with the same stages, and the
/// functions keep their number and their profiles. A function that dropped a packet belongs to the chain.
#[tactic(auto, using(crate::proofs::Keeping::count_stays, crate::proofs::Keeping::stages_stay, crate::proofs::Keeping::kinds_stay, crate::proofs::Keeping::all_profiles_stay, crate::proofs::Within::all_within))]
pub fn pieces_keep_their_kind<F>()
    ensures count { (b : Behaviour F) (pieces : List (Piece F)) (ps : List Packet) → sum_by count_of (pieces_after b pieces ps) ≡ sum_by count_of pieces }
    ensures stages { (b : Behaviour F) (pieces : List (Piece F)) (ps : List Packet) → map stages_of (pieces_after b pieces ps) ≡ map stages_of pieces }
    ensures kinds { (b : Behaviour F) (pieces : List (Piece F)) (ps : List Packet) → KeepsProfile b → map (kind_of b) (pieces_after b pieces ps) ≡ map (kind_of b) pieces }
    ensures profiles { (b : Behaviour F) (pieces : List (Piece F)) (ps : List Packet) → KeepsProfile b → map b.profile (functions_in (pieces_after b pieces ps)) ≡ map b.profile (functions_in pieces) }
    ensures within { (b : Behaviour F) (pieces : List (Piece F)) (ps : List Packet) → All (EndsWithin (sum_by count_of pieces)) (long_fates b pieces ps) }
{}

/// A frame that goes out is at most 20 bytes longer for each function than the longest frame that came in, if functions
/// keep to their profiles and none that rewrites frames whole adds more.
pub fn frames_grow_little<F>()
    ensures { (b : Behaviour F) (pieces : List (Piece F)) (ps : List Packet) (most : ℕ) → KeepsProfile b → All GrowsLittle pieces → All (λ p. length p.frame ≤ most) ps → All (IsNoLonger (most + 20 * sum_by count_of pieces)) (long_fates b pieces ps) }
{}
