//! Laws on the copies that bursts make, and on the lengths of frames.
ghost use Rattle.std.specs.Prelude.{◌≡◌, ◌≤◌, ◌+◌, ℕ, List, [], ◌∷◌, ◌++◌, length};
ghost use Rattle.packet_fields.specs.declared.field.Field.{Field};
ghost use Rattle.graph_compile.specs.declared.graph.Stage.{Stage};
ghost use Rattle.chain_walk.specs.Packets.{Packet, fates};
ghost use Rattle.chain_walk.specs.Step.{Behaviour};
ghost use Rattle.piece_walk.specs.Kinds.{GrowsLittle};
ghost use Rattle.piece_walk.specs.PiecePackets.{pieces_after};
ghost use Rattle.piece_walk.specs.Pieces.{Piece as PlainPiece, Graph};
ghost use Rattle.graph_run.specs.Counting.{copies_made};
ghost use Rattle.segment_run.specs.Counting.{copies_through};
ghost use Rattle.nf_tunnel.specs.Tunnels.{decapsulated, encapsulated};
ghost use Rattle.segment_run.specs.Segments.{piece_of};

use crate::piece::Piece;
use nf_tunnel::{Decap, Encap, an_entry_adds_twenty_bytes};
use packet_function::Function;

/// The copies of two lots are those of the first, and those of the second as the first left the pieces. A chain that is
/// one graph makes the copies of its graph.
#[tactic(auto, using(crate::proofs::CopiesInRow::copies_in_a_row, crate::proofs::CopiesInRow::copies_of_one))]
pub fn bursts_are_counted_in_a_row<F>()
    ensures row { (b : Behaviour F) (pieces : List (PlainPiece F)) (first later : List Packet) (f : Field) →
        copies_through b pieces (first ++ later) f ≡ copies_through b pieces first f + copies_through b (pieces_after b pieces first) later f }
    ensures one { (b : Behaviour F) (stages : List Stage) (functions : List F) (ps : List Packet) (f : Field) →
        copies_through b (Graph stages functions ∷ []) ps f ≡ copies_made stages ps (fates b functions ps) f }
{}

/// A piece makes frames little longer: an end of a tunnel puts one header of 20 bytes before a packet, or removes one.
pub fn piece_grows_little<F: Function>(piece: &Piece<F>)
    ensures { GrowsLittle (piece_of piece.now) }
{
    match piece {
        Piece::Graph(_) => {}
        Piece::Encap(tunnel) => entry_grows(tunnel),
        Piece::Decap(tunnel) => exit_grows(tunnel),
    }
}

// The entry of a tunnel.
fn entry_grows(tunnel: &Encap)
    ensures { (frame : List ℕ) → length (encapsulated tunnel.now frame) ≤ length frame + 20 }
{
    an_entry_adds_twenty_bytes(*tunnel);
}

// The exit of a tunnel.
fn exit_grows(tunnel: &Decap)
    ensures { (frame : List ℕ) → length (decapsulated tunnel.now frame) ≤ length frame + 20 }
{}
