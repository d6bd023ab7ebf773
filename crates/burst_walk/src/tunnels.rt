//! A law on how much longer the ends of a tunnel make a packet.
ghost use Rattle.std.specs.Prelude.{All};
ghost use Rattle.piece_walk.specs.Kinds.{GrowsLittle};
ghost use Rattle.chain_service.specs.SegmentRunProofs.{pieces_of};

use chain_service::{Piece, piece_grows_little};
use policy_chains::NamedFunction;

/// No piece of a chain makes a frame much longer by itself: the entry of a tunnel adds twenty bytes, and an exit none.
pub fn pieces_grow_little(pieces: &[Piece<NamedFunction>])
    ensures { All GrowsLittle (pieces_of pieces.now) }
{
    'pieces: for piece in pieces {
        piece_grows_little(piece);
    }
}
