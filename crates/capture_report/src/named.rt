//! The function with a name.
ghost use Rattle.std.specs.Prelude.{◌≡◌};
ghost use Rattle.std.specs.List.{find};
ghost use Rattle.std.specs.Option.{option_copied};
ghost use Rattle.std.specs.Str.{bytes_eq};
ghost use Rattle.piece_walk.specs.Pieces.{functions_in, functions_of};
ghost use Rattle.burst_walk.specs.SegmentRunProofs.{piece_of, pieces_of};

use burst_walk::{NamedFunction, Piece};

/// The function with this name among those of a chain's pieces, if there is one.
pub fn function_named<'a>(
    pieces: &'a [Piece<NamedFunction>],
    name: &[u8],
) -> Option<&'a NamedFunction>
    ensures { option_copied result ≡ find (λ f. bytes_eq f.name name.now) (functions_in (pieces_of pieces.now)) }
{
    'pieces: for piece in pieces {
        if let Some(function) = named_in(piece, name) {
            return Some(function);
        }
    }
    None
}

// The function with this name in a piece.
fn named_in<'a>(piece: &'a Piece<NamedFunction>, name: &[u8]) -> Option<&'a NamedFunction>
    ensures { option_copied result ≡ find (λ f. bytes_eq f.name name.now) (functions_of (piece_of piece.now)) }
{
    match piece {
        Piece::Graph(running) => with_name(running.functions(), name),
        Piece::Encap(_) => None,
        Piece::Decap(_) => None,
    }
}

// Something with a name.
trait Named {
    ghost use Rattle.std.specs.Prelude.{◌≡◌, ℕ, List};

    ghost name_of: { Self → List ℕ };

    fn name_bytes(&self) -> &[u8]
        ensures { result.now ≡ name_of self.now };
}

impl Named for NamedFunction {
    ghost name_of = { λ f. f.name };

    fn name_bytes(&self) -> &[u8] {
        self.name.bytes()
    }
}

// The first of these with this name. It is generic so that its proof doesn't look into the kinds of functions.
fn with_name<'a, F: Named>(functions: &'a [F], name: &[u8]) -> Option<&'a F>
    ensures { option_copied result ≡ find (λ f. bytes_eq (F.name_of f) name.now) functions.now }
{
    functions
        .iter()
        .find(|function| function.name_bytes() == name)
}
