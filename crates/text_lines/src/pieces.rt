//! Bytes and numbers, one after another.
ghost use Rattle.std.specs.Prelude.{◌≡◌, ◌++◌, IfOk, OnOk, codes};
ghost use Rattle.std.specs.List.{flat_map};
ghost use Rattle.std.specs.Fmt.{decimal};
ghost use Rattle.text_lines.specs.Pieces.{piece_text};

use itoa::Buffer;
use std::alloc::{AllocError, Global};

/// A piece of a text.
#[derive(Clone, Copy, Debug)]
pub enum Piece<'a> {
    Text(&'a [u8]),
    /// A number, printed in decimal digits without leading zeros.
    Number(u64),
}

/// A new text of the pieces, one after another.
pub fn join(alloc: Global, pieces: &[Piece]) -> Result<Vec<u8>, AllocError>
    ensures { IfOk result (λ text. text.items ≡ flat_map piece_text pieces.now) }
{
    let mut text = Vec::new(alloc);
    push_pieces(alloc, &mut text, pieces)?;
    Ok(text)
}

/// A new text of the pieces, one after another, and a line feed.
pub fn line(alloc: Global, pieces: &[Piece]) -> Result<Vec<u8>, AllocError>
    ensures { IfOk result (λ line. line.items ≡ flat_map piece_text pieces.now ++ codes "\n") }
{
    let mut line = Vec::new(alloc);
    push_line(alloc, &mut line, pieces)?;
    Ok(line)
}

/// Appends the pieces, one after another.
pub fn push_pieces(alloc: Global, text: &mut Vec<u8>, pieces: &[Piece]) -> Result<(), AllocError>
    ensures { OnOk result (text.new.items ≡ text.old.items ++ flat_map piece_text pieces.now) }
{
    'pieces: for piece in pieces {
        push_piece(alloc, text, piece)?;
    }
    Ok(())
}

/// Appends the pieces, one after another, and a line feed.
pub fn push_line(alloc: Global, text: &mut Vec<u8>, pieces: &[Piece]) -> Result<(), AllocError>
    ensures { OnOk result (text.new.items ≡ text.old.items ++ (flat_map piece_text pieces.now ++ codes "\n")) }
{
    push_pieces(alloc, text, pieces)?;
    text.push(b'\n')?;
    Ok(())
}

fn push_piece(alloc: Global, text: &mut Vec<u8>, piece: &Piece) -> Result<(), AllocError>
    ensures { OnOk result (text.new.items ≡ text.old.items ++ piece_text piece.now) }
{
    match piece {
        Piece::Text(bytes) => text.extend_from_slice(bytes),
        Piece::Number(number) => {
            let mut digits = Buffer::new();
            text.extend_from_slice(digits.format(*number).as_bytes())
        }
    }
}
