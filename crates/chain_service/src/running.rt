//! The pieces of a chain, each with the graph that is compiled for its functions.
ghost use Rattle.std.specs.Prelude.{◌≡◌, ◌≤◌, length, IfOk};
ghost use Rattle.piece_walk.specs.Pieces.{count_of};
ghost use Rattle.segment_run.specs.GraphRun.{profiles_of};
ghost use Rattle.segment_run.specs.Segments.{functions_count, piece_of, pieces_of};
ghost use Rattle.policy_chains.specs.Parts.{part_of, parts_of};
ghost use Rattle.policy_chains.specs.Services.{stages_of};

use action_profile::Profile;
use graph_compile::compile;
use packet_function::Function;
use policy_chains::{ChainPart, ChainParts, NamedFunction};
use segment_run::{Piece, Running};
use std::alloc::{AllocError, Global};

/// The pieces of a chain with these parts.
#[tactic(auto, using(crate::proofs::Fewness::few_first, crate::proofs::Fewness::few_later))]
pub(crate) fn running_pieces(
    alloc: Global,
    parts: ChainParts,
) -> Result<Vec<Piece<NamedFunction>>, AllocError>
    ensures pieces { IfOk result (λ pieces. pieces_of pieces.items ≡ parts_of parts) }
    ensures few { IfOk result (λ pieces. functions_count (pieces_of pieces.items) ≤ 64) }
{
    let parts = parts.into_vec();
    let mut pieces = Vec::with_capacity(alloc, parts.len())?;
    'parts: for part in parts {
        let piece = running_piece(alloc, part)?;
        pieces.push(piece)?;
    }
    Ok(pieces)
}

// The piece of a part.
fn running_piece(alloc: Global, part: ChainPart) -> Result<Piece<NamedFunction>, AllocError>
    requires { count_of (part_of part) ≤ 64 }
    ensures { IfOk result (λ piece. piece_of piece ≡ part_of part) }
{
    match part {
        ChainPart::Functions(functions) => Ok(Piece::Graph(running(alloc, functions)?)),
        ChainPart::Encap(tunnel) => Ok(Piece::Encap(tunnel)),
        ChainPart::Decap(tunnel) => Ok(Piece::Decap(tunnel)),
    }
}

// Functions in the graph that is compiled for them.
fn running(
    alloc: Global,
    functions: Vec<NamedFunction>,
) -> Result<Running<NamedFunction>, AllocError>
    requires { length functions.items ≤ 64 }
    ensures functions { IfOk result (λ running. running.functions ≡ functions.items) }
    ensures compiled { IfOk result (λ running. running.graph.stages ≡ stages_of functions.items) }
{
    let profiles = profiles(alloc, functions.as_slice())?;
    let graph = compile(alloc, &profiles)?;
    Ok(Running::new(functions, graph))
}

fn profiles<F: Function>(alloc: Global, functions: &[F]) -> Result<Vec<Profile>, AllocError>
    ensures { IfOk result (λ profiles. profiles.items ≡ profiles_of F.behaviour functions.now) }
{
    functions
        .iter()
        .map(|function| function.profile())
        .collect(alloc)
}
