//! A chain in a graph that was written for it.
ghost use Rattle.std.specs.Prelude.{◌≡◌, IfOk, Some, length};
ghost use Rattle.segment_run.specs.Segments.{piece_of, pieces_of};
ghost use Rattle.chain_service.specs.Fitting.{CanRun, CanRunIn};
ghost use Rattle.policy_chains.specs.Services.{by_graph, in_graph};

use graph_compile::Graph;
use policy_chains::NamedFunction;
use segment_run::{Piece, Running};
use std::alloc::AllocError;

/// The pieces of a chain. A chain of one piece runs in the graph that was written for it, if there is one.
pub(crate) fn in_graph(
    pieces: Vec<Piece<NamedFunction>>,
    graph: Option<Graph>,
) -> Result<Vec<Piece<NamedFunction>>, AllocError>
    requires { CanRunIn graph (pieces_of pieces.items) }
    ensures { IfOk result (λ new. pieces_of new.items ≡ in_graph graph (pieces_of pieces.items)) }
{
    match graph {
        Some(graph) if pieces.len() == 1 => one_in_graph(pieces, graph),
        _ => Ok(pieces),
    }
}

// A chain of one piece in a graph.
fn one_in_graph(
    pieces: Vec<Piece<NamedFunction>>,
    graph: Graph,
) -> Result<Vec<Piece<NamedFunction>>, AllocError>
    requires one { length pieces.items ≡ 1 }
    requires runs { CanRunIn (Some graph) (pieces_of pieces.items) }
    ensures { IfOk result (λ new. pieces_of new.items ≡ in_graph (Some graph) (pieces_of pieces.items)) }
{
    let mut pieces = pieces;
    if let Some(piece) = pieces.pop() {
        pieces.push(piece_in(piece, graph))?;
    }
    Ok(pieces)
}

// The functions of a piece in a graph.
fn piece_in(piece: Piece<NamedFunction>, graph: Graph) -> Piece<NamedFunction>
    requires { CanRun graph (piece_of piece) }
    ensures { piece_of result ≡ by_graph graph (piece_of piece) }
{
    match piece {
        Piece::Graph(run) => {
            let (functions, _) = run.into_parts();
            Piece::Graph(Running::new(functions, graph))
        }
        tunnel => tunnel,
    }
}
