//! The pieces of a chain, cut before and after each function that rewrites packets whole.
ghost use Rattle.std.specs.Prelude.{◌≡◌, ◌<◌, ◌≤◌, ◌+◌, ◌++◌, length, position, All, IfOk, OnOk};
ghost use Rattle.std.specs.List.{position_or_len};
ghost use Rattle.graph_compile.specs.Cutting.{cut};
ghost use Rattle.plan_text.specs.Plan.{is_whole_at, numbered, pieces_text, stage_text, stages_of};
ghost use Rattle.plan_text.specs.Putting.{IsFirstPiece};

use crate::branches::put_branches;
use crate::functions::{is_whole_at, profiles_in};
use crate::parts::put_parts;
use graph_compile::{Graph, Stage, compile};
use policy_text::FunctionDecl;
use std::alloc::{AllocError, Global};
use text_lines::Piece::{Number, Text};
use text_lines::push_line;

/// Adds the stages of a chain's pieces, counted from 1 through all of them.
#[tactic(auto, using(crate::proofs::Cutting::none_put))]
pub(crate) fn put_pieces(
    alloc: Global,
    out: &mut Vec<u8>,
    functions: &[FunctionDecl],
    order: &[u32],
) -> Result<(), AllocError>
    requires inside { All (λ p. p < length functions.now) order.now }
    requires few { length order.now ≤ 64 }
    ensures { OnOk result (out.new.items ≡ out.old.items ++ pieces_text functions.now 1 (cut (is_whole_at functions.now) order.now)) }
{
    let mut rest = order;
    let mut number = 1;
    'pieces: while !rest.is_empty() {
        let count = first_piece(functions, rest);
        number = put_piece(alloc, out, functions, &rest[..count], number)?;
        rest = &rest[count..];
    }
    Ok(())
}

// The number of functions of the first piece: all before the first that rewrites packets whole, or only that one.
#[tactic(auto, using(crate::proofs::Cutting::whole_is_first))]
fn first_piece(functions: &[FunctionDecl], order: &[u32]) -> usize
    requires { 0 < length order.now }
    ensures { IsFirstPiece functions.now order.now result }
{
    let plain = plain_len(functions, order);
    if plain == 0 { 1 } else { plain }
}

// The number of functions before the first that rewrites packets whole.
fn plain_len(functions: &[FunctionDecl], order: &[u32]) -> usize
    ensures { result ≡ position_or_len (is_whole_at functions.now) order.now }
{
    match first_whole(functions, order) {
        Some(place) => place,
        None => order.len(),
    }
}

fn first_whole(functions: &[FunctionDecl], order: &[u32]) -> Option<usize>
    ensures { result ≡ position (is_whole_at functions.now) order.now }
{
    order
        .iter()
        .position(|place| is_whole_at(functions, *place))
}

// Adds the stages of a piece, the first with this number, and returns the number of the stage after them.
fn put_piece(
    alloc: Global,
    out: &mut Vec<u8>,
    functions: &[FunctionDecl],
    piece: &[u32],
    number: usize,
) -> Result<usize, AllocError>
    requires inside { All (λ p. p < length functions.now) piece.now }
    requires few { number + length piece.now ≤ 65 }
    requires counted { 0 < number }
    ensures put { OnOk result (out.new.items ≡ out.old.items ++ numbered (stage_text functions.now piece.now) number (stages_of functions.now piece.now)) }
    ensures next { IfOk result (λ next. next ≡ number + length (stages_of functions.now piece.now)) }
    ensures few { IfOk result (λ next. next ≤ number + length piece.now) }
{
    let graph = graph_in(alloc, functions, piece)?;
    let stages = graph.stages.as_slice();
    put_stages(alloc, out, functions, piece, stages, number)?;
    Ok(number + stages.len())
}

// The graph of a piece, as if it were a chain. It has no more stages than functions.
fn graph_in(alloc: Global, functions: &[FunctionDecl], piece: &[u32]) -> Result<Graph, AllocError>
    requires inside { All (λ p. p < length functions.now) piece.now }
    requires few { length piece.now ≤ 64 }
    ensures exact { IfOk result (λ graph. graph.stages ≡ stages_of functions.now piece.now) }
    ensures few { IfOk result (λ graph. length graph.stages ≤ length piece.now) }
{
    let profiles = profiles_in(alloc, functions, piece)?;
    let graph = compile(alloc, &profiles)?;
    Ok(graph)
}

/// Adds the lines of stages, the first with this number.
pub(crate) fn put_stages(
    alloc: Global,
    out: &mut Vec<u8>,
    functions: &[FunctionDecl],
    order: &[u32],
    stages: &[Stage],
    number: usize,
) -> Result<(), AllocError>
    requires { number + length stages.now ≤ 65 }
    ensures { OnOk result (out.new.items ≡ out.old.items ++ numbered (stage_text functions.now order.now) number stages.now) }
{
    'stages: for (index, stage) in stages.iter().enumerate() {
        put_stage(alloc, out, functions, order, number + index, stage)?;
    }
    Ok(())
}

#[tactic(auto, unfolding(crate::specs::Plan::stage_text))]
fn put_stage(
    alloc: Global,
    out: &mut Vec<u8>,
    functions: &[FunctionDecl],
    order: &[u32],
    number: usize,
    stage: &Stage,
) -> Result<(), AllocError>
    ensures { OnOk result (out.new.items ≡ out.old.items ++ stage_text functions.now order.now number stage.now) }
{
    push_line(alloc, out, &[Text(b"stage "), Number(number as u64)])?;
    put_branches(alloc, out, functions, order, stage.branches.as_slice())?;
    put_parts(alloc, out, &stage.parts)
}
