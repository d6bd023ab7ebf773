//! Runs a burst through the pieces of a chain.
ghost use Rattle.std.specs.Prelude.{◌≡◌, ◌≤◌, ◌+◌, ℕ, List, [], ◌∷◌, ◌++◌, All, length, IfOk, OnErr};
ghost use Rattle.chain_walk.specs.Walk.{EndsWithin};
ghost use Rattle.graph_run.specs.Counting.{RaisesUpTo};
ghost use Rattle.graph_run.specs.Packets.{packets_taken};
ghost use Rattle.piece_walk.specs.Pieces.{Graph, Whole, count_of as count_of_piece};
ghost use Rattle.piece_walk.specs.Rejoining.{still_going};
ghost use Rattle.segment_run.specs.Counting.{copies_through};
ghost use Rattle.segment_run.specs.Rewriting.{rewritten};
ghost use Rattle.segment_run.specs.Segments.{GoesOn, GoesThrough, functions_count, piece_of, pieces_of};

use crate::ends::{End, rewrite_all, rewrite_fates};
use crate::going::going;
use crate::piece::Piece;
use crate::putting::{put_back, without_frames};
use crate::sealing::seal_all;
use capture_bytes::Unit;
use chain_walk::Fate;
use classifier::Burst;
use graph_run::Running;
use nfp_outside::Gate;
use packet_function::Function;
use packet_version::Tally;
use piped_run::{MergeWay, run_piped};
use std::alloc::{AllocError, Global};
use std::rt::Clock;
use std::sync::Wait;
use std::thread::Threads;
use std::vec::IntoIter;

/// Runs the packets of a burst that are of the chain with this number through its pieces, one piece after another, and
/// returns the fate of each, in their order: the frame that goes out is sealed, and a position counts all functions of
/// the chain, from 1. In a piece with a graph the packets run as in `run_piped`, with `mergers` mergers, from 1 to 16,
/// that merge in this way; gate positions count within the piece.
///
/// Every packet ends as if it went through the pieces one after another, each meeting them as the packet before left
/// them, and the pieces end in the same states. The tally rises by the copies that were made. The only error is that
/// memory runs out: then the pieces are lost, and the tally may have risen by copies that were made.
pub fn run_pieces<F: Function + Drop + Send, G: Gate + Sync, R: Threads + Wait + Clock + Sync>(
    rt: &R,
    alloc: Global,
    pieces: Vec<Piece<F>>,
    burst: &Burst,
    unit: Unit,
    chain: u32,
    tally: &mut Tally,
    mergers: u32,
    gate: &G,
    way: MergeWay,
) -> Result<(Vec<Piece<F>>, Vec<Fate>), AllocError>
    requires few { length burst.now.items ≤ 65536 }
    requires few_functions { functions_count (pieces_of pieces.items) ≤ 64 }
    requires some_mergers { 1 ≤ mergers }
    requires few_mergers { mergers ≤ 16 }
    ensures goes { IfOk result (λ ran. GoesThrough F.behaviour (pieces_of pieces.items) (packets_taken unit chain burst.now.items) tally.old tally.new (pieces_of ran.0.items) ran.1.items) }
    ensures refused { OnErr result (RaisesUpTo (copies_through F.behaviour (pieces_of pieces.items) (packets_taken unit chain burst.now.items)) tally.old tally.new) }
{
    let mut left = pieces.into_iter();
    match left.next() {
        Some(first) => run_on(
            rt, alloc, first, left, burst, unit, chain, tally, mergers, gate, way,
        ),
        None => pass_all(alloc, burst, unit, chain),
    }
}

// Lets each packet of the chain go out unchanged.
fn pass_all<F: Function + Drop>(
    alloc: Global,
    burst: &Burst,
    unit: Unit,
    chain: u32,
) -> Result<(Vec<Piece<F>>, Vec<Fate>), AllocError>
    ensures { (old : List ℕ) → IfOk result (λ ran. GoesThrough F.behaviour [] (packets_taken unit chain burst.now.items) old old (pieces_of ran.0.items) ran.1.items) }
{
    let fates = rewrite_all(alloc, End::Open, burst.items.as_slice(), chain)?;
    Ok((Vec::new(alloc), fates))
}

// Runs the packets through the first piece, and through the pieces that are left.
fn run_on<F: Function + Drop + Send, G: Gate + Sync, R: Threads + Wait + Clock + Sync>(
    rt: &R,
    alloc: Global,
    first: Piece<F>,
    left: IntoIter<Piece<F>>,
    burst: &Burst,
    unit: Unit,
    chain: u32,
    tally: &mut Tally,
    mergers: u32,
    gate: &G,
    way: MergeWay,
) -> Result<(Vec<Piece<F>>, Vec<Fate>), AllocError>
    requires few { length burst.now.items ≤ 65536 }
    requires few_functions { functions_count (piece_of first ∷ pieces_of left.rest.items) ≤ 64 }
    requires some_mergers { 1 ≤ mergers }
    requires few_mergers { mergers ≤ 16 }
    ensures goes { IfOk result (λ ran. GoesThrough F.behaviour (piece_of first ∷ pieces_of left.rest.items) (packets_taken unit chain burst.now.items) tally.old tally.new (pieces_of ran.0.items) ran.1.items) }
    ensures refused { OnErr result (RaisesUpTo (copies_through F.behaviour (piece_of first ∷ pieces_of left.rest.items) (packets_taken unit chain burst.now.items)) tally.old tally.new) }
{
    let mut before = count_of(&first);
    let (first, fates) = lead(
        rt, alloc, first, burst, unit, chain, tally, mergers, gate, way,
    )?;
    let mut done = Vec::new(alloc);
    done.push(first)?;
    let mut ended = fates;
    'pieces: for piece in left {
        let count = count_of(&piece);
        let (piece, fates) = lead_on(
            rt, alloc, piece, before, ended, burst, unit, chain, tally, mergers, gate, way,
        )?;
        done.push(piece)?;
        ended = fates;
        before += count;
    }
    Ok((done, ended))
}

// The number of functions of a piece.
fn count_of<F: Function>(piece: &Piece<F>) -> u32
    requires { count_of_piece (piece_of piece.now) ≤ 64 }
    ensures { result ≡ count_of_piece (piece_of piece.now) }
{
    match piece {
        Piece::Graph(run) => run.functions().len() as u32,
        Piece::Encap(_) => 1,
        Piece::Decap(_) => 1,
    }
}

// Runs the packets that go on, by their fates after `before` functions, through one more piece.
fn lead_on<F: Function + Drop + Send, G: Gate + Sync, R: Threads + Wait + Clock + Sync>(
    rt: &R,
    alloc: Global,
    piece: Piece<F>,
    before: u32,
    ended: Vec<Fate>,
    burst: &Burst,
    unit: Unit,
    chain: u32,
    tally: &mut Tally,
    mergers: u32,
    gate: &G,
    way: MergeWay,
) -> Result<(Piece<F>, Vec<Fate>), AllocError>
    requires few { length burst.now.items ≤ 65536 }
    requires few_before { before ≤ 64 }
    requires few_functions { count_of_piece (piece_of piece) ≤ 64 }
    requires some_mergers { 1 ≤ mergers }
    requires few_mergers { mergers ≤ 16 }
    requires one_each { length ended.items ≡ length (packets_taken unit chain burst.now.items) }
    ensures goes { IfOk result (λ ran. GoesOn F.behaviour (piece_of piece) (packets_taken unit chain burst.now.items) before ended.items tally.old tally.new (piece_of ran.0) ran.1.items) }
    ensures refused { OnErr result (RaisesUpTo (copies_through F.behaviour (piece_of piece ∷ []) (still_going (packets_taken unit chain burst.now.items) ended.items)) tally.old tally.new) }
{
    match piece {
        Piece::Graph(run) => lead_graph_on(
            rt, alloc, run, before, ended, burst, unit, chain, tally, mergers, gate, way,
        ),
        Piece::Encap(tunnel) => {
            let fates = rewrite_fates(alloc, End::Entry(tunnel), ended)?;
            Ok((Piece::Encap(tunnel), fates))
        }
        Piece::Decap(tunnel) => {
            let fates = rewrite_fates(alloc, End::Exit(tunnel), ended)?;
            Ok((Piece::Decap(tunnel), fates))
        }
    }
}

// Runs the packets that go on through a graph.
fn lead_graph_on<F: Function + Drop + Send, G: Gate + Sync, R: Threads + Wait + Clock + Sync>(
    rt: &R,
    alloc: Global,
    run: Running<F>,
    before: u32,
    ended: Vec<Fate>,
    burst: &Burst,
    unit: Unit,
    chain: u32,
    tally: &mut Tally,
    mergers: u32,
    gate: &G,
    way: MergeWay,
) -> Result<(Piece<F>, Vec<Fate>), AllocError>
    requires few { length burst.now.items ≤ 65536 }
    requires few_before { before ≤ 64 }
    requires few_functions { length run.functions ≤ 64 }
    requires some_mergers { 1 ≤ mergers }
    requires few_mergers { mergers ≤ 16 }
    ensures goes { IfOk result (λ ran. GoesOn F.behaviour (Graph run.graph.stages run.functions) (packets_taken unit chain burst.now.items) before ended.items tally.old tally.new (piece_of ran.0) ran.1.items) }
    ensures refused { OnErr result (RaisesUpTo (copies_through F.behaviour (Graph run.graph.stages run.functions ∷ []) (still_going (packets_taken unit chain burst.now.items) ended.items)) tally.old tally.new) }
{
    let stays = without_frames(alloc, &ended)?;
    let next = going(alloc, burst.items.as_slice(), chain, ended)?;
    let (piece, fates) = lead_graph(
        rt, alloc, run, &next, unit, chain, tally, mergers, gate, way,
    )?;
    let all = put_back(alloc, stays, fates, before)?;
    Ok((piece, all))
}

// Runs the packets through one piece.
fn lead<F: Function + Drop + Send, G: Gate + Sync, R: Threads + Wait + Clock + Sync>(
    rt: &R,
    alloc: Global,
    piece: Piece<F>,
    burst: &Burst,
    unit: Unit,
    chain: u32,
    tally: &mut Tally,
    mergers: u32,
    gate: &G,
    way: MergeWay,
) -> Result<(Piece<F>, Vec<Fate>), AllocError>
    requires few { length burst.now.items ≤ 65536 }
    requires few_functions { count_of_piece (piece_of piece) ≤ 64 }
    requires some_mergers { 1 ≤ mergers }
    requires few_mergers { mergers ≤ 16 }
    ensures goes { IfOk result (λ ran. GoesThrough F.behaviour (piece_of piece ∷ []) (packets_taken unit chain burst.now.items) tally.old tally.new (piece_of ran.0 ∷ []) ran.1.items) }
    ensures refused { OnErr result (RaisesUpTo (copies_through F.behaviour (piece_of piece ∷ []) (packets_taken unit chain burst.now.items)) tally.old tally.new) }
    ensures few { IfOk result (λ ran. All (EndsWithin 64) ran.1.items) }
{
    match piece {
        Piece::Graph(run) => lead_graph(
            rt, alloc, run, burst, unit, chain, tally, mergers, gate, way,
        ),
        Piece::Encap(tunnel) => {
            let fates = lead_end::<F>(alloc, End::Entry(tunnel), burst, unit, chain)?;
            Ok((Piece::Encap(tunnel), fates))
        }
        Piece::Decap(tunnel) => {
            let fates = lead_end::<F>(alloc, End::Exit(tunnel), burst, unit, chain)?;
            Ok((Piece::Decap(tunnel), fates))
        }
    }
}

// Runs the packets through a graph.
fn lead_graph<F: Function + Drop + Send, G: Gate + Sync, R: Threads + Wait + Clock + Sync>(
    rt: &R,
    alloc: Global,
    run: Running<F>,
    burst: &Burst,
    unit: Unit,
    chain: u32,
    tally: &mut Tally,
    mergers: u32,
    gate: &G,
    way: MergeWay,
) -> Result<(Piece<F>, Vec<Fate>), AllocError>
    requires few { length burst.now.items ≤ 65536 }
    requires few_functions { length run.functions ≤ 64 }
    requires some_mergers { 1 ≤ mergers }
    requires few_mergers { mergers ≤ 16 }
    ensures goes { IfOk result (λ ran. GoesThrough F.behaviour (Graph run.graph.stages run.functions ∷ []) (packets_taken unit chain burst.now.items) tally.old tally.new (piece_of ran.0 ∷ []) ran.1.items) }
    ensures refused { OnErr result (RaisesUpTo (copies_through F.behaviour (Graph run.graph.stages run.functions ∷ []) (packets_taken unit chain burst.now.items)) tally.old tally.new) }
    ensures few { IfOk result (λ ran. All (EndsWithin 64) ran.1.items) }
{
    let (run, fates) = run_piped(
        rt, alloc, run, burst, unit, chain, tally, mergers, gate, way,
    )?;
    let fates = seal_all(alloc, burst.items.as_slice(), chain, fates)?;
    Ok((Piece::Graph(run), fates))
}

// Lets the packets go out after one end of a tunnel.
fn lead_end<F: Function>(
    alloc: Global,
    end: End,
    burst: &Burst,
    unit: Unit,
    chain: u32,
) -> Result<Vec<Fate>, AllocError>
    ensures goes { (old : List ℕ) → IfOk result (λ fates. GoesThrough F.behaviour (Whole (rewritten end) ∷ []) (packets_taken unit chain burst.now.items) old old (Whole (rewritten end) ∷ []) fates.items) }
    ensures few { IfOk result (λ fates. All (EndsWithin 64) fates.items) }
{
    let fates = rewrite_all(alloc, end, burst.items.as_slice(), chain)?;
    Ok(fates)
}
