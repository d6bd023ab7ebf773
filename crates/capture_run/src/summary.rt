//! Puts the part of the report after the lines of the dropped packets into Report, piece by piece.
ghost use Rattle.std.specs.Prelude.{◌≡◌, ◌≢◌, ◌<◌, ◌≤◌, ◌++◌, [], IfErr, IsSome, OnOk, length, slice_index_or};
ghost use Rattle.std.specs.List.{flat_map};
ghost use Rattle.nfp_outside.specs.declared.slot.Slot.{Slot};
ghost use Rattle.piece_walk.specs.Pieces.{functions_in};
ghost use Rattle.packet_version.specs.Tallies.{count_of};
ghost use Rattle.capture_report.specs.SegmentRun.{pieces_of};
ghost use Rattle.capture_report.specs.ChainServiceProofs.{named_rows, pieces_in};
ghost use Rattle.capture_report.specs.ChainService.{named_lines};
ghost use Rattle.capture_report.specs.Report.{chain_lines, copies_lines, function_lines, state_text};
ghost use Rattle.capture_items.specs.Totals.{total_line};
ghost use Rattle.capture_report.specs.Telling.{told_text};
ghost use Rattle.capture_items.specs.Slots.{Breaks, Gathers, Puts};

use capture_items::{RunFault, Totals, push_last_line, push_totals_line, put_text};
use capture_report::{
    Ended, NamedFunction, Piece, ServiceChain, function_named, push_copies_lines,
    push_function_line,
};
use nfp_outside::Desk;
use packet_function::Function;
use policy_text::{ChainPolicy, FunctionDecl};
use std::alloc::{AllocError, Global};

/// The number of gathered bytes from which on they are put, and the number of bytes that may be added meanwhile without
/// an allocation.
const FULL: usize = 65_536;

const MORE: usize = 4_096;

/// Puts the part of the report after the lines of the dropped packets: the totals, the copies of each chain, its
/// functions with their states, and the end or the capture's fault.
///
/// The lines go through one buffer, which is put and filled again whenever it is full, so states of many lines need no
/// more memory than those of few.
pub fn put_summary<D: Desk>(
    alloc: Global,
    desk: &mut D,
    chains: &[ServiceChain],
    ended: Ended,
) -> Result<(), RunFault>
    requires report { IsSome (D.slots desk.old Slot.Report).name }
    requires within { ended.totals.dropped ≤ ended.totals.records }
    ensures ok { OnOk result (Puts [] (told_text chains.now ended) (D.slots desk.old) (D.slots desk.new)) }
    ensures err { IfErr result (Breaks [] (told_text chains.now ended) (D.slots desk.old) (D.slots desk.new)) }
    ensures others { (s : Slot) → s ≢ Slot.Report → D.slots desk.new s ≡ D.slots desk.old s }
{
    let mut held = Vec::with_capacity(alloc, FULL + MORE)?;
    push_head(alloc, &mut held, chains, ended.totals)?;
    tell_functions(alloc, desk, &mut held, chains)?;
    push_last_line(alloc, &mut held, ended.fault)?;
    put_text(desk, &held)
}

// Adds the totals and the copies of each chain.
fn push_head(
    alloc: Global,
    held: &mut Vec<u8>,
    chains: &[ServiceChain],
    totals: Totals,
) -> Result<(), AllocError>
    requires { totals.dropped ≤ totals.records }
    ensures { OnOk result (held.new.items ≡ (held.old.items ++ total_line totals.records totals.dropped) ++ flat_map (λ c. copies_lines c.declared.name (count_of c.copies)) chains.now) }
{
    push_totals_line(alloc, held, totals)?;
    'chains: for chain in chains {
        push_copies_lines(alloc, held, chain.declared.name.bytes(), &chain.copies)?;
    }
    Ok(())
}

// Adds the lines of the functions of each chain, with their states.
fn tell_functions<D: Desk>(
    alloc: Global,
    desk: &mut D,
    held: &mut Vec<u8>,
    chains: &[ServiceChain],
) -> Result<(), RunFault>
    requires report { IsSome (D.slots desk.old Slot.Report).name }
    ensures ok { OnOk result (Gathers (flat_map (λ c. chain_lines c.declared (functions_in (pieces_in c))) chains.now) held.old.items held.new.items (D.slots desk.old) (D.slots desk.new)) }
    ensures err { IfErr result (Breaks [] (held.old.items ++ flat_map (λ c. chain_lines c.declared (functions_in (pieces_in c))) chains.now) (D.slots desk.old) (D.slots desk.new)) }
    ensures others { (s : Slot) → s ≢ Slot.Report → D.slots desk.new s ≡ D.slots desk.old s }
{
    'chains: for chain in chains {
        tell_chain(alloc, desk, held, &chain.declared, chain.pieces.as_slice())?;
    }
    Ok(())
}

// Adds the lines of the functions of a chain, in the order of their declarations.
fn tell_chain<D: Desk>(
    alloc: Global,
    desk: &mut D,
    held: &mut Vec<u8>,
    chain: &ChainPolicy,
    pieces: &[Piece<NamedFunction>],
) -> Result<(), RunFault>
    requires report { IsSome (D.slots desk.old Slot.Report).name }
    ensures ok { OnOk result (Gathers (chain_lines chain.now (functions_in (pieces_of pieces.now))) held.old.items held.new.items (D.slots desk.old) (D.slots desk.new)) }
    ensures err { IfErr result (Breaks [] (held.old.items ++ chain_lines chain.now (functions_in (pieces_of pieces.now))) (D.slots desk.old) (D.slots desk.new)) }
    ensures others { (s : Slot) → s ≢ Slot.Report → D.slots desk.new s ≡ D.slots desk.old s }
{
    'functions: for declared in chain.functions.as_slice() {
        tell_function(alloc, desk, held, chain.name.bytes(), pieces, declared)?;
    }
    Ok(())
}

// Adds the line of a function, and those of its state.
fn tell_function<D: Desk>(
    alloc: Global,
    desk: &mut D,
    held: &mut Vec<u8>,
    chain: &[u8],
    pieces: &[Piece<NamedFunction>],
    declared: &FunctionDecl,
) -> Result<(), RunFault>
    requires report { IsSome (D.slots desk.old Slot.Report).name }
    ensures ok { OnOk result (Gathers (function_lines chain.now (functions_in (pieces_of pieces.now)) declared.now) held.old.items held.new.items (D.slots desk.old) (D.slots desk.new)) }
    ensures err { IfErr result (Breaks [] (held.old.items ++ function_lines chain.now (functions_in (pieces_of pieces.now)) declared.now) (D.slots desk.old) (D.slots desk.new)) }
    ensures others { (s : Slot) → s ≢ Slot.Report → D.slots desk.new s ≡ D.slots desk.old s }
{
    push_function_line(alloc, held, chain, declared)?;
    tell_state(desk, held, pieces, declared.name.bytes())
}

// Adds the lines of the state of the function with this name.
fn tell_state<D: Desk>(
    desk: &mut D,
    held: &mut Vec<u8>,
    pieces: &[Piece<NamedFunction>],
    name: &[u8],
) -> Result<(), RunFault>
    requires report { IsSome (D.slots desk.old Slot.Report).name }
    ensures ok { OnOk result (Gathers (state_text (functions_in (pieces_of pieces.now)) name.now) held.old.items held.new.items (D.slots desk.old) (D.slots desk.new)) }
    ensures err { IfErr result (Breaks [] (held.old.items ++ state_text (functions_in (pieces_of pieces.now)) name.now) (D.slots desk.old) (D.slots desk.new)) }
    ensures others { (s : Slot) → s ≢ Slot.Report → D.slots desk.new s ≡ D.slots desk.old s }
{
    match function_named(pieces, name) {
        Some(function) => tell_rows(desk, held, function),
        None => Ok(()),
    }
}

// Adds the lines of a function's state.
fn tell_rows<D: Desk>(
    desk: &mut D,
    held: &mut Vec<u8>,
    function: &NamedFunction,
) -> Result<(), RunFault>
    requires report { IsSome (D.slots desk.old Slot.Report).name }
    ensures ok { OnOk result (Gathers (named_lines function.now) held.old.items held.new.items (D.slots desk.old) (D.slots desk.new)) }
    ensures err { IfErr result (Breaks [] (held.old.items ++ named_lines function.now) (D.slots desk.old) (D.slots desk.new)) }
    ensures others { (s : Slot) → s ≢ Slot.Report → D.slots desk.new s ≡ D.slots desk.old s }
{
    let count = function.state_count();
    'rows: for place in 0..count {
        tell_row(desk, held, function, place)?;
    }
    Ok(())
}

// Adds one line of a function's state.
fn tell_row<D: Desk>(
    desk: &mut D,
    held: &mut Vec<u8>,
    function: &NamedFunction,
    place: usize,
) -> Result<(), RunFault>
    requires report { IsSome (D.slots desk.old Slot.Report).name }
    requires inside { place < length (named_rows function.now) }
    ensures ok { OnOk result (Gathers (slice_index_or (named_rows function.now) place []) held.old.items held.new.items (D.slots desk.old) (D.slots desk.new)) }
    ensures err { IfErr result (Breaks [] (held.old.items ++ slice_index_or (named_rows function.now) place []) (D.slots desk.old) (D.slots desk.new)) }
    ensures others { (s : Slot) → s ≢ Slot.Report → D.slots desk.new s ≡ D.slots desk.old s }
{
    function.state_line(place, held)?;
    put_full(desk, held)
}

// Puts the gathered bytes, if the buffer is full.
fn put_full<D: Desk>(desk: &mut D, held: &mut Vec<u8>) -> Result<(), RunFault>
    requires report { IsSome (D.slots desk.old Slot.Report).name }
    ensures ok { OnOk result (Gathers [] held.old.items held.new.items (D.slots desk.old) (D.slots desk.new)) }
    ensures err { IfErr result (Breaks [] held.old.items (D.slots desk.old) (D.slots desk.new)) }
    ensures others { (s : Slot) → s ≢ Slot.Report → D.slots desk.new s ≡ D.slots desk.old s }
{
    if held.len() < FULL {
        return Ok(());
    }
    put_text(desk, held)?;
    held.clear();
    Ok(())
}
