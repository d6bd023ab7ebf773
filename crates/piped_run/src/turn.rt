//! Runs the functions of a branch in turn on a packet.
ghost use Rattle.std.specs.Prelude.{◌≡◌, ℕ, false, true, IfOk, OnOk, OnErr};
ghost use Rattle.chain_walk.specs.Counting.{quiet};
ghost use Rattle.graph_run.specs.Running.{profiles_of};
ghost use Rattle.stream_law.specs.Owned.{IsOwnReady};
ghost use Rattle.packet_messages.specs.Messages.{PlainMessage.Live, PlainMessage.Nil, is_short, plain};
ghost use Rattle.stream_law.specs.Owned.{ran_by, notes_by};
ghost use Rattle.burst_law.specs.Noting.{row_listed};
ghost use Rattle.piped_run.specs.Turns.{AddsAll, AddsSome, EachStays, IsReadyMessage, as_sent, is_live};

use chain_walk::quiet_functions_keep_to_profiles;
use graph_run::{Acted, step_on, versions_go_on};
use merge_ops::Arrival;
use nfp_outside::Gate;
use packet_function::Function;
use packet_messages::{Message, boxed};
use packet_version::Version;
use settled_notes::{ListedNote, list_note};
use std::alloc::{AllocError, Global};
use std::sync::Wait;

/// One branch's turn: its functions, which have these chain positions, run one after another on what comes of the
/// packet with this record number, until one drops it. Each step passes the gate first. A function that counts doesn't
/// step: what it notes is listed for the packet's number in the burst, `item`, and settled once it is known how the
/// packet ends. A packet that is gone already passes on as such, and no function sees it.
///
/// `Short` if memory runs out. Then nothing is promised of the functions' states, except that each function is in its
/// place as it was or as its step left it: kind, settings and order never change. The first of the packet's notes may
/// already be listed then.
pub fn branch_turn<F: Function, G: Gate, R: Wait>(
    rt: &R,
    alloc: Global,
    functions: &mut [F],
    positions: &[u32],
    message: Message<Version>,
    number: u32,
    chain: u32,
    gate: &G,
    item: u32,
    notes: &mut Vec<ListedNote>,
) -> Message<Version>
    requires ready { IsReadyMessage (profiles_of F.behaviour functions.old) positions.now (plain message) }
    ensures ran { is_short (plain result) ≡ false → plain result ≡ (ran_by (quiet F.behaviour) positions.now functions.old (plain message)).gives }
    ensures functions { is_short (plain result) ≡ false → functions.new ≡ (ran_by (quiet F.behaviour) positions.now functions.old (plain message)).state }
    ensures noted { is_short (plain result) ≡ false → AddsAll (row_listed item 0 (notes_by (quiet F.behaviour) F.notes positions.now functions.old (plain message))) notes.old.items notes.new.items }
    ensures each { EachStays (quiet F.behaviour) functions.old functions.new }
    ensures profiles { profiles_of F.behaviour functions.new ≡ profiles_of F.behaviour functions.old }
    ensures listed { AddsSome (row_listed item 0 (notes_by (quiet F.behaviour) F.notes positions.now functions.old (plain message))) notes.old.items notes.new.items }
    ensures gone { (p : ℕ) → plain message ≡ Nil p → plain result ≡ Nil p }
    ensures stays { is_live (plain message) ≡ false → (functions.new ≡ functions.old) × (notes.new.items ≡ notes.old.items) }
{
    match message {
        Message::Live(version) => {
            let version = Box::into_inner(version);
            send(
                alloc,
                turn_on(
                    rt, gate, chain, number, functions, positions, version, item, notes,
                ),
            )
        }
        gone => gone,
    }
}

/// The result of a branch, as a message. `Short` if memory ran out.
fn send(alloc: Global, came: Result<Arrival, AllocError>) -> Message<Version>
    ensures sent { is_short (plain result) ≡ false → IfOk came (λ arrival. plain result ≡ as_sent arrival) }
    ensures refused { OnErr came (is_short (plain result) ≡ true) }
{
    match came {
        Ok(Arrival::Version(version)) => boxed(alloc, version),
        Ok(Arrival::Nil(position)) => Message::Nil(position),
        Ok(Arrival::Short) => Message::Short,
        Err(_) => Message::Short,
    }
}

/// Runs the functions of a branch, which have these chain positions, one after another on a version of a packet, until
/// one drops it. Each passes the gate before its step, or before it looks at the packet.
fn turn_on<F: Function, G: Gate, R: Wait>(
    rt: &R,
    gate: &G,
    chain: u32,
    number: u32,
    functions: &mut [F],
    positions: &[u32],
    version: Version,
    item: u32,
    notes: &mut Vec<ListedNote>,
) -> Result<Arrival, AllocError>
    requires ready { IsOwnReady (profiles_of F.behaviour functions.old) positions.now version }
    ensures functions { OnOk result (functions.new ≡ (ran_by (quiet F.behaviour) positions.now functions.old (Live version)).state) }
    ensures arrival { IfOk result (λ arrival. as_sent arrival ≡ (ran_by (quiet F.behaviour) positions.now functions.old (Live version)).gives) }
    ensures noted { OnOk result (AddsAll (row_listed item 0 (notes_by (quiet F.behaviour) F.notes positions.now functions.old (Live version))) notes.old.items notes.new.items) }
    ensures each { EachStays (quiet F.behaviour) functions.old functions.new }
    ensures profiles { profiles_of F.behaviour functions.new ≡ profiles_of F.behaviour functions.old }
    ensures listed { AddsSome (row_listed item 0 (notes_by (quiet F.behaviour) F.notes positions.now functions.old (Live version))) notes.old.items notes.new.items }
{
    versions_go_on::<F>();
    quiet_functions_keep_to_profiles::<F>();
    let mut version = version;
    for index in 0..positions.len() {
        let position = positions[index];
        gate.pass(rt, chain, position, number);
        let Acted { arrival, note } = step_on(rt, &mut functions[index], version, position)?;
        list_note(notes, item, index, note)?;
        match arrival {
            Arrival::Version(after) => version = after,
            dropped => return Ok(dropped),
        }
    }
    Ok(Arrival::Version(version))
}
