//! Runs the functions of a branch in turn.
ghost use Rattle.std.specs.Prelude.{◌≡◌, ◌≤◌, ◌+◌, ◌++◌, ℕ, true, length, IfOk, OnOk, OnErr, IfSome};
ghost use Rattle.packet_fields.specs.declared.field.Field.{Field};
ghost use Rattle.packet_version.specs.Versions.{version_parts, HoldsNamed};
ghost use Rattle.chain_walk.specs.Counting.{quiet};
ghost use Rattle.chain_walk.specs.Notes.{noted};
ghost use Rattle.chain_walk.specs.Step.{stepped};
ghost use Rattle.graph_law.specs.Branches.{BranchEnd.Live, moved_function, moved_end, in_turn};
ghost use Rattle.graph_law.specs.BranchNotes.{in_turn_notes};
ghost use Rattle.burst_law.specs.Placed.{placed};
ghost use Rattle.packet_version.specs.Splitting.{PlainApart};
ghost use Rattle.graph_run.specs.Carrying.{as_version, as_branch_end, wrote_at};
ghost use Rattle.graph_run.specs.Running.{profiles_of};
ghost use Rattle.graph_run.specs.Staging.{Holds, IsReady, IsCarried, IsCarriedBy, IsWhatWasWritten, KeepsPacket};

use crate::noted::{Noted, note_down};
use chain_walk::{quiet_functions_keep_to_profiles, values_stay_well_formed};
use merge_ops::Arrival;
use nfp_outside::Gate;
use packet_function::{FlowNote, Function};
use packet_version::{Verdict, Version, unwritten_stays};
use std::alloc::AllocError;
use std::sync::Wait;

/// The outcome of one function on a version: its drop, or the version that goes on, and what the function noted of it.
#[derive(Drop)]
pub struct Acted {
    pub arrival: Arrival,
    /// Only a function that counts notes something. It may be settled once it is known that no function before it
    /// in the chain dropped the packet.
    pub note: Option<FlowNote>,
}

/// Runs one function on a version of a packet: returns the version with what it wrote, or its drop. A function that
/// counts only notes what it sees, and doesn't change.
#[inline(always)]
pub fn step_on<F: Function, R: Wait>(
    rt: &R,
    function: &mut F,
    version: Version,
    position: u32,
) -> Result<Acted, AllocError>
    requires position { 1 ≤ position }
    requires holds { HoldsNamed (F.behaviour.profile function.old) version.touch }
    requires room { (F.behaviour.profile function.old).adds ≡ true → IfSome (version_parts version Field.Tag) (λ tags. length tags.bytes + 4 ≤ tags.room) }
    ensures function { OnOk result (function.new ≡ moved_function (quiet F.behaviour) version.fixed function.old (Live (as_version version))) }
    ensures arrival { IfOk result (λ acted. as_branch_end acted.arrival ≡ moved_end (quiet F.behaviour) version.fixed position function.old (Live (as_version version))) }
    ensures written { IfOk result (λ acted. IsWhatWasWritten position (stepped (quiet F.behaviour) version.fixed function.old (as_version version).values).written version acted.arrival) }
    ensures noted { IfOk result (λ acted. acted.note ≡ noted F.behaviour F.notes version.fixed function.old (as_version version).values) }
    // If there is no memory for its step, the function hasn't changed.
    ensures stays { OnErr result (function.new ≡ function.old) }
{
    quiet_functions_keep_to_profiles::<F>();
    let profile = function.profile();
    let mut view = version.view(rt, &profile, position);
    if profile.counts {
        unwritten_stays(&view);
        let note = function.look(&view);
        let version = view.end();
        return Ok(Acted {
            arrival: Arrival::Version(version),
            note,
        });
    }
    let verdict = function.step(&mut view);
    let version = view.end();
    match verdict? {
        Verdict::Pass => Ok(Acted {
            arrival: Arrival::Version(version),
            note: None,
        }),
        Verdict::Drop => Ok(Acted {
            arrival: Arrival::Nil(position),
            note: None,
        }),
    }
}

/// Runs the functions of a branch at these chain positions, one after another on a version of a packet, until one drops
/// it. Each passes the gate before its step. What they note of it is added to the notes of the packet.
#[inline(always)]
pub(crate) fn run_branch<F: Function, G: Gate, R: Wait>(
    rt: &R,
    gate: &G,
    chain: u32,
    number: u32,
    functions: &mut [F],
    positions: &[u32],
    version: Version,
    notes: &mut Vec<Noted>,
) -> Result<Arrival, AllocError>
    requires ready { IsReady (profiles_of F.behaviour functions.old) positions.now version }
    ensures functions { OnOk result (functions.new ≡ (in_turn (quiet F.behaviour) version.fixed positions.now functions.old (Live (as_version version))).functions) }
    ensures arrival { IfOk result (λ arrival. as_branch_end arrival ≡ (in_turn (quiet F.behaviour) version.fixed positions.now functions.old (Live (as_version version))).arrival) }
    ensures kept { IfOk result (KeepsPacket version) }
    // The result may be merged, and has room for the functions that follow.
    ensures carried { (whole : PlainApart) (low high : ℕ) → Holds (profiles_of F.behaviour functions.old) version.touch low high positions.now → IsCarried (profiles_of F.behaviour functions.old) whole version.touch low version →
        IfOk result (IsCarriedBy (profiles_of F.behaviour functions.old) whole version.touch high) }
    ensures noted { OnOk result (notes.new.items ≡ notes.old.items ++ placed positions.now (in_turn_notes (quiet F.behaviour) F.notes version.fixed positions.now functions.old (Live (as_version version)))) }
{
    values_stay_well_formed::<F>();
    quiet_functions_keep_to_profiles::<F>();
    let mut version = version;
    for position in positions {
        gate.pass(rt, chain, *position, number);
        let function = &mut functions[*position as usize - 1];
        let Acted { arrival, note } = step_on(rt, function, version, *position)?;
        note_down(notes, *position, note)?;
        match arrival {
            Arrival::Version(after) => version = after,
            dropped => return Ok(dropped),
        }
    }
    Ok(Arrival::Version(version))
}
