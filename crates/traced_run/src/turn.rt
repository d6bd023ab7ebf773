//! One function's turn.
ghost use Rattle.std.specs.Prelude.{◌≡◌, ◌++◌, false, IfOk, OnOk};
ghost use Rattle.packet_fields.specs.declared.field.Field.{Field};
ghost use Rattle.action_profile.specs.Profiles.{writes_of};
ghost use Rattle.packet_version.specs.Parts.{values_of};
ghost use Rattle.packet_version.specs.Versions.{HoldsNamed, version_parts};
ghost use Rattle.chain_walk.specs.Shown.{fixed_of};
ghost use Rattle.chain_walk.specs.Step.{stepped};
ghost use Rattle.packet_fields.specs.Writing.{fields_of};
ghost use Rattle.packet_function.specs.Deciding.{decided};
ghost use Rattle.traced_run.specs.Turning.{IsParted, IsTurned};

use crate::acts::Trace;
use action_profile::{FieldSet, Profile};
use chain_walk::step_is_put_together;
use frame_walk::{act, modes, step_frame, touch_of};
use item_list::Items;
use packet_fields::Frame;
use packet_function::{DecidingLine, Function};
use packet_version::{
    Apart, Tally, Verdict, Version, deal_whole, dealt_is_read, frames_come_apart, split,
    unwritten_stays,
};
use std::alloc::{AllocError, Global};
use std::sync::Wait;

/// A packet on its way: when it was captured, in nanoseconds, its frame, and the same frame in parts, with room for one
/// more tag.
#[derive(Drop)]
pub struct Parted {
    pub time: u64,
    pub frame: Frame,
    pub whole: Apart,
}

/// Lets a function act on a packet, adds what it did to `trace`, and returns the packet that it passes on, or `None` if
/// it drops the packet. The only error is that memory runs out.
pub(crate) fn turn<F: Function, R: Wait>(
    rt: &R,
    alloc: Global,
    function: &mut F,
    packet: Parted,
    trace: &mut Trace,
) -> Result<Option<Parted>, AllocError>
    requires { IsParted packet }
    ensures { IfOk result (λ left. IsTurned F.behaviour
        (decided F.behaviour F.decides (fixed_of packet.time packet.frame) function.old (fields_of packet.frame))
        packet.time packet.frame function.old function.new left trace.old trace.new) }
{
    dealt_is_read();
    frames_come_apart();
    step_is_put_together::<F>();
    let profile = function.profile();
    let touch = touch_of(&profile);
    let Parted { time, frame, whole } = packet;
    let version = deal_whole(alloc, whole, touch, &modes(touch), &mut Tally::new())?;
    let mut lines = Vec::new(alloc);
    let version = decide(rt, function, &profile, version, &mut lines)?;
    let lines = Items::new(lines);
    if touch.writes != FieldSet::NONE {
        return step(rt, alloc, function, time, frame, lines, trace);
    }
    let (verdict, version) = look(rt, function, &profile, version)?;
    let whole = version.rejoin();
    match verdict {
        Verdict::Drop => {
            trace.add_same(alloc, lines, true, &frame)?;
            Ok(None)
        }
        Verdict::Pass => {
            trace.add_same(alloc, lines, false, &frame)?;
            Ok(Some(Parted { time, frame, whole }))
        }
    }
}

/// Adds the lines that decide what a function does to a version. Returns the version as it was.
fn decide<F: Function, R: Wait>(
    rt: &R,
    function: &F,
    profile: &Profile,
    version: Version,
    lines: &mut Vec<DecidingLine>,
) -> Result<Version, AllocError>
    requires profile { profile.now ≡ F.behaviour.profile function.now }
    requires holds { HoldsNamed profile.now version.touch }
    ensures lines { OnOk result (lines.new.items ≡ lines.old.items
        ++ decided F.behaviour F.decides version.fixed function.now (values_of (version_parts version))) }
    ensures version { IfOk result (λ left. left ≡ version) }
{
    let view = version.view(rt, profile, 1);
    let told = function.decide(&view, lines);
    let version = view.end();
    told?;
    Ok(version)
}

/// Lets a function act that writes nothing. Returns the version as it was.
fn look<F: Function, R: Wait>(
    rt: &R,
    function: &mut F,
    profile: &Profile,
    version: Version,
) -> Result<(Verdict, Version), AllocError>
    requires profile { profile.now ≡ F.behaviour.profile function.old }
    requires holds { HoldsNamed profile.now version.touch }
    requires silent { (x : Field) → writes_of profile.now x ≡ false }
    ensures after { OnOk result (function.new
        ≡ (stepped F.behaviour version.fixed function.old (values_of (version_parts version))).after) }
    ensures verdict { IfOk result (λ left. left.0
        ≡ (stepped F.behaviour version.fixed function.old (values_of (version_parts version))).verdict) }
    ensures version { IfOk result (λ left. left.1 ≡ version) }
{
    let mut view = version.view(rt, profile, 1);
    unwritten_stays(&view);
    let verdict = act(function, &mut view);
    let version = view.end();
    Ok((verdict?, version))
}

/// Lets a function act on the whole frame, whose step these lines decide.
fn step<F: Function, R: Wait>(
    rt: &R,
    alloc: Global,
    function: &mut F,
    time: u64,
    frame: Frame,
    lines: Items<DecidingLine>,
    trace: &mut Trace,
) -> Result<Option<Parted>, AllocError>
    ensures { IfOk result (λ left. IsTurned F.behaviour lines time frame function.old function.new left trace.old trace.new) }
{
    let Some(next) = step_frame(rt, alloc, function, time, &frame)? else {
        trace.add_same(alloc, lines, true, &frame)?;
        return Ok(None);
    };
    trace.add_passed(alloc, lines, &frame, &next)?;
    let whole = split(alloc, next.bytes(), time, 1)?;
    Ok(Some(Parted {
        time,
        frame: next,
        whole,
    }))
}
