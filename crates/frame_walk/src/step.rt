//! One function on a whole frame.
ghost use Rattle.std.specs.Prelude.{◌≡◌, ◌∷◌, [], if◌then◌else◌, IfOk, OnOk, OnErr};
ghost use Rattle.packet_fields.specs.Writing.{written};
ghost use Rattle.packet_fields.specs.declared.field.Field.{Field};
ghost use Rattle.action_profile.specs.Modes.{mode_of, modes_of};
ghost use Rattle.action_profile.specs.declared.parts.Touch.{Touch};
ghost use Rattle.packet_version.specs.Splitting.{PlainApart};
ghost use Rattle.packet_version.specs.Versions.{HoldsNamed};
ghost use Rattle.chain_walk.specs.Walk.{applied};
ghost use Rattle.frame_walk.specs.Stopping.{handed_on, MayHaveSeen};
ghost use Rattle.merge_ops.specs.Behind.{AreArrivals, AreFrom, value_behind};
ghost use Rattle.merge_ops.specs.declared.arrival.Arrival.TheVariants.{Version as of_version};

use crate::acting::act;
use action_profile::{Mode, Profile, StageParts, Touch};
use chain_walk::step_is_put_together;
use item_list::Items;
use merge_ops::{Arrival, Merged, last_writer_is_greatest, merge, merged_is_written_last};
use packet_fields::{Field, Frame};
use packet_function::Function;
use packet_version::{
    Base, Tally, Verdict, Version, deal, dealt_is_read, join, later_write_stands_over, split,
    view_is_formed,
};
use std::alloc::{AllocError, Global};
use std::sync::Wait;

/// Lets a function act on a packet, captured at `time` in nanoseconds, and returns the frame that it passes on, or
/// `None` if it drops the packet.
///
/// The only error is that memory runs out. The function is then as before, or it had passed the packet on and is as
/// that left it.
pub fn step_frame<F: Function, R: Wait>(
    rt: &R,
    alloc: Global,
    function: &mut F,
    time: u64,
    frame: &Frame,
) -> Result<Option<Frame>, AllocError>
    ensures after { OnOk result (function.new ≡ (applied F.behaviour time function.old frame.now).after) }
    ensures frame { IfOk result (λ out. out ≡ handed_on F.behaviour time function.old frame.now) }
    ensures refused { OnErr result (MayHaveSeen F.behaviour time function.old frame.now function.new) }
{
    step_is_put_together::<F>();
    dealt_is_read();
    later_write_stands_over();
    last_writer_is_greatest();
    let profile = function.profile();
    let touch = touch_of(&profile);
    let stage = StageParts {
        modes: modes(touch),
        touches: Items::new(Vec::from_array(alloc, [touch])?),
    };
    let whole = split(alloc, frame.bytes(), time, adders(&profile))?;
    let (base, mut versions) = deal(alloc, whole, &stage, &mut Tally::new())?;
    let Some(version) = versions.pop() else {
        return Err(AllocError);
    };
    let mut view = version.view(rt, &profile, 1);
    view_is_formed(&view);
    let verdict = act(function, &mut view);
    let version = view.end();
    match verdict? {
        Verdict::Drop => Ok(None),
        Verdict::Pass => Ok(Some(put_together(rt, alloc, base, version)?)),
    }
}

/// The number of tags that a function with this profile may add.
fn adders(profile: &Profile) -> u32
    ensures { result ≡ (if profile.now.adds then 1 else 0) }
{
    u32::from(profile.adds)
}

/// What a function with this profile touches.
pub fn touch_of(profile: &Profile) -> Touch
    ensures { HoldsNamed profile.now result }
{
    Touch {
        reads: profile.read_set(),
        writes: profile.write_set(),
    }
}

/// How a stage with this one branch passes on the fields.
pub fn modes(touch: Touch) -> [Mode; 10]
    ensures { result ≡ modes_of (touch ∷ []) }
{
    [
        mode(touch, Field::LinkDst),
        mode(touch, Field::LinkSrc),
        mode(touch, Field::Tag),
        mode(touch, Field::Tos),
        mode(touch, Field::Ttl),
        mode(touch, Field::SrcIp),
        mode(touch, Field::DstIp),
        mode(touch, Field::SrcPort),
        mode(touch, Field::DstPort),
        mode(touch, Field::Payload),
    ]
}

/// The mode of a field: moved if the branch writes it, and shared otherwise.
fn mode(touch: Touch, field: Field) -> Mode
    ensures { result ≡ mode_of (touch ∷ []) field }
{
    if touch.writes.has(field) {
        Mode::Moved(0)
    } else {
        Mode::Shared
    }
}

/// The frame with what came from the only branch of a stage.
fn put_together<R: Wait>(
    rt: &R,
    alloc: Global,
    base: Base,
    version: Version,
) -> Result<Frame, AllocError>
    requires { AreArrivals base (of_version version ∷ []) }
    ensures { (whole : PlainApart) (touch : Touch) → AreFrom whole (touch ∷ []) base (of_version version ∷ []) → IfOk result (λ frame. frame ≡ written (value_behind whole (of_version version ∷ [])) whole.rest) }
{
    merged_is_written_last();
    let mut arrivals = Vec::from_array(alloc, [Arrival::Version(version)])?;
    match merge(rt, base, &mut arrivals) {
        Merged::Whole(whole) => join(alloc, whole),
        _ => Err(AllocError),
    }
}
