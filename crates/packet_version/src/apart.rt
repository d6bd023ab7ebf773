//! A frame in parts: how it is taken apart, and how it is put together again.

use crate::held::Held;
use crate::rest::Rest;
use chain_walk::Fixed;
use packet_fields::Frame;
use std::alloc::{AllocError, Global};
use std::marker::Model;

/// A packet in parts: one for each field that its frame has, the rest of its bytes, and its fixed
/// values.
#[derive(Drop)]
pub struct Apart {
    pub(crate) held: Held,
    pub(crate) fixed: Fixed,
}

impl Model for Apart {
    ghost use Rattle.packet_fields.specs.Writing.{rest_of};
    ghost use Rattle.packet_version.specs.Parts.{as_map};
    ghost use Rattle.packet_version.specs.Splitting.{PlainApart, IsWhole};

    ghost Value = { PlainApart };

    ghost view = { λ a. record { parts = a.held.parts; rest = rest_of a.held.frame; fixed = a.fixed } };

    ghost invariant = { λ a. IsWhole (as_map a.held.parts) a.held.frame };
}

ghost use Rattle.std.specs.Prelude.{◌≡◌, IfOk};
ghost use Rattle.packet_fields.specs.Writing.{rest_of};
ghost use Rattle.chain_walk.specs.Shown.{fixed_of};
ghost use Rattle.packet_version.specs.Splitting.{packet_parts, split_parts as split_parts_of, taken_apart, joined, IsWhole};

/// Takes a frame of any bytes apart. The parts are unwritten, and the list of tags has room for `taggers` more tags.
/// `time` is when the packet was captured, in nanoseconds.
///
/// Allocates a copy of the frame, and its outline with the places of its parts.
#[inline(always)]
pub fn split(alloc: Global, frame: &[u8], time: u64, taggers: u32) -> Result<Apart, AllocError>
    ensures apart { IfOk result (λ whole. whole ≡ taken_apart taggers time frame.now) }
    ensures parts { IfOk result (λ whole. packet_parts whole ≡ split_parts_of taggers frame.now) }
    ensures rest { IfOk result (λ whole. whole.rest ≡ rest_of frame.now) }
    ensures fixed { IfOk result (λ whole. whole.fixed ≡ fixed_of time frame.now) }

    // There is a part for each field of the frame, and it has the field's length.
    ensures fits { IfOk result (λ whole. IsWhole (packet_parts whole) whole.rest) }

    // Put together again it is the same frame.
    ensures whole { IfOk result (λ whole. joined whole ≡ frame.now) }
{
    let rest = Rest::new(Vec::from_slice(alloc, frame)?);
    let fixed = rest.fixed(time);
    let held = Held::new(alloc, rest, taggers)?;
    Ok(Apart { held, fixed })
}

/// Puts a packet together again: its rest, with each part in its field's place. Allocates memory only if the tags were
/// changed.
#[inline(always)]
pub fn join(alloc: Global, whole: Apart) -> Result<Frame, AllocError>
    ensures { IfOk result (λ frame. frame ≡ joined whole) }
{
    let Apart { held, fixed: _ } = whole;
    Ok(Frame::new(held.join(alloc)?))
}
