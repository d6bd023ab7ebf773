//! What functions did to a packet, as it is kept.
ghost use Rattle.std.specs.Prelude.{◌≡◌, [], true, false, Some, IfOk, OnOk, if◌then◌else◌, None};
ghost use Rattle.traced_run.specs.Telling.{told, with_act};

use item_list::Items;
use packet_fields::Frame;
use packet_function::DecidingLine;
use std::alloc::{AllocError, Global};

/// What a function did to a packet.
#[derive(Drop)]
pub struct TracedAct {
    /// The lines of its declaration that decided it, in the order of the text.
    pub lines: Items<DecidingLine>,
    pub dropped: bool,
    /// Does the frame behind the function differ from the frame before it? A dropped packet stays as it was.
    pub changed: bool,
    /// `None` unless the frames are kept.
    pub frames: Option<Frames>,
}

/// The whole frame before a function and behind it.
#[derive(Drop)]
pub struct Frames {
    pub before: Frame,
    pub after: Frame,
}

/// What the functions did that a packet reached, in chain order.
#[derive(Drop)]
pub struct Trace {
    /// Are the frames before and behind each function kept?
    pub keeps_frames: bool,
    pub acts: Items<TracedAct>,
}

impl Trace {
    /// A trace without acts so far.
    pub fn new(alloc: Global, keeps_frames: bool) -> Trace
        ensures { result ≡ record { keeps_frames = keeps_frames; acts = [] } }
    {
        Trace {
            keeps_frames,
            acts: Items::new(Vec::new(alloc)),
        }
    }

    /// Removes all acts. Allocates nothing.
    pub fn clear(&mut self, alloc: Global)
        ensures { self.new ≡ record self.old { acts = [] } }
    {
        self.acts = Items::new(Vec::new(alloc));
    }

    /// Adds an act that left the frame as it was.
    pub(crate) fn add_same(
        &mut self,
        alloc: Global,
        lines: Items<DecidingLine>,
        dropped: bool,
        frame: &Frame,
    ) -> Result<(), AllocError>
        ensures { OnOk result (self.new ≡ with_act self.old
            (record { lines = lines; dropped = dropped; before = frame.now; after = frame.now })) }
    {
        let frames = self.frames(alloc, frame, frame)?;
        self.acts.push(TracedAct {
            lines,
            dropped,
            changed: false,
            frames,
        })?;
        Ok(())
    }

    /// Adds an act that passed on a frame. A function that rewrites a frame whole has no lines.
    pub fn add_passed(
        &mut self,
        alloc: Global,
        lines: Items<DecidingLine>,
        before: &Frame,
        after: &Frame,
    ) -> Result<(), AllocError>
        ensures { OnOk result (self.new ≡ with_act self.old
            (record { lines = lines; dropped = false; before = before.now; after = after.now })) }
    {
        let frames = self.frames(alloc, before, after)?;
        self.acts.push(TracedAct {
            lines,
            dropped: false,
            changed: before.bytes() != after.bytes(),
            frames,
        })?;
        Ok(())
    }

    // Both frames once more, if they are kept.
    fn frames(
        &self,
        alloc: Global,
        before: &Frame,
        after: &Frame,
    ) -> Result<Option<Frames>, AllocError>
        ensures { IfOk result (λ frames. frames
            ≡ (if self.now.keeps_frames then Some (record { before = before.now; after = after.now }) else None)) }
    {
        if !self.keeps_frames {
            return Ok(None);
        }
        let before = Frame::new(Vec::from_slice(alloc, before.bytes())?);
        let after = Frame::new(Vec::from_slice(alloc, after.bytes())?);
        Ok(Some(Frames { before, after }))
    }
}
