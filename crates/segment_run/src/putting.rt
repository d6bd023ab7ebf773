//! Puts the fates of packets that went on back among those of all.
ghost use Rattle.std.specs.Prelude.{◌≡◌, ◌≤◌, ◌+◌, List, [], ◌∷◌, ◌++◌, None, All, IfOk, map};
ghost use Rattle.std.specs.Option.{option_to_list};
ghost use Rattle.chain_walk.specs.Walk.{EndsWithin};
ghost use Rattle.chain_walk.specs.declared.walk.Fate.{Fate};
ghost use Rattle.piece_walk.specs.Rejoining.{moved, put_back};
ghost use Rattle.segment_run.specs.Rewriting.{then_put, without_frame};

use chain_walk::Fate;
use packet_fields::Frame;
use std::alloc::{AllocError, Global};
use std::vec::IntoIter;

/// The same fates without frames: only which packets are gone is needed later, so the frames of the others can be moved
/// on.
pub(crate) fn without_frames(alloc: Global, ended: &[Fate]) -> Result<Vec<Fate>, AllocError>
    ensures { IfOk result (λ fates. fates.items ≡ map without_frame ended.now) }
{
    let mut fates = Vec::with_capacity(alloc, ended.len())?;
    'fates: for fate in ended {
        fates.push(without_frame(alloc, fate))?;
    }
    Ok(fates)
}

// The same fate without its frame. An empty frame needs no memory.
fn without_frame(alloc: Global, fate: &Fate) -> Fate
    ensures { result ≡ without_frame fate.now }
{
    match fate {
        Fate::Out(_) => Fate::Out(Frame::new(Vec::new(alloc))),
        Fate::Gone(position) => Fate::Gone(*position),
    }
}

/// The fates of all packets. Those that went on have these later fates, whose positions also count the `before`
/// functions of the pieces before.
pub(crate) fn put_back(
    alloc: Global,
    ended: Vec<Fate>,
    later: Vec<Fate>,
    before: u32,
) -> Result<Vec<Fate>, AllocError>
    requires few { before ≤ 64 }
    requires within { All (EndsWithin 64) later.items }
    ensures { IfOk result (λ all. all.items ≡ put_back ended.items (map (moved before) later.items)) }
{
    let mut all = Vec::with_capacity(alloc, ended.len())?;
    let mut later = later.into_iter();
    'fates: for fate in ended {
        match put_next(fate, &mut later, before) {
            Some(fate) => all.push(fate)?,
            None => return Ok(all),
        }
    }
    Ok(all)
}

// The fate of a packet that had this fate before, or went on.
fn put_next(fate: Fate, later: &mut IntoIter<Fate>, before: u32) -> Option<Fate>
    requires few { before ≤ 64 }
    requires within { All (EndsWithin 64) later.old.rest.items }
    ensures put { (rest : List Fate) → put_back (fate ∷ rest) (map (moved before) later.old.rest.items) ≡ then_put result (put_back rest (map (moved before) later.new.rest.items)) }
    ensures within { All (EndsWithin 64) later.new.rest.items }
{
    match fate {
        Fate::Out(_) => next_moved(later, before),
        Fate::Gone(position) => Some(Fate::Gone(position)),
    }
}

// The next of these fates, which is removed from the front, after `before` functions.
fn next_moved(later: &mut IntoIter<Fate>, before: u32) -> Option<Fate>
    requires few { before ≤ 64 }
    requires within { All (EndsWithin 64) later.old.rest.items }
    ensures next { map (moved before) later.old.rest.items ≡ option_to_list result ++ map (moved before) later.new.rest.items }
    ensures ends { result ≡ None → later.old.rest.items ≡ [] }
    ensures within { All (EndsWithin 64) later.new.rest.items }
{
    match later.next() {
        Some(fate) => Some(move_fate(fate, before)),
        None => None,
    }
}

// The same fate, after `before` functions.
fn move_fate(fate: Fate, before: u32) -> Fate
    requires few { before ≤ 64 }
    requires within { EndsWithin 64 fate }
    ensures { result ≡ moved before fate }
{
    match fate {
        Fate::Out(frame) => Fate::Out(frame),
        Fate::Gone(position) => Fate::Gone(before + position),
    }
}
