//! A frame is taken apart and joined, and a part of a version of it is copied.
ghost use Rattle.std.specs.Prelude.{◌≡◌, ◌∷◌, []};
ghost use Rattle.action_profile.specs.Modes.{modes_of};
ghost use Rattle.action_profile.specs.Profiles.{profile_of};
ghost use Rattle.action_profile.specs.declared.kind.Kind.{Kind};

use crate::plenty::had;
use action_profile::{FieldSet, Mode, StageParts, Touch};
use fixtures::UDP;
use item_list::Items;
use packet_fields::Field;
use packet_version::{Tally, Version, copy, deal, join, split};
use std::alloc::Global;
use std::process::Abort;
use std::thread;

/// Is a frame the same after it is taken apart and joined?
fn comes_back(rt: &impl Abort, alloc: Global, frame: &[u8], number: u32) -> bool {
    let apart = had(rt, split(alloc, frame, 7, number));
    had(rt, join(alloc, apart)).bytes() == frame
}

#[test]
fn comes_apart_and_together(rt: HostRuntime) {
    assert!(rt; comes_back(&rt, rt.alloc(), &UDP[..13], 2));
    assert!(rt; comes_back(&rt, rt.alloc(), &UDP, 0));
}

/// Reads and writes both addresses and both ports.
const TRANSLATES: Touch = Touch {
    reads: FieldSet::ENDPOINTS,
    writes: FieldSet::ENDPOINTS,
};

/// A stage with one branch, to which these fields are moved.
fn stage(rt: &impl Abort, alloc: Global) -> StageParts
    ensures modes { result.modes ≡ modes_of result.touches }
    ensures touches { result.touches ≡ record { reads = (profile_of Kind.Nat).reads; writes = (profile_of Kind.Nat).writes } ∷ [] }
{
    let moved = Mode::Moved(0);
    let shared = Mode::Shared;
    StageParts {
        modes: [
            shared, shared, shared, shared, shared, moved, moved, moved, moved, shared,
        ],
        touches: Items::new(had(rt, Vec::from_array(alloc, [TRANSLATES]))),
    }
}

/// A packet as the branch of a nat gets it.
fn dealt(rt: &impl Abort, alloc: Global, tally: &mut Tally) -> Version
    ensures { result.touch ≡ record { reads = (profile_of Kind.Nat).reads; writes = (profile_of Kind.Nat).writes } }
{
    let stage = stage(rt, alloc);
    let whole = had(rt, split(alloc, &UDP, 7, 0));
    let (_base, mut versions) = had(rt, deal(alloc, whole, &stage, tally));
    versions.pop().expect(rt, "one branch")
}

#[test]
fn copies_one_field(rt: HostRuntime) {
    let mut tally = Tally::new();
    let mut version = dealt(&rt, rt.alloc(), &mut tally);
    let part = version.take(Field::SrcIp).expect(&rt, "the source");
    let made = had(&rt, copy(rt.alloc(), &part, Field::SrcIp, &mut tally));
    let is_counted = tally.of(Field::SrcIp) == 1 && tally.of(Field::DstIp) == 0;
    assert!(rt; is_counted && made.bytes() == part.bytes());
}

#[test]
fn goes_to_other_threads(rt: HostRuntime) {
    let version = dealt(&rt, rt.alloc(), &mut Tally::new());
    let whole = had(&rt, split(rt.alloc(), &UDP, 7, 0));
    let (writer, back) = thread::join(&rt, move || version.writer(Field::DstIp), move || whole);
    let joined = had(&rt, join(rt.alloc(), back));
    assert!(rt; writer == 0 && joined.bytes() == UDP.as_slice());
}
