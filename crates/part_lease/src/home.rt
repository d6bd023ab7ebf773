//! The home of a shared value: a slot that holds this value or nothing.
ghost use Rattle.std.specs.Prelude.{◌≡◌, IfOk, IfSome};
ghost use Rattle.std.specs.Arc.{arc_value};

use counted_slot::{Counted, FREE, Fits, MOST_READERS, ONE_READER, PRESENT, TAKEN};
use crossbeam_utils::Backoff;
use std::alloc::{AllocError, Global};
use std::snapshot::Snapshot;
use std::sync::{Arc, Wait};

/// The state of a slot is in the two low bits of its word, and the number of readers in the next thirty.
const STATES: u64 = 4;

const READERS: u64 = 0x1_0000_0000;

/// A value at home. It is the one for which the slot was made.
#[derive(Drop)]
pub struct Home<T> {
    part: Arc<T>,
}

impl<T> Fits for Home<T> {
    type Tag = Snapshot<T>;

    ghost fits = { λ tag x. arc_value x.part ≡ tag.value };
}

pub type Slot<T> = Counted<Option<Home<T>>>;

/// A slot that is made for `value` and is empty.
pub fn vacant_slot<T: Drop>(alloc: Global, value: &T) -> Result<Arc<Slot<T>>, AllocError>
    ensures { IfOk result (λ s. (arc_value s).value ≡ value.now) }
{
    let shared = Snapshot::of(value);
    Ok(Arc::new(alloc, Counted::new(None, &shared))?)
}

/// Puts the value into its slot.
pub fn come_home<T: Drop>(slot: &Slot<T>, part: Arc<T>)
    requires { arc_value part ≡ slot.now.value }
{
    let (found, claim) = slot.turn(FREE, TAKEN);
    if found == FREE {
        let _ = claim.put(Some(Home { part }), PRESENT);
    } else {
        claim.done();
    }
}

/// Waits until the value is at home, and returns one more holder of it.
pub fn seen_at_home<T: Drop, R: Wait>(rt: &R, slot: &Slot<T>) -> Arc<T>
    ensures { arc_value result ≡ slot.now.value }
{
    let backoff = Backoff::new();
    for _ in rt.forever() {
        if let Some(part) = try_see(slot) {
            return part;
        }
        backoff.snooze();
    }
    unreachable!()
}

/// Waits until the value is at home and no reader has it, and takes it out.
pub fn taken_from_home<T: Drop, R: Wait>(rt: &R, slot: &Slot<T>) -> Arc<T>
    ensures { arc_value result ≡ slot.now.value }
{
    let backoff = Backoff::new();
    for _ in rt.forever() {
        if let Some(part) = try_take(slot) {
            return part;
        }
        backoff.snooze();
    }
    unreachable!()
}

// A reader is in the slot only while it counts one more holder of the value. The holder outlives the borrow of the
// slot.
fn try_see<T: Drop>(slot: &Slot<T>) -> Option<Arc<T>>
    ensures { IfSome result (λ p. arc_value p ≡ slot.now.value) }
{
    let seen = slot.load();
    if seen % STATES != PRESENT || seen % READERS / STATES >= MOST_READERS {
        return None;
    }
    let (found, claim) = slot.turn(seen, seen + ONE_READER);
    if found != seen {
        claim.done();
        return None;
    }
    let shown = match claim.get() {
        Some(home) => Arc::try_clone(&home.part).ok(),
        None => None,
    };
    claim.leave();
    shown
}

fn try_take<T: Drop>(slot: &Slot<T>) -> Option<Arc<T>>
    ensures { IfSome result (λ p. arc_value p ≡ slot.now.value) }
{
    let seen = slot.load();
    if seen % STATES != PRESENT || seen % READERS / STATES != 0 {
        return None;
    }
    let (found, claim) = slot.turn(seen, TAKEN);
    if found != seen {
        claim.done();
        return None;
    }
    let home = claim.put(None, FREE)?;
    Some(home.part)
}
