//! The rights on a shared value: to get it back, to read it, and the claim of one reading.
ghost use Rattle.std.specs.Prelude.{◌≡◌, ◌<◌, ◌≤◌, IfOk, IfErr, All, length, alloc_error};
ghost use Rattle.std.specs.Arc.{arc_value};

use crate::home::{Slot, come_home, seen_at_home, taken_from_home, vacant_slot};
use crossbeam_utils::Backoff;
use std::alloc::{AllocError, Global};
use std::marker::Model;
use std::sync::{Arc, Wait};

/// The right to get the value back. A contract sees the value that was shared.
#[derive(Drop)]
pub struct Owner<T> {
    slot: Arc<Slot<T>>,
}

impl<T> Model for Owner<T> {
    ghost Value = { T };

    ghost view = { λ o. (arc_value o.slot).value };
}

/// The right to read the value. A contract sees the value that was shared.
#[derive(Drop)]
pub struct Reader<T> {
    slot: Arc<Slot<T>>,
}

impl<T> Model for Reader<T> {
    ghost Value = { T };

    ghost view = { λ r. (arc_value r.slot).value };
}

/// A claim on the value: while it exists, the value can be read and its owner waits. It can't be dropped, and is given
/// back by [`Shown::done`]. A contract sees the value that was shared.
pub struct Shown<T> {
    slot: Arc<Slot<T>>,
    part: Arc<T>,
}

impl<T> Model for Shown<T> {
    ghost Value = { T };

    ghost view = { λ s. (arc_value s.slot).value };

    ghost invariant = { λ s. arc_value s.part ≡ (arc_value s.slot).value };
}

/// Out of memory while sharing this value, which is returned.
#[derive(Drop)]
pub struct ShareFault<T> {
    pub value: T,
}

impl<T: Drop> From<ShareFault<T>> for AllocError {
    ghost from_gives = { λ _ e. e ≡ alloc_error };

    fn from(_: ShareFault<T>) -> Self {
        AllocError
    }
}

/// Shares a value with `readers` readers, at most 64. Its owner and each of its readers see this value. The only error
/// is that memory runs out, and it returns the value.
pub fn share<T: Drop>(
    alloc: Global,
    value: T,
    readers: u32,
) -> Result<(Owner<T>, Vec<Reader<T>>), ShareFault<T>>
    requires some { 0 < readers }
    requires few { readers ≤ 64 }
    ensures owner { IfOk result (λ s. s.0 ≡ value) }
    ensures count { IfOk result (λ s. length s.1.items ≡ readers) }
    ensures readers { IfOk result (λ s. All (λ r. r ≡ value) s.1.items) }
    ensures refused { IfErr result (λ e. e.value ≡ value) }
{
    let Ok(slot) = vacant_slot(alloc, &value) else {
        return Err(ShareFault { value });
    };
    let Ok(made) = make_readers(alloc, &slot, readers) else {
        return Err(ShareFault { value });
    };
    match filled(alloc, slot, value) {
        Ok(owner) => Ok((owner, made)),
        Err(fault) => Err(fault),
    }
}

/// Shares a value with no reader yet: [`Owner::reader`] gives out the rights to read it, one by one. Its owner sees
/// this value. The only error is that memory runs out, and it returns the value.
pub fn lend<T: Drop>(alloc: Global, value: T) -> Result<Owner<T>, ShareFault<T>>
    ensures owner { IfOk result (λ owner. owner ≡ value) }
    ensures refused { IfErr result (λ e. e.value ≡ value) }
{
    match vacant_slot(alloc, &value) {
        Ok(slot) => filled(alloc, slot, value),
        Err(_) => Err(ShareFault { value }),
    }
}

/// Puts the value into the slot that was made for it.
fn filled<T: Drop>(alloc: Global, slot: Arc<Slot<T>>, value: T) -> Result<Owner<T>, ShareFault<T>>
    requires { (arc_value slot).value ≡ value }
    ensures owner { IfOk result (λ owner. owner ≡ value) }
    ensures refused { IfErr result (λ e. e.value ≡ value) }
{
    match Arc::new(alloc, value) {
        Ok(part) => {
            come_home(&slot, part);
            Ok(Owner { slot })
        }
        Err(failed) => Err(ShareFault {
            value: failed.value,
        }),
    }
}

fn make_readers<T: Drop>(
    alloc: Global,
    slot: &Arc<Slot<T>>,
    count: u32,
) -> Result<Vec<Reader<T>>, AllocError>
    ensures count { IfOk result (λ v. length v.items ≡ count) }
    ensures all { IfOk result (λ v. All (λ r. r ≡ (arc_value slot.now).value) v.items) }
{
    let mut made = Vec::new(alloc);
    for _i in 0..count {
        made.push(Reader {
            slot: Arc::try_clone(slot)?,
        })?;
    }
    Ok(made)
}

impl<T: Drop> Reader<T> {
    /// Waits for a claim on the value. It allocates nothing.
    pub fn read<R: Wait>(self, rt: &R) -> Shown<T>
        ensures { result ≡ self }
    {
        let Reader { slot } = self;
        let part = seen_at_home(rt, &slot);
        Shown { slot, part }
    }
}

impl<T: Drop> Shown<T> {
    /// The value that was shared.
    pub fn part(&self) -> &T
        ensures { result.now ≡ self.now }
    {
        &self.part
    }

    /// Gives the claim back. The reader may read again.
    pub fn done(self) -> Reader<T>
        ensures { result ≡ self }
    {
        let Shown { slot, part: _ } = self;
        Reader { slot }
    }
}

impl<T: Drop> Owner<T> {
    /// One more right to read the value. It allocates nothing, and fails only if so many rights exist that they can't
    /// be counted any more.
    pub fn reader(&self) -> Result<Reader<T>, AllocError>
        ensures { IfOk result (λ reader. reader ≡ self.now) }
    {
        Ok(Reader {
            slot: Arc::try_clone(&self.slot)?,
        })
    }

    /// Waits until no claim exists, and returns the value that was shared. It allocates nothing.
    pub fn take<R: Wait>(self, rt: &R) -> T
        ensures { result ≡ self }
    {
        let Owner { slot } = self;
        let mut part = taken_from_home(rt, &slot);
        let backoff = Backoff::new();
        for _ in rt.forever() {
            match Arc::try_unwrap(part) {
                Ok(value) => return value,
                Err(held) => part = held,
            }
            backoff.snooze();
        }
        unreachable!()
    }
}
