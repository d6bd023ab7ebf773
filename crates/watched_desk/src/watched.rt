//! A desk around a desk.

use nfp_outside::{Desk, DeskFault, Slot};

/// Is informed of the calls on a watched desk. It can't change what they do, and nothing is promised of it.
pub trait Watcher {
    /// A slot is about to be given this name.
    fn attaching(&mut self, slot: Slot, name: &str);

    /// These bytes were taken out of a read slot, after those of earlier calls.
    fn passed(&mut self, slot: Slot, bytes: &[u8]);

    /// A piece is about to be put into a write slot.
    fn writing(&mut self, slot: Slot);
}

/// A desk whose calls a watcher is informed of. Its slots are those of the desk inside.
#[derive(Drop)]
pub struct Watched<D, W> {
    desk: D,
    watcher: W,
}

impl<D: Desk, W: Watcher> Watched<D, W> {
    ghost use Rattle.std.specs.Prelude.{◌≡◌};
    ghost use Rattle.nfp_outside.specs.declared.slot.Slot.{Slot};

    /// Puts the desk under this watcher.
    pub fn new(desk: D, watcher: W) -> Self
        ensures { let slots = ⟦<Watched<D, W> as Desk>⟧.slots in
            (s : Slot) → slots result s ≡ D.slots desk s }
    {
        Watched { desk, watcher }
    }

    /// The desk inside and the watcher.
    pub fn into_parts(self) -> (D, W)
        ensures { let slots = ⟦<Watched<D, W> as Desk>⟧.slots in
            (s : Slot) → D.slots result.0 s ≡ slots self s }
    {
        let Watched { desk, watcher } = self;
        (desk, watcher)
    }
}

impl<D: Desk, W: Watcher> Desk for Watched<D, W> {
    ghost slots = { λ w. D.slots w.desk };

    fn attach(&mut self, slot: Slot, name: &str) -> Result<(), DeskFault> {
        self.watcher.attaching(slot, name);
        self.desk.attach(slot, name)
    }

    fn read(&mut self, slot: Slot, into: &mut [u8]) -> Result<usize, DeskFault> {
        match self.desk.read(slot, into) {
            Ok(count) => {
                self.watcher.passed(slot, &into[..count]);
                Ok(count)
            }
            Err(fault) => Err(fault),
        }
    }

    fn write(&mut self, slot: Slot, bytes: &[u8]) -> Result<usize, DeskFault> {
        self.watcher.writing(slot);
        self.desk.write(slot, bytes)
    }
}
