// How often a slot was called, and how often it failed.
ghost use Rattle.std.specs.Prelude.{◌≡◌, ◌≤◌, if◌then◌else◌, Ok, Err, IsErrOf};
ghost use Rattle.nfp_outside.specs.Outside.{one_more, CountsFailure, IsRisen};

use crate::slot::DeskFault;

/// The number of calls on a slot so far, counted apart for those that failed. Both counts stay at the maximum of their
/// type once they reach it.
#[derive(Clone, Copy, Debug)]
pub struct CallCounts {
    pub calls: u64,
    pub faults: u64,
}

impl CallCounts {
    pub fn new() -> Self
        ensures calls { result.calls ≡ 0 }
        ensures faults { result.faults ≡ 0 }
    {
        CallCounts {
            calls: 0,
            faults: 0,
        }
    }

    // Counts a call, and returns `Failed` if `fails` is set.
    pub fn count(&mut self, fails: bool) -> Result<(), DeskFault>
        ensures answer { result ≡ (if fails then Err DeskFault.Failed else Ok tt) }
        ensures calls { self.new.calls ≡ one_more self.old.calls }
        ensures faults { CountsFailure self.old.faults self.new.faults result }
        ensures later { self.old.faults ≤ self.new.faults }
        ensures risen { IsErrOf result DeskFault.Failed → IsRisen self.old.faults self.new.faults }
    {
        self.calls = self.calls.saturating_add(1);
        if fails {
            self.faults = self.faults.saturating_add(1);
            return Err(DeskFault::Failed);
        }
        Ok(())
    }
}
