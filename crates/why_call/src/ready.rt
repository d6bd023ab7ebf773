//! Reads the policy, and makes its chains ready for packets.
ghost use Rattle.std.specs.Prelude.{◌≡◌, ◌≢◌, ◌⊎◌, IfOk, MatchResult, Some, None};
ghost use Rattle.nfp_outside.specs.declared.slot.Slot.{Slot};
ghost use Rattle.call_ending.specs.Reading.{EndsAtPolicy};
ghost use Rattle.call_ending.specs.Told.{IsReadWhole};
ghost use Rattle.why_call.specs.Reporting.{IsReady};

use call_ending::{Ending, Outcome, read_policy};
use nfp_outside::{Desk, Slot};
use plain_chains::{PlainService, make_plain};
use std::alloc::Global;

/// Reads the policy, and makes its chains ready for packets.
pub fn read_chains<D: Desk>(
    alloc: Global,
    desk: &mut D,
    policy: &str,
) -> Result<PlainService, Ending>
    requires { (D.slots desk.old Slot.Policy).name ≡ None }
    ensures ready { MatchResult result
        (IsReady (D.slots desk.old Slot.Policy))
        (EndsAtPolicy (D.slots desk.old Slot.Policy) (D.slots desk.new Slot.Policy)) }
    ensures whole { IfOk result (λ chains. IsReadWhole (D.slots desk.new Slot.Policy)) }
    ensures name { ((D.slots desk.new Slot.Policy).name ≡ None) ⊎ ((D.slots desk.new Slot.Policy).name ≡ Some policy.now) }
    ensures others { (s : Slot) → s ≢ Slot.Policy → D.slots desk.new s ≡ D.slots desk.old s }
{
    let judged = match read_policy(alloc, desk, policy) {
        Ok(judged) => judged,
        Err(ending) => return Err(ending),
    };
    match make_plain(alloc, judged) {
        Ok(service) => Ok(service),
        Err(_) => Err(Ending::Stopped(Outcome::OutOfMemory)),
    }
}
