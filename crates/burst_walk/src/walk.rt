//! Runs a burst through a service.
ghost use Rattle.std.specs.Prelude.{◌≡◌, ◌≤◌, All, IfOk, IfSome, OnOk, length, map};
ghost use Rattle.chain_service.specs.Opening.{chains_of, fits_of};
ghost use Rattle.burst_walk.specs.Fates.{all_classed, chains_behind, fates_of};
ghost use Rattle.burst_walk.specs.Leading.{IsClassed, IsWritable, LeadsEach, all_ended, records_of};

use crate::lead::lead;
use crate::merging::Merging;
use crate::weave::weave;
use capture_bytes::Unit;
use chain_service::Service;
use chain_walk::Fate;
use classifier::{Burst, class_is_the_first};
use nfp_outside::Gate;
use policy_chains::NamedFunction;
use service_walk::fates_are_woven;
use std::alloc::{AllocError, Global};
use std::rt::Clock;
use std::sync::Wait;
use std::thread::Threads;

/// Runs the packets of a burst through their chains, and returns the fate of each, `None` for a packet that no chain
/// takes.
///
/// If the burst runs on threads, the branches of a stage run side by side, and after them at most as many mergers as
/// `merging` says, which merge the results of the branches in its way. Otherwise the burst runs on the caller's thread.
/// The pace of its chain decides which. The fate of a packet never depends on that. Each step of a function passes the
/// gate first.
pub fn walk_burst<R: Threads + Wait + Clock + Sync, G: Gate + Sync>(
    rt: &R,
    alloc: Global,
    service: Service,
    burst: &Burst,
    unit: Unit,
    merging: Merging,
    gate: &G,
) -> Result<(Service, Vec<Option<Fate>>), AllocError>
    requires few { length burst.now.items ≤ 65536 }
    requires classed { All (IsClassed service.classes) burst.now.items }
    requires told { service.classes ≡ fits_of service.chains }
    ensures classes { IfOk result (λ walked. walked.0.classes ≡ service.classes) }
    ensures led { IfOk result (λ walked. LeadsEach (all_classed (chains_of service.chains).declared unit (records_of burst.now.items)) 0 service.chains walked.0.chains) }
    ensures chains { IfOk result (λ walked. chains_of walked.0.chains ≡ chains_behind (chains_of service.chains) unit (records_of burst.now.items)) }
    ensures fates { IfOk result (λ walked. all_ended burst.now.items walked.1.items ≡ fates_of (chains_of service.chains) unit (records_of burst.now.items)) }
    ensures as_many { IfOk result (λ walked. length walked.1.items ≡ length burst.now.items) }
    ensures writable { IfOk result (λ walked. All (λ o. IfSome o IsWritable) walked.1.items) }
    ensures by_record { OnOk result (map (λ i. i.class) burst.now.items ≡ map (λ x. x.class) (all_classed (chains_of service.chains).declared unit (records_of burst.now.items))) }
{
    class_is_the_first();
    fates_are_woven::<NamedFunction>();
    let Service { classes, chains } = service;
    let (chains, rows) = lead(rt, alloc, chains, burst, unit, merging, gate)?;
    let fates = weave(alloc, burst.items.as_slice(), rows)?;
    Ok((Service { classes, chains }, fates))
}
