//! Attaches the slots that are written, and puts the head of a capture into Out.
ghost use Rattle.std.specs.Prelude.{◌≡◌, ◌≢◌, [], IfErr, IfOk, OnOk, IsSome};
ghost use Rattle.nfp_outside.specs.declared.slot.Slot.{Slot};
ghost use Rattle.pcap_io.specs.Written.{head_bytes};
ghost use Rattle.capture_run.specs.ChainServiceProofs.{chains_of};
ghost use Rattle.capture_items.specs.Slots.{Puts, Breaks, fault_seen};
ghost use Rattle.nfp_run.specs.Heads.{written_head};

use crate::head::written_head;
use capture_items::RunFault;
use capture_run::Service;
use nfp_outside::{Desk, OutsideFault, Slot};
use pcap_io::{CaptureHead, Writer};

/// Puts the head of the written capture into Out, for a capture with this head that runs through the chains.
pub fn put_head<D: Desk>(
    desk: &mut D,
    head: &CaptureHead,
    service: &Service,
) -> Result<Writer, RunFault>
    requires { IsSome (D.slots desk.old Slot.Out).name }
    ensures ok { OnOk result (Puts (head_bytes (written_head (chains_of service.now.chains) head.now)) [] (D.slots desk.old) (D.slots desk.new)) }
    ensures err { IfErr result (Breaks (head_bytes (written_head (chains_of service.now.chains) head.now)) [] (D.slots desk.old) (D.slots desk.new)) }
    ensures order { IfOk result (λ writer. writer ≡ head.now.order) }
    ensures others { (s : Slot) → s ≢ Slot.Out → D.slots desk.new s ≡ D.slots desk.old s }
{
    match Writer::begin(desk, &written_head(head, service)) {
        Ok(writer) => Ok(writer),
        Err(fault) => Err(fault_of(fault)),
    }
}

/// The fault of a run after writing Out failed.
pub fn fault_of(fault: OutsideFault) -> RunFault
    ensures { result ≡ fault_seen Slot.Out fault }
{
    match fault {
        OutsideFault::WriteFault(_) => RunFault::WriteFault(Slot::Out),
        _ => RunFault::OutOfMemory,
    }
}
