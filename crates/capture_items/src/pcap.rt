//! Classic captures: records, and nothing besides.
ghost use Rattle.std.specs.Prelude.{not};
ghost use Rattle.capture_items.specs.Formats.{pcap_left, pcap_spelled};
ghost use Rattle.capture_items.specs.Streams.{IsDrained};

use crate::fault::{FormatFault, SourceFault};
use crate::given::Given;
use crate::sink::Sink;
use crate::source::Source;
use capture_bytes::PcapRecord;
use nfp_outside::{Desk, OutsideFault};
use pcap_io::{PcapFault, Reader, Writer};
use std::alloc::Global;

/// The type of a block that isn't a packet: a classic capture has none, and none is written.
#[derive(Clone, Copy, Debug, PartialEq, Eq)]
pub struct NoBlock;

impl Source<(), NoBlock> for Reader {
    ghost left = { pcap_left };

    ghost packets = { λ r. r.given };

    ghost taken = { λ r. r.given };

    ghost is_open = { λ r. not r.spent };

    ghost is_drained = { IsDrained };

    #[tactic(auto, using(crate::proofs::Draining::pcap_at_end))]
    fn next<D: Desk>(
        &mut self,
        alloc: Global,
        desk: &mut D,
    ) -> Result<Option<Given<(), NoBlock>>, SourceFault> {
        match self.next(alloc, desk) {
            Ok(Some(packet)) => Ok(Some(Given::Packet(packet, ()))),
            Ok(None) => Ok(None),
            Err(PcapFault::Capture(fault)) => Err(SourceFault::Format(FormatFault::Pcap(fault))),
            Err(PcapFault::ReadFault(_)) => Err(SourceFault::ReadFault),
            Err(PcapFault::OutOfMemory) => Err(SourceFault::OutOfMemory),
        }
    }
}

impl Sink<(), NoBlock> for Writer {
    ghost spelled = { pcap_spelled };

    fn put<D: Desk>(
        &mut self,
        desk: &mut D,
        packet: &PcapRecord,
        _beside: &(),
    ) -> Result<(), OutsideFault> {
        self.put(desk, packet)
    }

    fn put_block<D: Desk>(&mut self, _desk: &mut D, _block: &NoBlock) -> Result<(), OutsideFault> {
        Ok(())
    }
}
