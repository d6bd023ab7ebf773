//! The records of a demo, as a source.
ghost use Rattle.std.specs.Prelude.{◌≡◌, Some, true, ⊤};
ghost use Rattle.demo_capture.specs.DemoCapture.{demo_records, whole_body};
ghost use Rattle.capture_items.specs.Formats.{pcap_stream};

use capture_items::{Given, NoBlock, Source, SourceFault};
use command_words::DemoInput;
use demo_capture::DemoRecords;
use nfp_outside::Desk;
use std::alloc::Global;

/// The records of a demo. They are generated, whatever the slot Capture holds.
#[derive(Drop)]
pub struct DemoSource {
    pub records: DemoRecords,
}

impl DemoSource {
    /// The records of this seed and count, from the first on.
    pub fn new(input: DemoInput) -> DemoSource
        ensures given { result.records.given ≡ 0 }
        ensures records { result.records.records ≡ demo_records input.seed input.count }
    {
        DemoSource {
            records: DemoRecords::new(input.seed, input.count),
        }
    }
}

impl Source<(), NoBlock> for DemoSource {
    ghost left = { λ source slot. Some (pcap_stream (whole_body source.records.records)) };

    ghost packets = { λ source. source.records.given };

    ghost taken = { λ source. source.records.given };

    ghost is_open = { λ source. true };

    ghost is_drained = { λ slot. ⊤ };

    fn next<D: Desk>(
        &mut self,
        alloc: Global,
        _desk: &mut D,
    ) -> Result<Option<Given<(), NoBlock>>, SourceFault> {
        match self.records.next(alloc) {
            Ok(Some(packet)) => Ok(Some(Given::Packet(packet, ()))),
            Ok(None) => Ok(None),
            Err(_) => Err(SourceFault::OutOfMemory),
        }
    }
}
