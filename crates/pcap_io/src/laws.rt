//! What ties the reading of captures to their writing.
ghost use Rattle.std.specs.Prelude.{◌≡◌, ℕ, List, Ok, Option};
ghost use Rattle.pcap_io.specs.declared.capture.CaptureFault.{CaptureFault};
ghost use Rattle.pcap_io.specs.declared.capture.CaptureHead.{CaptureHead};
ghost use Rattle.capture_bytes.specs.declared.order.Endian.{Endian};
ghost use Rattle.capture_bytes.specs.declared.packet.PcapRecord.{PcapRecord};
ghost use Rattle.pcap_io.specs.Capture.{Body, body_of, capture_of, IsBody};
ghost use Rattle.pcap_io.specs.Written.{IsBytes, IsCapture};

/// If a text is read as a head and records, then it is these as they are written, and a tail: empty if reading reached
/// the end, else the bytes at which the fault was found.
pub fn read_is_written()
    ensures { (bytes : List ℕ) (head : CaptureHead) (body : Body) → IsBytes bytes → capture_of bytes ≡ Ok (head, body) → IsCapture bytes head body }
{}

/// A head and records that are written are read again, in either order and unit and with any tail.
pub fn written_is_read()
    ensures { (bytes : List ℕ) (head : CaptureHead) (body : Body) → IsCapture bytes head body → capture_of bytes ≡ Ok (head, body) }
{}

/// The records of a capture and its fault are related by the table of cases, one after another, and no others are.
#[tactic(auto, using(crate::proofs::Relation::body_is, crate::proofs::Relation::body_only))]
pub fn body_is_relation()
    ensures holds { (order : Endian) (given : ℕ) (bytes : List ℕ) → IsBody order given bytes (body_of order given bytes).records (body_of order given bytes).fault }
    ensures alone { (order : Endian) (given : ℕ) (bytes : List ℕ) (records : List PcapRecord) (fault : Option CaptureFault) → IsBody order given bytes records fault →
        body_of order given bytes ≡ record { records = records; fault = fault } }
{}
