//! The line of a capture's first fault.
ghost use Rattle.std.specs.Prelude.{◌≡◌, ◌∷◌, ◌++◌, [], IfOk, OnOk, codes};
ghost use Rattle.std.specs.Fmt.{decimal};
ghost use Rattle.text_lines.specs.Texts.{joined};
ghost use Rattle.capture_items.specs.FaultLines.{capture_text, fault_text, last_line, ng_text};

use crate::fault::FormatFault;
use pcap_io::CaptureFault;
use pcapng_io::NgFault;
use std::alloc::{AllocError, Global};
use text_lines::Piece::{Number, Text};
use text_lines::{join, push_pieces};

/// The line of a capture's first fault.
pub fn fault_line(alloc: Global, fault: FormatFault) -> Result<Vec<u8>, AllocError>
    ensures { IfOk result (λ v. v.items ≡ fault_text fault) }
{
    match fault {
        FormatFault::Pcap(fault) => capture_line(alloc, fault),
        FormatFault::Ng(fault) => ng_line(alloc, fault),
    }
}

/// The line of a classic capture's first fault.
#[tactic(auto, unfolding(crate::specs::FaultLines::capture_text))]
pub fn capture_line(alloc: Global, fault: CaptureFault) -> Result<Vec<u8>, AllocError>
    ensures { IfOk result (λ v. v.items ≡ capture_text fault) }
{
    match fault {
        CaptureFault::BadMagic => Vec::from_slice(alloc, b"capture: bad magic\n".as_slice()),
        CaptureFault::BadVersion => Vec::from_slice(alloc, b"capture: bad version\n".as_slice()),
        CaptureFault::BadLink(link) => {
            let link = u64::from(link);
            join(
                alloc,
                &[Text(b"capture: bad link "), Number(link), Text(b"\n")],
            )
        }
        CaptureFault::CutHead => Vec::from_slice(alloc, b"capture: cut head\n".as_slice()),
        CaptureFault::CutRecord(number) => {
            let number = u64::from(number);
            join(
                alloc,
                &[Text(b"capture: cut record "), Number(number), Text(b"\n")],
            )
        }
        CaptureFault::FrameTooLong(number, length) => join(
            alloc,
            &[
                Text(b"capture: frame too long "),
                Number(u64::from(number)),
                Text(b" "),
                Number(u64::from(length)),
                Text(b"\n"),
            ],
        ),
        CaptureFault::TooManyRecords => {
            Vec::from_slice(alloc, b"capture: too many records\n".as_slice())
        }
    }
}

/// The line of a pcapng capture's first fault.
#[tactic(auto, unfolding(crate::specs::FaultLines::ng_text))]
pub fn ng_line(alloc: Global, fault: NgFault) -> Result<Vec<u8>, AllocError>
    ensures { IfOk result (λ v. v.items ≡ ng_text fault) }
{
    match fault {
        NgFault::CutBlock(number) => numbered(alloc, b"capture: cut block ", number),
        NgFault::BadBlock(number) => numbered(alloc, b"capture: bad block ", number),
        NgFault::BlockTooLong(number, length) => {
            measured(alloc, b"capture: block too long ", number, length)
        }
        NgFault::BadLink(link) => numbered(alloc, b"capture: bad link ", u64::from(link)),
        NgFault::BadResolution(number) => numbered(alloc, b"capture: bad resolution ", number),
        NgFault::NoInterface(number) => numbered(alloc, b"capture: no interface ", number),
        NgFault::FrameTooLong(number, length) => {
            measured(
                alloc,
                b"capture: frame too long ",
                u64::from(number),
                length,
            )
        }
        NgFault::TooManyRecords => {
            Vec::from_slice(alloc, b"capture: too many records\n".as_slice())
        }
        NgFault::TooManyBlocks => Vec::from_slice(alloc, b"capture: too many blocks\n".as_slice()),
    }
}

/// Adds the last line: the end, or the capture's fault.
#[tactic(auto, unfolding(crate::specs::FaultLines::last_line))]
pub fn push_last_line(
    alloc: Global,
    text: &mut Vec<u8>,
    fault: Option<FormatFault>,
) -> Result<(), AllocError>
    ensures { OnOk result (text.new.items ≡ text.old.items ++ last_line fault) }
{
    match fault {
        None => text.extend_from_slice(b"end\n".as_slice()),
        Some(fault) => {
            let line = fault_line(alloc, fault)?;
            push_pieces(alloc, text, &[Text(b"fault "), Text(&line)])
        }
    }
}

// A line that ends with a number.
fn numbered(alloc: Global, words: &[u8], number: u64) -> Result<Vec<u8>, AllocError>
    ensures { IfOk result (λ v. v.items ≡ joined (words.now ∷ decimal number ∷ codes "\n" ∷ [])) }
{
    join(alloc, &[Text(words), Number(number), Text(b"\n")])
}

// A line that ends with a number and a length.
fn measured(alloc: Global, words: &[u8], number: u64, length: u32) -> Result<Vec<u8>, AllocError>
    ensures { IfOk result (λ v. v.items ≡ joined (words.now ∷ decimal number ∷ codes " " ∷ decimal length ∷ codes "\n" ∷ [])) }
{
    let length = u64::from(length);
    join(
        alloc,
        &[
            Text(words),
            Number(number),
            Text(b" "),
            Number(length),
            Text(b"\n"),
        ],
    )
}
