//! What is wrong with a pcapng capture, and how to get one that is read.

use crate::capture::{
    CUSTOM, Captured, OTHERWISE, Purpose, has_cure, say_cure, say_link, tell_twice,
};
use crate::page::Page;
use pcapng_io::NgFault;

const DONE: &str = "what stood before it went through the chains; OUT and REPORT have it";

const TOLD: &str =
    "what stood before it went through the chains; REPORT has what decided on its packets";

const CUT: &str = "{} ends inside block {}: it was copied in part, or is still being written";

const BAD: &str =
    "block {} of {} isn't as the format pcapng asks, or is of a kind that isn't read: a simple packet block, or an obsolete packet block\nthis writes what editcap reads of it as classic pcap (editcap is one of Wireshark's tools):\n  editcap -F pcap {} NEW.pcap";

const BLOCK_LONG: &str =
    "{} says that block {} has {} bytes, and at most 16777216 are read: the file is damaged from there on";

const NO_ETHERNET: &str =
    "an interface of {} has packets without an Ethernet header: link type {} is {}\nit is {}";

const ETHERNET_ALONE: &str =
    "`capinfos {}` lists its interfaces; if some are Ethernet, this keeps their packets (tshark and editcap are Wireshark's tools):\n  tshark -r {} -Y 'frame.encap_type==1' -w T.pcapng\n  editcap -F pcap -T ether T.pcapng NEW.pcap";

const ONE_LINK: &str =
    "if all of them have link type {}, write the packets as classic pcap first:\n  tshark -r {} -Y frame.encap_type -F pcap -w ONE.pcap";

/// The name of the file of one link type in the text above.
const ONE_FILE: &str = "ONE.pcap";

const RESOLUTION: &str =
    "the interface in block {} of {} tells times in a unit that isn't read: 10 to the minus 18 and 2 to the minus 60 seconds are the finest; mostly this block is damaged\nthis writes the packets, with other times (editcap is one of Wireshark's tools):\n  editcap -F nsecpcap {} NEW.pcap";

const NO_INTERFACE: &str =
    "the packet in block {} of {} names an interface that its section hasn't: the file is damaged, or was joined from others by hand; `mergecap` joins captures";

const FRAME_LONG: &str =
    "{} says that packet {} has {} bytes, and at most 262144 are read: the file is damaged from there on";

const MANY: &str =
    "{} has more packets or blocks than are read; cut it into pieces by:\n  editcap -c 1000000000 {} PIECE.pcapng";

/// What is to be done about a fault of a pcapng capture.
pub fn fault(page: &mut Page, capture: Captured<'_>, fault: NgFault) {
    let name = capture.name;
    match fault {
        NgFault::CutBlock(block) => tell_of(page, CUT, name, block),
        NgFault::BadBlock(block) => tell_block(page, BAD, name, block),
        NgFault::BlockTooLong(block, length) => tell_long(page, BLOCK_LONG, name, block, length),
        NgFault::BadLink(kind) => bad_interface(page, name, kind),
        NgFault::BadResolution(block) => tell_block(page, RESOLUTION, name, block),
        NgFault::NoInterface(block) => no_interface(page, name, block),
        NgFault::FrameTooLong(packet, length) => {
            tell_long(page, FRAME_LONG, name, u64::from(packet), length);
        }
        NgFault::TooManyRecords | NgFault::TooManyBlocks => tell_twice(page, MANY, name),
    }
    if is_converted(&fault) {
        page.tell(CUSTOM);
        page.name(name);
    }
    if has_done(&fault) {
        page.tell(done_of(capture.purpose));
    }
}

// Adds a text with the name of the file, and then the number of a block or a packet.
fn tell_of(page: &mut Page, text: &'static str, name: &str, number: u64) {
    page.tell(text);
    page.name(name);
    page.number(number);
}

// The same, and then the number of bytes that it claims.
fn tell_long(page: &mut Page, text: &'static str, name: &str, number: u64, length: u32) {
    tell_of(page, text, name, number);
    page.number(u64::from(length));
}

fn no_interface(page: &mut Page, name: &str, block: u64) {
    page.tell(NO_INTERFACE);
    page.number(block);
    page.name(name);
}

// Adds a text with the number of a block, and then the name of the file twice.
fn tell_block(page: &mut Page, text: &'static str, name: &str, block: u64) {
    page.tell(text);
    page.number(block);
    page.name(name);
    page.name(name);
}

// An interface has packets without an Ethernet header. Others may have one.
fn bad_interface(page: &mut Page, name: &str, kind: u32) {
    say_link(page, NO_ETHERNET, name, kind);
    page.tell(OTHERWISE);
    page.tell(ETHERNET_ALONE);
    page.name(name);
    page.name(name);
    if has_cure(kind) {
        page.tell(ONE_LINK);
        page.number(u64::from(kind));
        page.name(name);
        say_cure(page, ONE_FILE, kind);
    }
}

// What became of what stood before the fault.
fn done_of(purpose: Purpose) -> &'static str {
    match purpose {
        Purpose::Why => TOLD,
        Purpose::Chains | Purpose::Flows => DONE,
    }
}

// Does editcap write the packets of such a file, unless it has a custom block?
fn is_converted(fault: &NgFault) -> bool {
    matches!(fault, NgFault::BadBlock(_) | NgFault::BadResolution(_))
}

// Was something written before the fault? Not if it is in the first block; of too many packets nothing is known.
fn has_done(fault: &NgFault) -> bool {
    match fault {
        NgFault::CutBlock(block) | NgFault::BadBlock(block) | NgFault::BlockTooLong(block, _) => {
            *block != 1
        }
        NgFault::TooManyRecords | NgFault::TooManyBlocks => false,
        _ => true,
    }
}
