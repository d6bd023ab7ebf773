//! What is wrong with a classic capture, and how to get one that is read.

use crate::files::{Sign, sign_of};
use crate::page::Page;
use pcap_io::CaptureFault;

/// The number of Ethernet among the kinds of links.
const ETHERNET: u32 = 1;

/// The link types of a capture of all interfaces at once, by older and by newer versions of the tools.
const COOKED: u32 = 113;

const COOKED2: u32 = 276;

/// The numbers of bare IP packets, of both versions and of one alone.
const RAW: u32 = 101;

const RAW_TOO: u32 = 12;

const RAW4: u32 = 228;

const RAW6: u32 = 229;

/// The numbers of headers of four bytes before each packet.
const LOOPBACK: u32 = 0;

const OPEN_LOOPBACK: u32 = 108;

const HDLC: u32 = 104;

/// The kinds of links whose packets can be given an Ethernet header.
const CURABLE: &[u32] = &[
    COOKED,
    COOKED2,
    RAW,
    RAW_TOO,
    RAW4,
    RAW6,
    LOOPBACK,
    OPEN_LOOPBACK,
    HDLC,
];

/// The first second of the year 2000, and of the year 2040, as times count from 1970.
const YEAR_2000: u32 = 946_684_800;

const YEAR_2040: u32 = 2_208_988_800;

/// The bits of the field that hold the link type. The others say whether frames end with checksums.
const LINK_BITS: u32 = 0xffff;

const VERSION: &str = "{} has another version than 2.4";

const CONVERT: &str =
    "this writes it in the format that is read (editcap is one of Wireshark's tools):\n  editcap -F pcap {} NEW.pcap\n  editcap -F nsecpcap {} NEW.pcap    keeps nanoseconds";

/// What to do where editcap refuses a custom block.
pub(crate) const CUSTOM: &str =
    "if editcap stops at a record that can't be saved (a custom block), write the packets alone first, and give editcap T.pcapng:\n  tshark -r {} -Y frame.encap_type -w T.pcapng";

const UNPACK: &str = "editcap reads what gzip packed; without it: gzip -dc {} >NEW.pcap";

const MANY: &str =
    "{} has more than 4294967295 records; cut it into pieces by:\n  editcap -F pcap -c 1000000000 {} PIECE.pcap";

const CHECKSUMS: &str =
    "{} says of its frames that they end with their checksums, which aren't read\n  editcap -F pcap -T ether {} NEW.pcap";

const NO_ETHERNET: &str = "the packets of {} have no Ethernet header: link type {} is {}\nit is {}";

/// How to get a capture with Ethernet headers.
pub(crate) const OTHERWISE: &str =
    "capture at one Ethernet interface instead, as by `tcpdump -i eth0 -w FILE`";

const COOKED_CURE: &str =
    "this gives its packets an Ethernet header, whose addresses mean nothing (editcap is one of Wireshark's tools):\n  editcap -F pcap -C 2 -L -T ether {} NEW.pcap";

const COOKED2_CURE: &str =
    "this leaves its IP packets alone, without VLAN tags (editcap is one of Wireshark's tools):\n  editcap -F pcap -C 20 -L -T rawip {} IP.pcap";

const FOUR_BYTES_CURE: &str =
    "this removes the four bytes before each IP packet (editcap is one of Wireshark's tools):\n  editcap -F pcap -C 4 -L -T rawip {} IP.pcap";

const VERSION_CURE: &str =
    "this gives it the link type of IP packets of both versions (editcap is one of Wireshark's tools):\n  editcap -F pcap -T rawip {} IP.pcap";

const IP_CURE: &str =
    "this puts an Ethernet header before its packets of IPv4 (tshark and text2pcap are Wireshark's tools); for those of IPv6 write ipv6 in place of ip, and 0x86dd in place of 0x800:\n  export TZ=UTC\n  tshark -r {} -Y ip -x -P -t ud -o 'gui.column.format:\"T\",\"%t\"' | text2pcap -q -t '%Y-%m-%d %H:%M:%S.%f' -e 0x800 -F pcap - NEW.pcap";

/// The name of the file of bare IP packets in the texts above.
const IP_FILE: &str = "IP.pcap";

const PLACE_OF_GRAPHS: &str =
    "it stands behind `--graph`, as in `nfp run POLICY CAPTURE OUT REPORT --graph NAME`";

const EMPTY: &str = "{} is empty";

const SHORT: &str = "{} has {} bytes, and the head of a capture alone has 24";

const CUT_RECORD: &str =
    "{} ends inside record {}: it was copied in part, or is still being written";

const TOO_LONG: &str =
    "{} says that record {} has {} bytes, and at most 262144 are read: the file is damaged from there on";

const JOINED: &str =
    "this length reads like a time, as if a second capture followed the first, joined by `cat`: then record {} is the head of the second, and no packet\njoin captures by this (mergecap is one of Wireshark's tools):\n  mergecap -F pcap -w NEW.pcap FIRST SECOND ..";

const LED: &str = "the records before it went through the chains; OUT and REPORT have them";

const TOLD: &str = "the records before it went through the chains; REPORT has what decided on them";

const COUNTED: &str = "the records before it are counted; OUT has their flows";

const BSD: &str = "what was captured at the loopback interface of BSD or macOS";

const OPENBSD: &str = "what was captured at the loopback interface of OpenBSD";

const DIALLED: &str = "what was captured at a dialled or tunnelled link";

const TUNNEL: &str = "what was captured at a tunnel (tun), which has no link header";

const BLUETOOTH: &str = "what was captured at a Bluetooth adapter";

const USB: &str = "what was captured at a USB bus";

const NFLOG: &str = "what the Linux firewall logs, as by `tcpdump -i nflog`";

const RADIO_LINK: &str = "IEEE 802.11 with a radio header";

const ANY: &str = "what was captured at all interfaces at once, as by `tcpdump -i any`";

const RADIO: &str = "what was captured at a radio in monitor mode";

const SERIAL: &str = "what was captured at a serial line";

const NO_HEADER: &str = "what has no link header";

/// A capture that was refused: the name of its file, its first bytes, and what it was read for.
#[derive(Clone, Copy)]
pub struct Captured<'a> {
    pub name: &'a str,
    pub front: &'a [u8],
    pub purpose: Purpose,
}

/// What a capture is read for.
#[derive(Clone, Copy)]
pub enum Purpose {
    /// Its packets go through chains, and those that pass are written.
    Chains,
    /// Its packets go through chains, and what decided on them is reported.
    Why,
    /// Its flows are counted.
    Flows,
}

/// What is to be done about a fault of a capture.
pub fn fault(page: &mut Page, capture: Captured<'_>, fault: CaptureFault) {
    let name = capture.name;
    match fault {
        CaptureFault::BadMagic => bad_magic(page, capture),
        CaptureFault::BadVersion => bad_version(page, name),
        CaptureFault::BadLink(kind) => bad_link(page, name, kind),
        CaptureFault::CutHead => cut_head(page, name, capture.front),
        CaptureFault::CutRecord(record) => cut_record(page, capture, record),
        CaptureFault::FrameTooLong(record, length) => too_long(page, capture, record, length),
        CaptureFault::TooManyRecords => tell_twice(page, MANY, name),
    }
}

// Adds a text with the name of a file in the first place.
fn tell_of(page: &mut Page, text: &'static str, name: &str) {
    page.tell(text);
    page.name(name);
}

/// Adds a text with the name of a file in the first two places.
pub(crate) fn tell_twice(page: &mut Page, text: &'static str, name: &str) {
    tell_of(page, text, name);
    page.name(name);
}

fn convert(page: &mut Page, name: &str) {
    tell_twice(page, CONVERT, name);
}

fn bad_version(page: &mut Page, name: &str) {
    tell_of(page, VERSION, name);
    convert(page, name);
}

fn cut_record(page: &mut Page, capture: Captured<'_>, record: u32) {
    tell_of(page, CUT_RECORD, capture.name);
    page.number(u64::from(record));
    page.tell(done_of(capture.purpose));
}

fn too_long(page: &mut Page, capture: Captured<'_>, record: u32, length: u32) {
    tell_of(page, TOO_LONG, capture.name);
    page.number(u64::from(record));
    page.number(u64::from(length));
    say_joined(page, record, length);
    page.tell(done_of(capture.purpose));
}

// In the head of a capture that follows the records of another, a length of 0 and then the time of the first record are read as lengths.
fn say_joined(page: &mut Page, record: u32, length: u32) {
    if record > 1 && length >= YEAR_2000 && length < YEAR_2040 {
        page.tell(JOINED);
        page.number(u64::from(record.saturating_sub(1)));
    }
}

// What became of the records before the fault.
fn done_of(purpose: Purpose) -> &'static str {
    match purpose {
        Purpose::Chains => LED,
        Purpose::Why => TOLD,
        Purpose::Flows => COUNTED,
    }
}

// No magic number: what the file is instead.
fn bad_magic(page: &mut Page, capture: Captured<'_>) {
    let name = capture.name;
    let sign = sign_of(capture.front);
    tell_of(page, what_it_is(sign), name);
    match sign {
        Sign::Pcapng => {
            convert(page, name);
            tell_of(page, CUSTOM, name);
        }
        Sign::PatchedPcap | Sign::Snoop => convert(page, name),
        Sign::Gzip => {
            convert(page, name);
            tell_of(page, UNPACK, name);
        }
        Sign::Policy => page.tell(place_of_policy(capture.purpose)),
        Sign::Graphs => page.tell(PLACE_OF_GRAPHS),
        Sign::Bzip2 | Sign::Xz | Sign::Zstandard => tell_of(page, unpacked_by(sign), name),
        sign => page.tell(what_to_do(sign)),
    }
}

fn what_it_is(sign: Sign) -> &'static str {
    match sign {
        Sign::PatchedPcap => {
            "{} is a capture in a changed pcap format, and the classic one is read"
        }
        Sign::Pcapng =>
            "{} is a capture in the format pcapng, and flows are read of the classic one",
        Sign::Snoop => "{} is a capture of `snoop`, whose format isn't read",
        Sign::Gzip => "{} is packed by gzip",
        Sign::Bzip2 => "{} is packed by bzip2",
        Sign::Xz => "{} is packed by xz",
        Sign::Zstandard => "{} is packed by zstd",
        Sign::Policy => "{} is a policy, and no capture",
        Sign::Graphs => "{} is a text of graphs, and no capture",
        Sign::Text | Sign::Utf8 | Sign::Utf16 => "{} is a text, and no capture",
        Sign::Pcap | Sign::Unknown => "{} is no capture in the format pcap or pcapng",
    }
}

fn unpacked_by(sign: Sign) -> &'static str {
    match sign {
        Sign::Bzip2 => "unpack it by: bzip2 -dc {} >NEW.pcap",
        Sign::Xz => "unpack it by: xz -dc {} >NEW.pcap",
        _ => "unpack it by: zstd -dc {} >NEW.pcap",
    }
}

fn place_of_policy(purpose: Purpose) -> &'static str {
    match purpose {
        Purpose::Chains => "the policy stands first, as in `nfp run POLICY CAPTURE OUT REPORT`",
        Purpose::Why => "the policy stands first, as in `nfp why POLICY CAPTURE REPORT`",
        Purpose::Flows => "flows are counted without a policy, as by `nfp flows CAPTURE OUT`",
    }
}

fn what_to_do(sign: Sign) -> &'static str {
    match sign {
        Sign::Text | Sign::Utf8 | Sign::Utf16 => {
            "a text of packets is made a capture by `text2pcap`; `tcpdump -w FILE` writes a capture"
        }
        _ => {
            "`capinfos` may tell what it is; `tcpdump -w FILE` and `editcap -F pcap OLD NEW` write what is read"
        }
    }
}

/// The frames have no Ethernet header.
pub fn bad_link(page: &mut Page, name: &str, kind: u32) {
    if kind & LINK_BITS == ETHERNET {
        tell_twice(page, CHECKSUMS, name);
    } else {
        say_link(page, NO_ETHERNET, name, kind);
        page.tell(OTHERWISE);
        say_cure(page, name, kind & LINK_BITS);
    }
}

/// Adds a text on a file and a kind of link that is not Ethernet.
pub(crate) fn say_link(page: &mut Page, text: &'static str, name: &str, kind: u32) {
    let (link, source) = link_of(kind & LINK_BITS);
    tell_of(page, text, name);
    page.number(u64::from(kind));
    page.say(link);
    page.say(source);
}

/// Is there a way to give the packets of a capture with this kind of link an Ethernet header?
pub(crate) fn has_cure(link: u32) -> bool {
    CURABLE.contains(&link)
}

/// How to give the packets of a capture with this kind of link an Ethernet header, if there is a way.
pub(crate) fn say_cure(page: &mut Page, name: &str, link: u32) {
    match link {
        COOKED => tell_of(page, COOKED_CURE, name),
        COOKED2 => by_way_of_ip(page, COOKED2_CURE, name),
        RAW4 | RAW6 | RAW_TOO => by_way_of_ip(page, VERSION_CURE, name),
        LOOPBACK | OPEN_LOOPBACK | HDLC => by_way_of_ip(page, FOUR_BYTES_CURE, name),
        RAW => tell_of(page, IP_CURE, name),
        _ => {}
    }
}

// The same of one that is made a capture of bare IP packets before.
fn by_way_of_ip(page: &mut Page, text: &'static str, name: &str) {
    tell_of(page, text, name);
    tell_of(page, IP_CURE, IP_FILE);
}

fn cut_head(page: &mut Page, name: &str, front: &[u8]) {
    if front.is_empty() {
        tell_of(page, EMPTY, name);
    } else {
        tell_of(page, SHORT, name);
        page.number(front.len() as u64);
    }
}

// What a kind of link is called, and what is captured so.
fn link_of(number: u32) -> (&'static str, &'static str) {
    for (known, link, source) in LINKS {
        if *known == number {
            return (*link, *source);
        }
    }
    ("of another kind", "not known here; `capinfos` names it")
}

// Kinds of links by their numbers (the registry of link-layer header types).
const LINKS: &[(u32, &str, &str)] = &[
    (LOOPBACK, "BSD loopback", BSD),
    (6, "Token Ring", "what was captured at a token ring"),
    (9, "PPP", DIALLED),
    (10, "FDDI", "what was captured at an FDDI ring"),
    (RAW_TOO, "raw IP", TUNNEL),
    (14, "raw IP", TUNNEL),
    (50, "PPP", DIALLED),
    (51, "PPP", DIALLED),
    (RAW, "raw IP", TUNNEL),
    (HDLC, "Cisco HDLC", SERIAL),
    (105, "IEEE 802.11", RADIO),
    (107, "Frame Relay", SERIAL),
    (OPEN_LOOPBACK, "OpenBSD loopback", OPENBSD),
    (COOKED, "Linux cooked v1", ANY),
    (119, RADIO_LINK, RADIO),
    (127, RADIO_LINK, RADIO),
    (163, RADIO_LINK, RADIO),
    (187, "Bluetooth", BLUETOOTH),
    (189, "USB", USB),
    (192, RADIO_LINK, RADIO),
    (195, "IEEE 802.15.4", RADIO),
    (201, "Bluetooth", BLUETOOTH),
    (220, "USB", USB),
    (RAW4, "raw IPv4", NO_HEADER),
    (RAW6, "raw IPv6", NO_HEADER),
    (230, "IEEE 802.15.4", RADIO),
    (239, "NFLOG", NFLOG),
    (253, "netlink", "what was captured at a netlink monitor"),
    (COOKED2, "Linux cooked v2", ANY),
];
