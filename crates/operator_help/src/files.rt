//! Files: what they are by their first bytes, and why the system refuses them.

use crate::page::Page;
use crate::shown::is_printable;
use std::io::Error;

const UNREAD: &str = "{} can't be read: {}";

const UNWRITTEN: &str = "{} can't be written: {}";

const NO_REASON: &str = "it gives no reason";

const FULL: &str = "it takes no more bytes; is the disk full, or was a pipe closed?";

const UNPRINTED: &str = "the last line can't be put to standard output; the files are whole";

const UNSHOWN: &str = "standard output doesn't take what is to be shown";

const ONE_FILE: &str = "{} and {} are one file, and what is written needs one of its own";

const PRINTED_FILE: &str =
    "standard output goes to {}, and what is written needs a file of its own";

const TOLD_FILE: &str = "standard error goes to {}, and what is written needs a file of its own";

/// What a file is, by its first bytes.
#[derive(Clone, Copy)]
pub enum Sign {
    /// A capture in the classic format.
    Pcap,
    /// A capture in the classic format, changed by a patch, whose record heads are longer.
    PatchedPcap,
    Pcapng,
    Snoop,
    Gzip,
    Bzip2,
    Xz,
    Zstandard,
    /// A text with the byte order mark of UTF-8.
    Utf8,
    /// A text with the byte order mark of UTF-16.
    Utf16,
    /// Lines of a policy.
    Policy,
    /// Lines of a text of graphs.
    Graphs,
    Text,
    Unknown,
}

// What files are that begin so.
const SIGNS: &[(&[u8], Sign)] = &[
    (b"\xd4\xc3\xb2\xa1", Sign::Pcap),
    (b"\xa1\xb2\xc3\xd4", Sign::Pcap),
    (b"\x4d\x3c\xb2\xa1", Sign::Pcap),
    (b"\xa1\xb2\x3c\x4d", Sign::Pcap),
    (b"\x34\xcd\xb2\xa1", Sign::PatchedPcap),
    (b"\xa1\xb2\xcd\x34", Sign::PatchedPcap),
    (b"\x0a\x0d\x0d\x0a", Sign::Pcapng),
    (b"snoop\0\0\0", Sign::Snoop),
    (b"\x1f\x8b", Sign::Gzip),
    (b"BZh", Sign::Bzip2),
    (b"\xfd7zXZ\0", Sign::Xz),
    (b"\x28\xb5\x2f\xfd", Sign::Zstandard),
    (b"\xef\xbb\xbf", Sign::Utf8),
    (b"\xff\xfe", Sign::Utf16),
    (b"\xfe\xff", Sign::Utf16),
    (b"nfp 1", Sign::Policy),
    (b"nfp-graph 1", Sign::Graphs),
];

/// What a file is that begins so.
pub fn sign_of(front: &[u8]) -> Sign {
    for (start, sign) in SIGNS {
        if front.starts_with(start) {
            return *sign;
        }
    }
    if front.is_empty() {
        Sign::Unknown
    } else {
        letters_sign(front)
    }
}

// A text has nothing but printable characters, blanks and ends of lines.
fn letters_sign(front: &[u8]) -> Sign {
    for byte in front {
        if !is_printable(*byte) && !b"\t\n\r".contains(byte) {
            return Sign::Unknown;
        }
    }
    Sign::Text
}

/// A file that couldn't be read, and the system's reason, if it gave one.
pub fn unread(page: &mut Page, name: &str, reason: Option<Error>) {
    page.tell(UNREAD);
    page.name(name);
    say_reason(page, reason, NO_REASON);
}

/// A file that couldn't be written, and the system's reason, if it gave one.
pub fn unwritten(page: &mut Page, name: &str, reason: Option<Error>) {
    page.tell(UNWRITTEN);
    page.name(name);
    say_reason(page, reason, FULL);
}

// The system's reason, or else this one.
fn say_reason(page: &mut Page, reason: Option<Error>, otherwise: &str) {
    match reason {
        Some(reason) => page.reason(reason),
        None => page.say(otherwise),
    }
}

/// A file that is to be written, and another name of it among the words of the run.
pub fn one_file(page: &mut Page, name: &str, other: &str) {
    page.tell(ONE_FILE);
    page.name(name);
    page.name(other);
}

/// A file that is to be written, and that standard output is redirected to.
pub fn printed_file(page: &mut Page, name: &str) {
    page.tell(PRINTED_FILE);
    page.name(name);
}

/// A file that is to be written, and that standard error is redirected to.
pub fn told_file(page: &mut Page, name: &str) {
    page.tell(TOLD_FILE);
    page.name(name);
}

/// Standard output couldn't be written. Files that were to be written are whole.
pub fn unprinted(page: &mut Page, has_files: bool) {
    page.tell(if has_files { UNPRINTED } else { UNSHOWN });
}
