//! The packets of a capture, counted as its bytes pass.
ghost use Rattle.std.specs.Prelude.{◌≤◌, ◌<◌, length};

use crate::block_count::BlockCount;
use capture_bytes::{Endian, u32_at};

/// The number of bytes of a capture's head.
const FILE_HEAD: u32 = 24;

/// The number of bytes of a record's head.
const RECORD_HEAD: usize = 16;

/// The first of the four bytes of a record's head that say how long its frame is.
const LENGTH_AT: usize = 8;

/// The first byte of a magic number whose highest byte comes first.
const MAGIC_HIGH: u8 = 0xa1;

/// The first byte of a pcapng capture.
const NG_FIRST: u8 = 0x0a;

/// Where in a capture the next byte is.
#[derive(Clone, Copy)]
enum Place {
    /// This number of bytes after the beginning of the capture's head.
    FileHead(u32),
    /// This number of bytes after the beginning of a record's head.
    RecordHead(usize),
    /// This number of bytes before the end of a frame, at least one.
    Frame(u32),
}

/// The format by which a capture is counted. Its first byte decides.
#[derive(Clone, Copy, PartialEq, Eq)]
enum Format {
    Unknown,
    Pcap,
    Ng,
}

/// Counts the packets of a capture of either format from its bytes, in any pieces.
#[derive(Drop)]
pub struct RecordCount {
    format: Format,
    blocks: BlockCount,
    place: Place,
    order: Endian,
    length: u32,
    records: u64,
}

impl RecordCount {
    /// Nothing has passed yet.
    pub fn new() -> Self {
        RecordCount {
            format: Format::Unknown,
            blocks: BlockCount::new(),
            place: Place::FileHead(0),
            order: Endian::Little,
            length: 0,
            records: 0,
        }
    }

    /// The number of packets of which all bytes have passed.
    pub fn records(&self) -> u64 {
        match self.format {
            Format::Ng => self.blocks.packets(),
            Format::Pcap | Format::Unknown => self.records,
        }
    }

    /// Takes note of the next bytes of the capture.
    pub fn follow(&mut self, bytes: &[u8]) {
        if let (Format::Unknown, Some(first)) = (self.format, bytes.first()) {
            self.format = format_of(*first);
        }
        match self.format {
            Format::Ng => self.blocks.follow(bytes),
            Format::Pcap | Format::Unknown => self.follow_records(bytes),
        }
    }

    // Takes note of the next bytes of a classic capture.
    fn follow_records(&mut self, bytes: &[u8]) {
        let mut rest = bytes;
        'pieces: while !rest.is_empty() {
            let taken = self.take(rest);
            rest = &rest[taken..];
        }
    }

    // Takes some bytes off the front, and returns the number of them: the part of a frame that is here, a record's head
    // that is here whole, or one byte of a head.
    fn take(&mut self, bytes: &[u8]) -> usize
        requires { 0 < length bytes.now }
        ensures some { 0 < result }
        ensures within { result ≤ length bytes.now }
    {
        match self.place {
            Place::FileHead(at) => {
                self.file_head(at, bytes[0]);
                1
            }
            // Most heads come in one piece.
            Place::RecordHead(0) if bytes.len() >= RECORD_HEAD => {
                self.length = u32_at(self.order, bytes, LENGTH_AT);
                self.begin_frame();
                RECORD_HEAD
            }
            Place::RecordHead(at) => {
                self.record_head(at, bytes[0]);
                1
            }
            Place::Frame(left) => {
                let taken = bytes.len().min(left as usize).max(1);
                self.frame(left, taken);
                taken
            }
        }
    }

    // A byte of the capture's head, whose first byte shows the order.
    fn file_head(&mut self, at: u32, byte: u8) {
        if at == 0 && byte == MAGIC_HIGH {
            self.order = Endian::Big;
        }
        self.place = if at < FILE_HEAD - 1 {
            Place::FileHead(at + 1)
        } else {
            Place::RecordHead(0)
        };
    }

    // A byte of a record's head.
    fn record_head(&mut self, at: usize, byte: u8) {
        if at >= LENGTH_AT && at < LENGTH_AT + 4 {
            self.length = joined(self.order, self.length, byte);
        }
        if at < RECORD_HEAD - 1 {
            self.place = Place::RecordHead(at + 1);
        } else {
            self.begin_frame();
        }
    }

    // The head of a record has ended.
    fn begin_frame(&mut self) {
        if self.length == 0 {
            self.end_record();
        } else {
            self.place = Place::Frame(self.length);
        }
    }

    // `taken` bytes of a frame have passed, of which `left` were left.
    fn frame(&mut self, left: u32, taken: usize) {
        if (left as usize) <= taken {
            self.end_record();
        } else {
            self.place = Place::Frame(left - taken as u32);
        }
    }

    fn end_record(&mut self) {
        self.records = self.records.saturating_add(1);
        self.length = 0;
        self.place = Place::RecordHead(0);
    }
}

// The format of a capture that begins with this byte.
fn format_of(first: u8) -> Format {
    if first == NG_FIRST {
        Format::Ng
    } else {
        Format::Pcap
    }
}

// The number with one more byte of it. The four bytes of a number push out what was there before.
fn joined(order: Endian, number: u32, byte: u8) -> u32 {
    match order {
        Endian::Big => number.wrapping_shl(8) | u32::from(byte),
        Endian::Little => number.wrapping_shr(8) | u32::from(byte).wrapping_shl(24),
    }
}
