//! The packets of a pcapng capture, counted as its bytes pass.
ghost use Rattle.std.specs.Prelude.{◌≤◌, ◌<◌, length};

use capture_bytes::Endian;

/// The type of a section header block, the same in both orders.
const SECTION: u32 = 0x0a0d_0d0a;

/// The type of an enhanced packet block.
const PACKET: u32 = 6;

/// The number of bytes of a block that hold its type and its length, and of a section header also the magic.
const BLOCK_HEAD: u32 = 8;

const SECTION_HEAD: u32 = 12;

/// The first byte of a magic whose highest byte comes first.
const MAGIC_HIGH: u8 = 0x1a;

/// Where in a block the next byte of a capture is.
#[derive(Clone, Copy)]
enum Place {
    /// This number of bytes after the beginning of a block.
    Head(u32),
    /// This number of bytes before the end of a block, at least one.
    Body(u32),
}

/// Counts the packets of a pcapng capture from its bytes, in any pieces.
#[derive(Drop)]
pub struct BlockCount {
    place: Place,
    order: Endian,
    kind: [u8; 4],
    length: [u8; 4],
    packets: u64,
}

impl BlockCount {
    /// Nothing has passed yet.
    pub fn new() -> Self {
        BlockCount {
            place: Place::Head(0),
            order: Endian::Little,
            kind: [0; 4],
            length: [0; 4],
            packets: 0,
        }
    }

    /// The number of packets of which all bytes have passed.
    pub fn packets(&self) -> u64 {
        self.packets
    }

    /// Takes note of the next bytes of the capture.
    pub fn follow(&mut self, bytes: &[u8]) {
        let mut rest = bytes;
        'pieces: while !rest.is_empty() {
            let taken = self.take(rest);
            rest = &rest[taken..];
        }
    }

    // Takes some bytes off the front, and returns the number of them: the part of a block's body that is here, or one
    // byte of its head.
    fn take(&mut self, bytes: &[u8]) -> usize
        requires { 0 < length bytes.now }
        ensures some { 0 < result }
        ensures within { result ≤ length bytes.now }
    {
        match self.place {
            Place::Head(at) => {
                self.head(at, bytes[0]);
                1
            }
            Place::Body(left) => {
                let taken = bytes.len().min(left as usize).max(1);
                self.body(left, taken);
                taken
            }
        }
    }

    // A byte of a block's head. A section header shows its order by its magic, the other blocks have that of their
    // section.
    fn head(&mut self, at: u32, byte: u8) {
        match at {
            0..=3 => self.kind[at as usize] = byte,
            4..=7 => self.length[at as usize - 4] = byte,
            8 => self.order = order_of(byte),
            _ => {}
        }
        let is_section = number(Endian::Big, self.kind) == SECTION;
        let head = if is_section { SECTION_HEAD } else { BLOCK_HEAD };
        if at.saturating_add(1) < head {
            self.place = Place::Head(at.saturating_add(1));
        } else {
            self.begin_body(head);
        }
    }

    // The head of a block, of `head` bytes, has ended.
    fn begin_body(&mut self, head: u32) {
        let left = number(self.order, self.length).saturating_sub(head);
        if left == 0 {
            self.end_block();
        } else {
            self.place = Place::Body(left);
        }
    }

    // `taken` bytes of a body have passed, of which `left` were left.
    fn body(&mut self, left: u32, taken: usize) {
        if (left as usize) <= taken {
            self.end_block();
        } else {
            self.place = Place::Body(left - taken as u32);
        }
    }

    fn end_block(&mut self) {
        if number(self.order, self.kind) == PACKET {
            self.packets = self.packets.saturating_add(1);
        }
        self.place = Place::Head(0);
    }
}

// The order of a section whose magic begins with this byte.
fn order_of(byte: u8) -> Endian {
    if byte == MAGIC_HIGH {
        Endian::Big
    } else {
        Endian::Little
    }
}

fn number(order: Endian, bytes: [u8; 4]) -> u32 {
    match order {
        Endian::Big => u32::from_be_bytes(bytes),
        Endian::Little => u32::from_le_bytes(bytes),
    }
}
