//! What a block's first bytes say.
ghost use Rattle.std.specs.Prelude.{◌≡◌, ◌≤◌, ◌==◌, ◌&&◌, not, length};
ghost use Rattle.capture_bytes.specs.Numbers.{number_at};
ghost use Rattle.pcapng_io.specs.Blocks.{first_fault, is_section, is_unread, kind_of, length_in, order_in};
ghost use Rattle.pcapng_io.specs.Reader.{head_faults, head_length};

use crate::block_kind::BlockKind;
use crate::fault::NgFault;
use capture_bytes::{Endian, u32_at};

// The type of a section header block, which reads the same in both orders.
const SECTION_HEADER: u32 = 0x0a0d_0d0a;

const INTERFACE_DESCRIPTION: u32 = 1;

const PACKET: u32 = 2;

const SIMPLE_PACKET: u32 = 3;

const ENHANCED_PACKET: u32 = 6;

const BYTE_ORDER_MAGIC: u32 = 0x1a2b_3c4d;

// The lengths of a block: the least (its type, its length twice, and no body), and the most that is accepted.
const LEAST_BLOCK: u32 = 12;

const MOST_BLOCK: u32 = 16_777_216;

// The kind of a block of this type.
pub fn kind_of(code: u32) -> BlockKind
    ensures { result ≡ kind_of code }
{
    if code == SECTION_HEADER {
        BlockKind::SectionHeader
    } else if code == INTERFACE_DESCRIPTION {
        BlockKind::InterfaceDescription
    } else if code == ENHANCED_PACKET {
        BlockKind::EnhancedPacket
    } else if code == PACKET || code == SIMPLE_PACKET {
        BlockKind::Unread
    } else {
        BlockKind::Other
    }
}

pub fn is_section(kind: BlockKind) -> bool
    ensures { result ≡ is_section kind }
{
    match kind {
        BlockKind::SectionHeader => true,
        _ => false,
    }
}

fn is_unread(kind: BlockKind) -> bool
    ensures { result ≡ is_unread kind }
{
    match kind {
        BlockKind::Unread => true,
        _ => false,
    }
}

// The order of a block's numbers, in a section of this order.
pub fn order_of(order: Endian, kind: BlockKind, head: &[u8]) -> Endian
    requires { head_length kind ≤ length head.now }
    ensures { result ≡ order_in order kind head.now }
{
    if !is_section(kind) {
        return order;
    }
    if u32_at(Endian::Big, head, 8) == BYTE_ORDER_MAGIC {
        Endian::Big
    } else {
        Endian::Little
    }
}

// The fault of block `number` that its first bytes show.
pub fn head_fault(number: u64, order: Endian, kind: BlockKind, head: &[u8]) -> Option<NgFault>
    requires { head_length kind ≤ length head.now }
    ensures { result ≡ first_fault (head_faults number order kind head.now) }
{
    let length = u32_at(order, head, 4);
    if has_wrong_magic(order, kind, head)
        || length < LEAST_BLOCK
        || length % 4 != 0
        || is_unread(kind)
    {
        return Some(NgFault::BadBlock(number));
    }
    if length > MOST_BLOCK {
        return Some(NgFault::BlockTooLong(number, length));
    }
    None
}

fn has_wrong_magic(order: Endian, kind: BlockKind, head: &[u8]) -> bool
    requires { head_length kind ≤ length head.now }
    ensures { result ≡ (is_section kind && not (number_at order 4 8 head.now == 0x1a2b3c4d)) }
{
    is_section(kind) && u32_at(order, head, 8) != BYTE_ORDER_MAGIC
}
