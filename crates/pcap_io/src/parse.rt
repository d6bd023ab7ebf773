//! The head of a capture, from its bytes.
ghost use Rattle.std.specs.Prelude.{◌≡◌, ◌≤◌, length};
ghost use Rattle.std.specs.Option.{option_map};
ghost use Rattle.pcap_io.specs.Capture.{kind_of, head_of, head_of_kind};

use crate::capture::{CaptureFault, CaptureHead};
use capture_bytes::{Endian, Unit, u16_at, u32_at};

pub const HEAD_LEN: usize = 24;

pub const MAGIC_MICRO: u32 = 0xa1b2_c3d4;

pub const MAGIC_NANO: u32 = 0xa1b2_3c4d;

pub const VERSION_MAJOR: u16 = 2;

pub const VERSION_MINOR: u16 = 4;

pub const ETHERNET: u32 = 1;

// The head at the front of the bytes, or the first fault of it.
pub fn head_in(bytes: &[u8]) -> Result<CaptureHead, CaptureFault>
    ensures { result ≡ head_of bytes.now }
{
    if bytes.len() < HEAD_LEN {
        return Err(CaptureFault::CutHead);
    }
    let Some((order, unit)) = kind_in(bytes) else {
        return Err(CaptureFault::BadMagic);
    };
    if u16_at(order, bytes, 4) != VERSION_MAJOR || u16_at(order, bytes, 6) != VERSION_MINOR {
        return Err(CaptureFault::BadVersion);
    }
    let link = u32_at(order, bytes, 20);
    if link != ETHERNET {
        return Err(CaptureFault::BadLink(link));
    }
    Ok(CaptureHead {
        order,
        unit,
        zone: u32_at(order, bytes, 8),
        sigfigs: u32_at(order, bytes, 12),
        snaplen: u32_at(order, bytes, 16),
    })
}

// The order and the unit of the magic number, if the bytes are one.
fn kind_in(bytes: &[u8]) -> Option<(Endian, Unit)>
    requires { 24 ≤ length bytes.now }
    ensures { result ≡ kind_of bytes.now }
{
    let little = u32_at(Endian::Little, bytes, 0);
    let big = u32_at(Endian::Big, bytes, 0);
    if little == MAGIC_MICRO {
        Some((Endian::Little, Unit::Micro))
    } else if little == MAGIC_NANO {
        Some((Endian::Little, Unit::Nano))
    } else if big == MAGIC_MICRO {
        Some((Endian::Big, Unit::Micro))
    } else if big == MAGIC_NANO {
        Some((Endian::Big, Unit::Nano))
    } else {
        None
    }
}
