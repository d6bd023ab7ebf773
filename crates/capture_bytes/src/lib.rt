//! What the two formats of captures have in common.
//!
//! Numbers are read and written at places of a text in either byte order ([`u16_at`], [`u32_at`], [`put_u16`],
//! [`put_u32`]). [`fill`] reads bytes from the slot Capture of a desk, in whatever pieces the desk gives them. In
//! either format a packet comes as a [`PcapRecord`]: its time, the length that it had on the wire, and the frame.
//!
//! Left out: what the bytes of a format mean.
#![tactic(auto)]

mod filling;
mod numbers;
mod order;
mod packet;

pub use filling::fill;
pub use numbers::{put_u16, put_u32, u16_at, u32_at};
pub use order::Endian;
pub use packet::{PcapRecord, Unit};
