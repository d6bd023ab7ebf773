use capture_bytes::{Endian, Unit};
use thiserror::Error;

/// The head of a capture.
#[derive(Clone, Copy, Debug, PartialEq, Eq)]
pub struct CaptureHead {
    /// The order of all numbers.
    pub order: Endian,
    /// The unit of the fractions.
    pub unit: Unit,
    /// The time zone's correction, as read; it is kept and not used.
    pub zone: u32,
    /// The accuracy of the times, as read; it is kept and not used.
    pub sigfigs: u32,
    /// The longest captured length that the capture claims; longer ones are accepted.
    pub snaplen: u32,
}

/// Why a capture isn't read further. Records are counted from 1.
#[derive(Clone, Copy, Debug, PartialEq, Eq, Error)]
pub enum CaptureFault {
    /// The first four bytes aren't a magic number in either order.
    #[error("no magic number")]
    BadMagic,
    /// The version isn't 2.4.
    #[error("the version isn't 2.4")]
    BadVersion,
    /// The link type isn't Ethernet, but this one.
    #[error("the link type is {0}, and not Ethernet")]
    BadLink(u32),
    /// There are fewer than the 24 bytes of a head.
    #[error("the head is cut")]
    CutHead,
    /// The capture ends inside this record.
    #[error("record {0} is cut")]
    CutRecord(u32),
    /// The record (first number) claims a captured length above 262,144 (second number).
    #[error("the frame of record {0} has {1} bytes")]
    FrameTooLong(u32, u32),
    /// More follows after 4,294,967,295 records.
    #[error("too many records")]
    TooManyRecords,
}
