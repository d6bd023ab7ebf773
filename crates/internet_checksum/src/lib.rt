//! The checksum of IP and of the protocols above it (RFC 1071): the complement of a sum of words of 16 bits, in one's
//! complement.
//!
//! [`checksum`] is the checksum of bytes in which the checksum field is still 0. [`sum_words`] and [`complement`] are
//! its two steps, for a caller whose bytes lie in several places. [`word`] reads a word, its high byte first, and
//! [`word_bytes`] writes it.
//!
//! The contracts promise that the checksum is `checksum_of` of `internet_checksum.specs.Checksums`, over the words and
//! the sum of `packet_fields.specs.Checksums`. [`a_checksum_makes_bytes_right`] says that bytes with their checksum are
//! right by that sum.
//!
//! Left out: how a checksum follows a change, which `packet_fields` has (`seal`), and which protocol has a checksum
//! where.
#![tactic(auto)]

mod laws;
mod sums;
mod words;

pub use laws::a_checksum_makes_bytes_right;
pub use sums::{checksum, complement, sum_words};
pub use words::{word, word_bytes};
