//! The checksum of bytes (RFC 1071).
ghost use Rattle.std.specs.Prelude.{◌≡◌, ◌<◌, ◌-◌, ◌^◌, length, sum};
ghost use Rattle.packet_fields.specs.Checksums.{words, folded};
ghost use Rattle.internet_checksum.specs.Checksums.{checksum_of};

use crate::words::word;

/// The checksum of bytes in which the checksum field is 0.
#[tactic(auto, unfolding(crate::specs::Checksums::checksum_of))]
pub fn checksum(bytes: &[u8]) -> u16
    requires { length bytes.now < 2 ^ 32 }
    ensures { result ≡ checksum_of bytes.now }
{
    complement(sum_words(bytes))
}

/// The sum of bytes as words of 16 bits, the high byte first; a last odd byte is the high byte of a word.
pub fn sum_words(bytes: &[u8]) -> u64
    requires { length bytes.now < 2 ^ 32 }
    ensures value { result ≡ sum (words bytes.now) }
    ensures bound { result < 2 ^ 48 }
{
    let mut sum = 0;
    let mut rest = bytes;
    'words: while rest.len() >= 2 {
        sum += u64::from(word(rest, 0));
        rest = &rest[2..];
    }
    if rest.len() == 1 {
        return sum + u64::from(rest[0]) * 256;
    }
    sum
}

/// The complement of a sum in one's complement.
pub fn complement(sum: u64) -> u16
    ensures { result ≡ 0xffff - folded sum }
{
    if sum == 0 {
        return u16::MAX;
    }
    u16::MAX - ((sum - 1) % 0xffff + 1) as u16
}
