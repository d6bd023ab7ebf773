//! Words of 16 bits, the high byte first.
ghost use Rattle.std.specs.Prelude.{◌≡◌, ◌≤◌, ◌+◌, length};
ghost use Rattle.packet_fields.specs.Frames.{word as word_of};
ghost use Rattle.packet_fields.specs.Checksums.{word_bytes as word_bytes_of};

/// The word at place `at`, counted in bytes from 0.
pub fn word(bytes: &[u8], at: usize) -> u16
    requires { at + 2 ≤ length bytes.now }
    ensures { result ≡ word_of bytes.now at }
{
    u16::from(bytes[at]) * 256 + u16::from(bytes[at + 1])
}

/// A word as two bytes.
pub fn word_bytes(word: u16) -> [u8; 2]
    ensures { result ≡ word_bytes_of word }
{
    [(word / 256) as u8, (word % 256) as u8]
}
