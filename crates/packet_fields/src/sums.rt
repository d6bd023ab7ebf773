//! Checksums in one's complement (RFC 1071), and how they follow a change (RFC 1624).
ghost use Rattle.std.specs.Prelude.{◌≡◌, ◌≤◌, ◌<◌, ◌+◌, ◌*◌, ◌-◌, ◌^◌, ◌==◌, ◌||◌, not, false, if◌then◌else◌, length};
ghost use Rattle.packet_fields.specs.Checksums.{words, folded as folded_of, change_sum, is_changed};

use crate::packet::word;

/// What the words that differ add to a checksum.
#[derive(Clone, Copy)]
pub struct Change {
    /// The sum of `~m + m'` over each word `m` that became `m'`.
    pub sum: u64,
    /// Does a word differ at all?
    pub is_some: bool,
}

impl Change {
    /// No word differs.
    pub const fn none() -> Self
        ensures { result ≡ record { sum = 0; is_some = false } }
    {
        Change {
            sum: 0,
            is_some: false,
        }
    }

    /// The change in which one more word is `new` and was `old`.
    fn with_word(self, old: u16, new: u16) -> Self
        requires { self.sum < 2 ^ 40 }
        ensures sum { result.sum ≡ self.sum + (if old == new then 0 else (0xffff - old) + new) }
        ensures is_some { result.is_some ≡ (self.is_some || not (old == new)) }
        ensures bound { result.sum ≤ self.sum + 131070 }
    {
        if old == new {
            return self;
        }
        Change {
            sum: self.sum + u64::from(u16::MAX - old) + u64::from(new),
            is_some: true,
        }
    }

    /// The change in which these bytes too are `new` and were `old`.
    pub fn with_bytes(self, old: &[u8], new: &[u8]) -> Self
        requires same { length old.now ≡ length new.now }
        requires short { length old.now ≤ 2 ^ 17 }
        requires room { self.sum < 2 ^ 36 }
        ensures sum { result.sum ≡ self.sum + change_sum (words old.now) (words new.now) }
        ensures is_some { result.is_some ≡ (self.is_some || is_changed (words old.now) (words new.now)) }
        ensures bound { result.sum ≤ self.sum + 65536 * length old.now + 65536 }
    {
        let mut change = self;
        let mut old_rest = old;
        let mut new_rest = new;
        'words: while old_rest.len() >= 2 {
            change = change.with_word(word(old_rest, 0), word(new_rest, 0));
            old_rest = &old_rest[2..];
            new_rest = &new_rest[2..];
        }
        if old_rest.len() == 1 {
            return change.with_word(u16::from(old_rest[0]) * 256, u16::from(new_rest[0]) * 256);
        }
        change
    }

    /// The same for data, which may be long and rarely changes: to compare it is far cheaper than to sum it.
    #[inline(always)]
    pub fn with_data(self, old: &[u8], new: &[u8]) -> Self
        requires same { length old.now ≡ length new.now }
        requires short { length old.now ≤ 2 ^ 17 }
        requires room { self.sum < 2 ^ 36 }
        ensures sum { result.sum ≡ self.sum + change_sum (words old.now) (words new.now) }
        ensures is_some { result.is_some ≡ (self.is_some || is_changed (words old.now) (words new.now)) }
        ensures bound { result.sum ≤ self.sum + 65536 * length old.now + 65536 }
    {
        if old == new {
            return self;
        }
        self.with_bytes(old, new)
    }

    /// A checksum after the change.
    pub fn applied(self, checksum: u16) -> u16
        requires { self.sum < 2 ^ 40 }
        ensures { result ≡ (if self.is_some then 0xffff - folded_of ((0xffff - checksum) + self.sum) else checksum) }
    {
        if self.is_some {
            u16::MAX - folded(u64::from(u16::MAX - checksum) + self.sum)
        } else {
            checksum
        }
    }
}

/// A sum with each carry out of 16 bits added back at the low end.
fn folded(sum: u64) -> u16
    ensures { result ≡ folded_of sum }
{
    let mut rest = sum;
    'carries: while rest > 0xffff {
        rest = rest % 0x1_0000 + rest / 0x1_0000;
    }
    rest as u16
}
