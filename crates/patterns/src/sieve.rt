//! Which of many patterns may occur in a payload, found in one pass over it.
//!
//! Patterns are in 64 groups, each of which is a bit of a word. Two to four bytes in a row are a window. A window has
//! two hashes, each of which selects a word of a table, and in both words the bits are set of the groups that have this
//! window in a pattern: a Bloom filter for each group. Of each pattern the windows at its first places are marked, as
//! many as the stride. Every occurrence has one of these windows at a place that the stride divides, so a pass looks
//! only at those places.
ghost use Rattle.std.specs.Prelude.{◌≡◌, ◌+◌, ◌*◌, ◌<◌, ◌≤◌, ℕ, length, slice_index, count_by, nat_lt};
ghost use Rattle.std.specs.Int.{bit_at};
ghost use Rattle.patterns.specs.Sieving.{near_slot, far_slot, groups_of, Grows, HasWindows, IsMarked, IsSieveOf};
ghost use Rattle.patterns.specs.Windows.{bytes_of, window_at};

use crate::pattern::Pattern;
use crate::width::Width;
use std::alloc::{AllocError, Global};

/// The number of groups: the bits of a word.
pub(crate) const GROUPS: usize = 64;

/// The number of patterns that may be too short for a window. They are always searched for.
const FEW: usize = 4;

/// The number of words of a table.
const SLOTS: usize = 4_096;

/// The longest stride. With a longer one the start of a pass takes longer than it saves.
const LONGEST_STRIDE: usize = 8;

/// The golden ratio by 2^32 (Knuth, The Art of Computer Programming, 6.4): the middle of a product with it depends on all bits of a window.
const SPREAD: u64 = 2_654_435_761;

/// The windows of patterns, by which a pass over a payload finds which of the patterns may occur.
#[derive(Debug, Drop)]
pub(crate) struct Sieve {
    /// The number of bytes that are looked up at each place.
    width: Width,
    /// The distance between the places at which a pass looks.
    stride: usize,
    /// The groups with a pattern that is too short for `stride` windows.
    short: u64,
    /// For each slot, the groups of the windows that have it.
    table: Vec<u64>,
    ghost steps: { 0 < stride },
    ghost full: { length table.items ≡ 4096 },
}

impl Sieve {
    ghost use Rattle.std.specs.Prelude.{◌≡◌, ◌+◌, ◌*◌, ◌<◌, ◌≤◌, ℕ, IfOk};
    ghost use Rattle.patterns.specs.Sieving.{IsSieveOf, Tells};

    /// The sieve of these patterns.
    pub(crate) fn of(alloc: Global, patterns: &[Pattern]) -> Result<Sieve, AllocError>
        ensures { IfOk result (λ sieve. IsSieveOf sieve.width sieve.stride sieve.short sieve.table.items patterns.now) }
    {
        let width = width_of(patterns);
        let stride = stride_of(patterns, width);
        let mut table = vec![in alloc; 0; SLOTS]?;
        let short = mark_all(&mut table, patterns, width, stride);
        Ok(Sieve {
            width,
            stride,
            short,
            table,
        })
    }

    /// The groups of which a pattern may occur in the payload.
    pub(crate) fn groups_in(&self, payload: &[u8]) -> u64
        ensures { Tells self.now.width self.now.stride self.now.short self.now.table.items payload.now result }
    {
        let table = self.table.as_slice();
        let (width, stride) = (self.width, self.stride);
        let mut groups = self.short;
        'turns: for turn in 0..turns(payload.len(), width.bytes(), stride) {
            groups |= groups_of(table, width.window_at(payload, turn * stride));
        }
        groups
    }
}

/// The number of places that the stride divides and at which a window of this width lies within `len` bytes.
fn turns(len: usize, width: usize, stride: usize) -> usize
    requires stride { 0 < stride }
    requires width { 0 < width }
    ensures within { (turn : ℕ) → turn < result → turn * stride + width ≤ len }
    ensures all { (turn : ℕ) → turn * stride + width ≤ len → turn < result }
{
    if len < width {
        0
    } else {
        (len - width) / stride + 1
    }
}

/// The greatest width for which few patterns are too short.
fn width_of(patterns: &[Pattern]) -> Width {
    if shorter_than(patterns, 4) <= FEW {
        Width::Four
    } else if shorter_than(patterns, 3) <= FEW {
        Width::Three
    } else {
        Width::Two
    }
}

fn shorter_than(patterns: &[Pattern], len: usize) -> usize
    ensures { result ≡ count_by (λ pattern. nat_lt (length pattern) len) patterns.now }
{
    patterns
        .iter()
        .filter(|pattern| pattern.bytes().len() < len)
        .count()
}

/// The longest stride at which every pattern with a window has enough windows, up to the limit.
fn stride_of(patterns: &[Pattern], width: Width) -> usize
    ensures some { 0 < result }
    ensures short { result ≤ 8 }
{
    let width = width.bytes();
    let mut stride = LONGEST_STRIDE;
    'patterns: for pattern in patterns {
        let len = pattern.bytes().len();
        if len >= width {
            stride = stride.min(len - width + 1);
        }
    }
    stride
}

/// Marks the windows of patterns in a table, and returns the groups of those that are too short for `stride` windows.
fn mark_all(table: &mut [u64], patterns: &[Pattern], width: Width, stride: usize) -> u64
    requires full { length table.old ≡ 4096 }
    requires stride { stride ≤ 8 }
    ensures { IsSieveOf width stride result table.new patterns.now }
{
    let mut short = 0;
    'patterns: for place in 0..patterns.len() {
        short |= mark_pattern(
            table,
            patterns[place].bytes(),
            width,
            stride,
            place % GROUPS,
        );
    }
    short
}

/// Marks the windows of a pattern for its group, or returns the group if it is too short for `stride` windows.
fn mark_pattern(table: &mut [u64], bytes: &[u8], width: Width, stride: usize, group: usize) -> u64
    requires full { length table.old ≡ 4096 }
    requires stride { stride ≤ 8 }
    requires group { group < 64 }
    ensures grows { Grows table.old table.new }
    ensures marked { IsMarked width stride result table.new bytes.now group }
{
    if bytes.len() + 1 < stride + width.bytes() {
        return 1 << group;
    }
    mark_windows(table, bytes, width, stride, group);
    0
}

fn mark_windows(table: &mut [u64], bytes: &[u8], width: Width, stride: usize, group: usize)
    requires full { length table.old ≡ 4096 }
    requires long { stride + bytes_of width ≤ length bytes.now + 1 }
    requires group { group < 64 }
    ensures grows { Grows table.old table.new }
    ensures windows { HasWindows width stride table.new bytes.now group }
{
    'offsets: for offset in 0..stride {
        mark(table, width.window_at(bytes, offset), group);
    }
}

fn mark(table: &mut [u64], window: u32, group: usize)
    requires full { length table.old ≡ 4096 }
    requires group { group < 64 }
    ensures grows { Grows table.old table.new }
    ensures marked { bit_at (groups_of table.new window) group ≡ 1 }
{
    mark_slot(table, near_slot(window), group);
    mark_slot(table, far_slot(window), group);
}

fn mark_slot(table: &mut [u64], slot: usize, group: usize)
    requires within { slot < length table.old }
    requires group { group < 64 }
    ensures grows { Grows table.old table.new }
    ensures marked { bit_at (slice_index table.new slot) group ≡ 1 }
{
    table[slot] |= 1 << group;
}

/// The groups that have a window, possibly with a few more.
#[inline(always)]
#[tactic(auto, unfolding(crate::specs::Sieving::groups_of))]
fn groups_of(table: &[u64], window: u32) -> u64
    requires { length table.now ≡ 4096 }
    ensures { result ≡ groups_of table.now window }
{
    table[near_slot(window)] & table[far_slot(window)]
}

#[inline(always)]
#[tactic(auto, unfolding(crate::specs::Sieving::near_slot))]
fn near_slot(window: u32) -> usize
    ensures slot { result ≡ near_slot window }
    ensures within { result < 4096 }
{
    (u64::from(window) * SPREAD / 1_048_576 % 4_096) as usize
}

#[inline(always)]
#[tactic(auto, unfolding(crate::specs::Sieving::far_slot))]
fn far_slot(window: u32) -> usize
    ensures slot { result ≡ far_slot window }
    ensures within { result < 4096 }
{
    (u64::from(window) * SPREAD / 4_294_967_296 % 4_096) as usize
}
