//! The number of bytes of a payload that are looked up together.
ghost use Rattle.std.specs.Prelude.{◌≡◌};
ghost use Rattle.patterns.specs.Windows.{bytes_of, mask_of, four_at, window_at};

/// The width of windows, in bytes.
#[derive(Clone, Copy, Debug)]
pub(crate) enum Width {
    Two,
    Three,
    Four,
}

impl Width {
    ghost use Rattle.std.specs.Prelude.{◌≡◌, ◌≤◌, length};
    ghost use Rattle.patterns.specs.Windows.{bytes_of, mask_of, window_at};

    /// The number of bytes of a window.
    pub(crate) fn bytes(self) -> usize
        ensures { result ≡ bytes_of self }
    {
        match self {
            Width::Two => 2,
            Width::Three => 3,
            Width::Four => 4,
        }
    }

    // The bits of a window in four bytes, of which the first is the lowest.
    #[inline(always)]
    fn mask(self) -> u32
        ensures { result ≡ mask_of self }
    {
        match self {
            Width::Two => 0xffff,
            Width::Three => 0xff_ffff,
            Width::Four => 0xffff_ffff,
        }
    }

    /// The window at a place, as a number.
    #[inline(always)]
    #[tactic(auto, unfolding(crate::specs::Windows::window_at))]
    pub(crate) fn window_at(self, bytes: &[u8], place: usize) -> u32
        requires { place ≤ length bytes.now }
        ensures { result ≡ window_at self bytes.now place }
    {
        four_at(bytes, place) & self.mask()
    }
}

ghost use Rattle.std.specs.Prelude.{◌≤◌, ◌+◌, length, slice_index};

/// The four bytes from a place on, as a number. Bytes past the end count as 0.
#[inline(always)]
#[tactic(auto, unfolding(crate::specs::Windows::four_at))]
fn four_at(bytes: &[u8], place: usize) -> u32
    requires { place ≤ length bytes.now }
    ensures { result ≡ four_at bytes.now place }
{
    if place + 4 <= bytes.len() {
        u32::from_le_bytes([
            bytes[place],
            bytes[place + 1],
            bytes[place + 2],
            bytes[place + 3],
        ])
    } else {
        four_at_end(bytes, place)
    }
}

#[cold]
#[tactic(auto, unfolding(crate::specs::Windows::four_at))]
fn four_at_end(bytes: &[u8], place: usize) -> u32
    requires { place ≤ length bytes.now }
    ensures { result ≡ four_at bytes.now place }
{
    u32::from_le_bytes([
        byte_at(bytes, place),
        byte_at(bytes, place + 1),
        byte_at(bytes, place + 2),
        byte_at(bytes, place + 3),
    ])
}

fn byte_at(bytes: &[u8], place: usize) -> u8
    ensures { result ≡ slice_index bytes.now place }
{
    match bytes.get(place) {
        Some(byte) => *byte,
        None => 0,
    }
}
