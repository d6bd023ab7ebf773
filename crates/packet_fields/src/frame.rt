//! A frame, which contracts see as its bytes.
ghost use Rattle.std.specs.Prelude.{◌≡◌};

use std::marker::Model;

/// The captured bytes of a packet, from the destination's link address on.
#[derive(Drop)]
pub struct Frame {
    captured: Vec<u8>,
}

impl Model for Frame {
    ghost use Rattle.std.specs.Prelude.{List, ℕ};

    ghost Value = { List ℕ };

    ghost view = { λ f. f.captured.items };
}

impl Frame {
    /// The frame of these bytes.
    pub fn new(bytes: Vec<u8>) -> Self
        ensures { result ≡ bytes.items }
    {
        Frame { captured: bytes }
    }

    /// The frame's bytes.
    pub fn bytes(&self) -> &[u8]
        ensures { result.now ≡ self.now }
    {
        &self.captured
    }

    /// Returns the bytes, without a copy.
    pub fn into_bytes(self) -> Vec<u8>
        ensures { result.items ≡ self }
    {
        self.captured
    }
}
