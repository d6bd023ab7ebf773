// What a list of bytes weighs, without the bytes.
ghost use Rattle.std.specs.Prelude.{◌≡◌, ◌≤◌, ◌<◌, ◌+◌, ◌-◌, ◌^◌, ◌++◌, ℕ, List, MatchOption, length};
ghost use Rattle.nfp_outside.specs.Weights.{weight_of, no_weight, with_byte, heavier};

/// The length of a list of bytes, and its weight: the sum over its bytes of place, counted from 1, times byte, modulo
/// 2^64. It tells apart lists that differ in one byte, without holding them.
#[derive(Clone, Copy, Debug, PartialEq, Eq)]
pub struct Weight {
    pub bytes: u64,
    pub sum: u64,
}

impl Weight {
    /// The weight of the empty list.
    pub fn none() -> Self
        ensures { result ≡ no_weight }
    {
        Weight { bytes: 0, sum: 0 }
    }

    /// The weight with these bytes after those that were weighed; `None` exactly if their count would exceed the
    /// maximum of `u64`.
    pub fn with(self, more: &[u8]) -> Option<Weight>
        ensures { MatchOption result (2 ^ 64 ≤ self.bytes + length more.now)
            (λ w. w ≡ heavier more.now self) }
    {
        self.bytes.checked_add(more.len() as u64)?;
        let mut weight = self;
        for byte in more {
            weight = weight.with_byte(*byte);
        }
        Some(weight)
    }

    // The weight with one more byte at the end.
    fn with_byte(self, byte: u8) -> Weight
        requires { self.bytes < 2 ^ 64 - 1 }
        ensures { result ≡ with_byte self byte }
    {
        let place = self.bytes + 1;
        Weight {
            bytes: place,
            sum: self.sum.wrapping_add(place.wrapping_mul(u64::from(byte))),
        }
    }
}

/// A law: a list that is weighed piece by piece has the weight of the whole list.
#[tactic(auto, using(crate::specs::Adding::heavier_more, crate::proofs::Weighing::heavier_none))]
pub fn weights_add_up()
    ensures joined { (a b : List ℕ) (w : Weight) → heavier b (heavier a w) ≡ heavier (a ++ b) w }
    ensures whole { (bytes : List ℕ) → heavier bytes no_weight ≡ weight_of bytes }
{}
