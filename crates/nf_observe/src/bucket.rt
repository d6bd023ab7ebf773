//! Token buckets.

/// What a source may still send. At a rate of one byte a second, one token comes in each nanosecond, so a byte costs
/// 1,000,000,000 tokens.
#[derive(Clone, Copy, PartialEq, Eq, Debug)]
pub struct TokenBucket {
    pub tokens: u64,
    /// The time, in nanoseconds, up to which it was filled.
    pub moment: u64,
}

impl TokenBucket {
    ghost use Rattle.std.specs.Prelude.{◌≡◌};
    ghost use Rattle.nf_observe.specs.Buckets.{full, filled, affords, paid};

    /// A bucket with the tokens of `burst` bytes.
    pub fn full(burst: u32, time: u64) -> TokenBucket
        ensures { result ≡ full burst time }
    {
        TokenBucket {
            tokens: tokens_of(burst),
            moment: time,
        }
    }

    /// The bucket with the tokens that came since its moment at this rate, in bytes a second, but with no more than the
    /// tokens of a burst. They are counted in 128 bits and are fewer than 2^96.
    #[tactic(auto, using(crate::proofs::Widths::product_fits))]
    pub fn filled(self, rate: u32, burst: u32, time: u64) -> TokenBucket
        ensures { result ≡ filled rate burst time self }
    {
        if self.moment < time {
            let gained = u128::from(time - self.moment) * u128::from(rate);
            let tokens = (u128::from(self.tokens) + gained).min(u128::from(tokens_of(burst)));
            TokenBucket {
                tokens: tokens as u64,
                moment: time,
            }
        } else {
            self
        }
    }

    /// Does it have the tokens of `bytes` bytes?
    pub fn affords(self, bytes: u16) -> bool
        ensures { result ≡ affords self bytes }
    {
        tokens_of(u32::from(bytes)) <= self.tokens
    }

    /// The bucket after paying for `bytes` bytes, if it can.
    pub fn paid(self, bytes: u16) -> TokenBucket
        ensures { result ≡ paid self bytes }
    {
        if self.affords(bytes) {
            TokenBucket {
                tokens: self.tokens - tokens_of(u32::from(bytes)),
                ..self
            }
        } else {
            self
        }
    }
}

ghost use Rattle.std.specs.Prelude.{◌≡◌};
ghost use Rattle.nf_observe.specs.Buckets.{tokens_of};

// The tokens of `bytes` bytes, which are fewer than 2^62.
fn tokens_of(bytes: u32) -> u64
    ensures { result ≡ tokens_of bytes }
{
    u64::from(bytes) * 1_000_000_000
}
