//! What a rule demands of a packet's IPv4 addresses, determined once, so that two comparisons rule out most packets
//! that don't meet it.
ghost use Rattle.std.specs.Prelude.{◌≡◌};
ghost use Rattle.policy_text.specs.declared.seen.Seen.{Seen};
ghost use Rattle.nf_filter.specs.Guards.{mask_of, prefix_of, covers, with_clause, guard_of, lets};

use policy_text::{Clause, Match, Seen};

/// The first bits of an IPv4 address. A mask of 0 demands nothing.
#[derive(Clone, Copy, Debug)]
pub(crate) struct Prefix {
    mask: u32,
    bits: u32,
}

/// What the clauses of a rule demand of the source and of the destination.
#[derive(Clone, Copy, Debug)]
pub(crate) struct Guard {
    source: Prefix,
    destination: Prefix,
}

impl Guard {
    ghost use Rattle.std.specs.Prelude.{◌≡◌};
    ghost use Rattle.nf_filter.specs.Guards.{with_clause, guard_of, lets};

    /// The guard of these clauses.
    pub(crate) fn of(fit: &Match) -> Guard
        ensures { result ≡ guard_of fit.now }
    {
        let nothing = Prefix { mask: 0, bits: 0 };
        let open = Guard {
            source: nothing,
            destination: nothing,
        };
        fit.clauses
            .as_slice()
            .iter()
            .fold(open, |guard, clause| guard.with(*clause))
    }

    // The guard with what one more clause demands.
    fn with(self, clause: Clause) -> Guard
        ensures { result ≡ with_clause self clause }
    {
        match clause {
            Clause::Src(prefix, bits) => Guard {
                source: prefix_of(prefix, bits),
                destination: self.destination,
            },
            Clause::Dst(prefix, bits) => Guard {
                source: self.source,
                destination: prefix_of(prefix, bits),
            },
            _ => self,
        }
    }

    /// May a packet with these values meet the clauses?
    #[inline(always)]
    pub(crate) fn lets(&self, seen: &Seen) -> bool
        ensures { result ≡ lets self.now seen.now }
    {
        covers(self.source, seen.src) && covers(self.destination, seen.dst)
    }
}

#[inline(always)]
fn covers(prefix: Prefix, address: Option<u32>) -> bool
    ensures { result ≡ covers prefix address }
{
    address.unwrap_or(0) & prefix.mask == prefix.bits
}

fn prefix_of(prefix: u32, bits: u8) -> Prefix
    ensures { result ≡ prefix_of prefix bits }
{
    let mask = mask_of(bits);
    Prefix {
        mask,
        bits: prefix & mask,
    }
}

fn mask_of(bits: u8) -> u32
    ensures { result ≡ mask_of bits }
{
    if bits == 0 {
        0
    } else if bits < 32 {
        u32::MAX << (32 - bits)
    } else {
        u32::MAX
    }
}
