//! Which clauses leave nothing for others.
ghost use Rattle.std.specs.Prelude.{◌≡◌};
ghost use Rattle.std.specs.List.{list_any};
ghost use Rattle.policy_lint.specs.Implying.{lies_in, lies_in6, is_part, asks_more, implies, covers};

use policy_text::{Clause, Match, is_within, is_within6};

/// Does whatever meets the later clauses meet the earlier? Each of the earlier has to be implied by one of the later.
pub fn covers(earlier: &Match, later: &Match) -> bool
    ensures { result ≡ covers earlier.now later.now }
{
    earlier
        .clauses
        .as_slice()
        .iter()
        .all(|clause| is_implied(later, clause))
}

fn is_implied(later: &Match, clause: &Clause) -> bool
    ensures { result ≡ list_any (λ c. implies c clause.now) later.now.clauses }
{
    later.clauses.as_slice().iter().any(|c| implies(c, clause))
}

// Does what meets the first clause meet the second?
fn implies(clause: &Clause, other: &Clause) -> bool
    ensures { result ≡ implies clause.now other.now }
{
    match (*clause, *other) {
        (Clause::Src(prefix, bits), Clause::Src(wide, count)) => lies_in(prefix, bits, wide, count),
        (Clause::Dst(prefix, bits), Clause::Dst(wide, count)) => lies_in(prefix, bits, wide, count),
        (Clause::Src6(prefix, bits), Clause::Src6(wide, count)) => {
            lies_in6(prefix, bits, wide, count)
        }
        (Clause::Dst6(prefix, bits), Clause::Dst6(wide, count)) => {
            lies_in6(prefix, bits, wide, count)
        }
        (Clause::Sport(low, high), Clause::Sport(least, greatest)) => {
            is_part(low, high, least, greatest)
        }
        (Clause::Dport(low, high), Clause::Dport(least, greatest)) => {
            is_part(low, high, least, greatest)
        }
        (Clause::Proto(protocol), Clause::Proto(other)) => protocol == other,
        (Clause::TagId(id), Clause::TagId(other)) => id == other,
        (Clause::NoTag, Clause::NoTag) => true,
        (Clause::Version4, Clause::Version4) => true,
        (Clause::Version6, Clause::Version6) => true,
        (Clause::Flags(mask, set), Clause::Flags(fewer, some)) => {
            asks_more(mask, set, fewer, some)
        }
        _ => false,
    }
}

/// Does the prefix lie in the other?
pub fn lies_in(prefix: u32, bits: u8, other: u32, count: u8) -> bool
    ensures { result ≡ lies_in prefix bits other count }
{
    count <= bits && is_within(other, count, prefix)
}

/// The same of IPv6.
pub fn lies_in6(prefix: u128, bits: u8, other: u128, count: u8) -> bool
    ensures { result ≡ lies_in6 prefix bits other count }
{
    count <= bits && is_within6(other, count, prefix)
}

// Does the first range lie in the second?
fn is_part(low: u16, high: u16, least: u16, greatest: u16) -> bool
    ensures { result ≡ is_part low high least greatest }
{
    least <= low && high <= greatest
}

// Do the first flags ask for all that the second ask for?
fn asks_more(mask: u8, set: u8, fewer: u8, some: u8) -> bool
    ensures { result ≡ asks_more mask set fewer some }
{
    mask & fewer == fewer && set & fewer == some
}
