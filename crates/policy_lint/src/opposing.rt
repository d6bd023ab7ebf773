//! Clauses that exclude each other.
ghost use Rattle.std.specs.Prelude.{◌≡◌};
ghost use Rattle.policy_lint.specs.Opposing.{has_ports, are_apart, are_apart6, are_parted, are_contrary, opposes, is_opposed, clash};

use crate::covering::{lies_in, lies_in6};
use policy_text::{Clause, Match};

/// Does no packet meet all of the clauses, since two of them exclude each other?
pub fn clash(fit: &Match) -> bool
    ensures { result ≡ clash fit.now }
{
    let clauses = fit.clauses.as_slice();
    clauses.iter().any(|clause| is_opposed(clauses, *clause))
}

/// Does one of these clauses exclude the clause?
pub fn is_opposed(clauses: &[Clause], clause: Clause) -> bool
    ensures { result ≡ is_opposed clauses.now clause }
{
    clauses.iter().any(|other| opposes(clause, *other))
}

/// Does no packet meet both?
pub fn opposes(clause: Clause, other: Clause) -> bool
    ensures { result ≡ opposes clause other }
{
    match (clause, other) {
        (Clause::Src(prefix, bits), Clause::Src(other, count)) => {
            are_apart(prefix, bits, other, count)
        }
        (Clause::Src(_, _), Clause::Src6(_, _)) => true,
        (Clause::Src(_, _), Clause::Dst6(_, _)) => true,
        (Clause::Dst(prefix, bits), Clause::Dst(other, count)) => {
            are_apart(prefix, bits, other, count)
        }
        (Clause::Dst(_, _), Clause::Src6(_, _)) => true,
        (Clause::Dst(_, _), Clause::Dst6(_, _)) => true,
        (Clause::Src6(prefix, bits), Clause::Src6(other, count)) => {
            are_apart6(prefix, bits, other, count)
        }
        (Clause::Src6(_, _), Clause::Src(_, _)) => true,
        (Clause::Src6(_, _), Clause::Dst(_, _)) => true,
        (Clause::Dst6(prefix, bits), Clause::Dst6(other, count)) => {
            are_apart6(prefix, bits, other, count)
        }
        (Clause::Dst6(_, _), Clause::Src(_, _)) => true,
        (Clause::Dst6(_, _), Clause::Dst(_, _)) => true,
        (Clause::Sport(low, high), Clause::Sport(least, greatest)) => {
            are_parted(low, high, least, greatest)
        }
        (Clause::Sport(_, _), Clause::Proto(protocol)) => !has_ports(protocol),
        (Clause::Dport(low, high), Clause::Dport(least, greatest)) => {
            are_parted(low, high, least, greatest)
        }
        (Clause::Dport(_, _), Clause::Proto(protocol)) => !has_ports(protocol),
        (Clause::Proto(protocol), Clause::Sport(_, _)) => !has_ports(protocol),
        (Clause::Proto(protocol), Clause::Dport(_, _)) => !has_ports(protocol),
        (Clause::Proto(protocol), Clause::Proto(other)) => protocol != other,
        (Clause::TagId(id), Clause::TagId(other)) => id != other,
        (Clause::TagId(_), Clause::NoTag) => true,
        (Clause::NoTag, Clause::TagId(_)) => true,
        (Clause::Version4, Clause::Version6) => true,
        (Clause::Version4, Clause::Src6(_, _)) => true,
        (Clause::Version4, Clause::Dst6(_, _)) => true,
        (Clause::Version6, Clause::Version4) => true,
        (Clause::Version6, Clause::Src(_, _)) => true,
        (Clause::Version6, Clause::Dst(_, _)) => true,
        (Clause::Src(_, _), Clause::Version6) => true,
        (Clause::Dst(_, _), Clause::Version6) => true,
        (Clause::Src6(_, _), Clause::Version4) => true,
        (Clause::Dst6(_, _), Clause::Version4) => true,
        (Clause::Flags(mask, set), Clause::Flags(other, some)) => {
            are_contrary(mask, set, other, some)
        }
        (Clause::Flags(_, _), Clause::Proto(protocol)) => protocol != 6,
        (Clause::Proto(protocol), Clause::Flags(_, _)) => protocol != 6,
        _ => false,
    }
}

fn has_ports(protocol: u8) -> bool
    ensures { result ≡ has_ports protocol }
{
    protocol == 6 || protocol == 17
}

/// Do the prefixes share no address?
pub fn are_apart(prefix: u32, bits: u8, other: u32, count: u8) -> bool
    ensures { result ≡ are_apart prefix bits other count }
{
    !lies_in(prefix, bits, other, count) && !lies_in(other, count, prefix, bits)
}

fn are_apart6(prefix: u128, bits: u8, other: u128, count: u8) -> bool
    ensures { result ≡ are_apart6 prefix bits other count }
{
    !lies_in6(prefix, bits, other, count) && !lies_in6(other, count, prefix, bits)
}

// Do the ranges share no port?
fn are_parted(low: u16, high: u16, least: u16, greatest: u16) -> bool
    ensures { result ≡ are_parted low high least greatest }
{
    high < least || greatest < low
}

// Does some bit have to be 1 in the one and 0 in the other?
fn are_contrary(mask: u8, set: u8, other: u8, some: u8) -> bool
    ensures { result ≡ are_contrary mask set other some }
{
    set & other != some & mask
}
