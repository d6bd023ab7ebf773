//! Nats whose public addresses are odd.
ghost use Rattle.std.specs.Prelude.{◌≡◌, ◌++◌, ◌==◌, find, filter_map, codes, IfOk, OnOk};
ghost use Rattle.std.specs.List.{flat_map};
ghost use Rattle.std.specs.Option.{option_copied, option_to_list};
ghost use Rattle.policy_text.specs.Values.{address_of, prefix_of, range_of};
ghost use Rattle.policy_lint.specs.Nats.{sets, value_of, is_nat, nat_of, nats_of, inside_of, shares, shared_of, is_loose, told_nat, told_nats};

use crate::asking::{push_if, push_one};
use crate::finding::Finding;
use crate::rule_line::word_of;
use crate::spelling::bits_past;
use action_profile::Kind;
use item_list::Items;
use policy_text::{ChainPolicy, FunctionDecl, Setting, address, is_within, prefix, range};
use std::alloc::{AllocError, Global};

/// What the lines of a nat set. Addresses have their first byte in the highest bits.
#[derive(Clone, Copy)]
pub struct NatLines {
    pub inside_line: u32,
    /// The prefix inside, and how many of its bits count.
    pub prefix: u32,
    pub bits: u8,
    pub public_line: u32,
    pub public: u32,
    pub ports_line: u32,
    /// The first and the last of its public ports.
    pub low: u16,
    pub high: u16,
}

/// Adds the nats whose public address lies inside, or that share it and ports with one before.
#[tactic(auto, using(crate::proofs::Steps::begins, crate::proofs::Steps::ends))]
pub fn push_nats(
    alloc: Global,
    found: &mut Items<Finding>,
    chains: &[ChainPolicy],
) -> Result<(), AllocError>
    ensures { OnOk result (found.new ≡ found.old ++ told_nats chains.now) }
{
    let nats = nats_of(alloc, chains)?;
    let nats = nats.as_slice();
    'nats: for place in 0..nats.len() {
        push_one_nat(found, &nats[..place], nats[place])?;
    }
    Ok(())
}

fn push_one_nat(
    found: &mut Items<Finding>,
    before: &[NatLines],
    nat: NatLines,
) -> Result<(), AllocError>
    ensures { OnOk result (found.new ≡ found.old ++ told_nat before.now nat) }
{
    push_if(
        found,
        is_loose(nat),
        Finding::BitsPastLength {
            line: nat.inside_line,
        },
    )?;
    push_one(found, inside_of(nat))?;
    push_one(found, shared_of(before, nat))
}

// Has its prefix inside bits past its length that aren't 0?
fn is_loose(nat: NatLines) -> bool
    ensures { result ≡ is_loose nat }
{
    bits_past(nat.bits, nat.prefix) != 0
}

// All nats of the chains.
#[tactic(auto, using(crate::proofs::Steps::nats_more))]
fn nats_of(alloc: Global, chains: &[ChainPolicy]) -> Result<Items<NatLines>, AllocError>
    ensures { IfOk result (λ nats. nats ≡ nats_of chains.now) }
{
    let mut nats = Items::new(Vec::new(alloc));
    'chains: for place in 0..chains.len() {
        keep_nats(&mut nats, chains[place].functions.as_slice())?;
    }
    Ok(nats)
}

#[tactic(auto, using(crate::proofs::Steps::keeps_none, crate::proofs::Steps::keeps_all))]
/// Adds the nats of functions to others.
pub fn keep_nats(nats: &mut Items<NatLines>, functions: &[FunctionDecl]) -> Result<(), AllocError>
    ensures { OnOk result (nats.new ≡ nats.old ++ filter_map nat_of functions.now) }
{
    'functions: for place in 0..functions.len() {
        keep_nat(nats, nat_of(&functions[place]))?;
    }
    Ok(())
}

fn keep_nat(nats: &mut Items<NatLines>, nat: Option<NatLines>) -> Result<(), AllocError>
    ensures { OnOk result (nats.new ≡ nats.old ++ option_to_list nat) }
{
    if let Some(nat) = nat {
        nats.push(nat)?;
    }
    Ok(())
}

fn is_nat(kind: Kind) -> bool
    ensures { result ≡ is_nat kind }
{
    matches!(kind, Kind::Nat)
}

/// What the lines of a nat set, or nothing of another function.
pub fn nat_of(decl: &FunctionDecl) -> Option<NatLines>
    ensures { result ≡ nat_of decl.now }
{
    if !is_nat(decl.kind) {
        return None;
    }
    let (inside_line, (prefix, bits)) = inside_in(decl)?;
    let (public_line, public) = public_in(decl)?;
    let (ports_line, (low, high)) = ports_in(decl)?;
    Some(NatLines {
        inside_line,
        prefix,
        bits,
        public_line,
        public,
        ports_line,
        low,
        high,
    })
}

fn inside_in(decl: &FunctionDecl) -> Option<(u32, (u32, u8))>
    ensures { result ≡ value_of prefix_of (codes "inside") decl.now }
{
    let setting = setting_of(decl, b"inside")?;
    let value = prefix(word_of(setting.words.as_slice(), 2))?;
    Some((setting.line, value))
}

fn public_in(decl: &FunctionDecl) -> Option<(u32, u32)>
    ensures { result ≡ value_of address_of (codes "public") decl.now }
{
    let setting = setting_of(decl, b"public")?;
    let value = address(word_of(setting.words.as_slice(), 2))?;
    Some((setting.line, value))
}

fn ports_in(decl: &FunctionDecl) -> Option<(u32, (u16, u16))>
    ensures { result ≡ value_of range_of (codes "ports") decl.now }
{
    let setting = setting_of(decl, b"ports")?;
    let value = range(word_of(setting.words.as_slice(), 2))?;
    Some((setting.line, value))
}

/// The first `set` line of a key.
pub fn setting_of<'a>(decl: &'a FunctionDecl, key: &[u8]) -> Option<&'a Setting>
    ensures { option_copied result ≡ find (sets key.now) decl.now.settings }
{
    decl.settings
        .as_slice()
        .iter()
        .find(|setting| sets(key, setting))
}

fn sets(key: &[u8], setting: &Setting) -> bool
    ensures { result ≡ sets key.now setting.now }
{
    let words = setting.words.as_slice();
    word_of(words, 0) == b"set".as_slice() && word_of(words, 1) == key
}

fn inside_of(nat: NatLines) -> Option<Finding>
    ensures { result ≡ inside_of nat }
{
    if is_within(nat.prefix, nat.bits, nat.public) {
        Some(Finding::PublicInside {
            line: nat.public_line,
            inside: nat.inside_line,
        })
    } else {
        None
    }
}

fn shared_of(before: &[NatLines], nat: NatLines) -> Option<Finding>
    ensures { result ≡ shared_of before.now nat }
{
    let other = sharing(before, nat)?;
    Some(Finding::SharedPorts {
        line: nat.ports_line,
        by: other.ports_line,
    })
}

// The first of these that shares the public address and ports.
fn sharing(before: &[NatLines], nat: NatLines) -> Option<NatLines>
    ensures { result ≡ find (shares nat) before.now }
{
    before.iter().copied().find(|other| shares(nat, *other))
}

fn shares(nat: NatLines, other: NatLines) -> bool
    ensures { result ≡ shares nat other }
{
    nat.public == other.public && nat.low <= other.high && other.low <= nat.high
}
