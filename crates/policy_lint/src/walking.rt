//! What is odd in a function by the functions before it in the order of its chain. A place is that of a function as declared, counted from 0.
ghost use Rattle.std.specs.Prelude.{◌≡◌, ◌++◌, ◌==◌, [], find, reverse, slice_get, codes, IfOk, OnOk};
ghost use Rattle.std.specs.List.{list_any};
ghost use Rattle.std.specs.Option.{option_copied, option_to_list};
ghost use Rattle.std.specs.Str.{bytes_eq};
ghost use Rattle.policy_lint.specs.Patterns.{text_of};
ghost use Rattle.policy_text.specs.Addresses6.{address6_of};
ghost use Rattle.policy_text.specs.Values.{address_of};
ghost use Rattle.policy_lint.specs.Behind.{is_at};
ghost use Rattle.policy_lint.specs.Gathering.{gathered};
ghost use Rattle.policy_lint.specs.Nats.{value_of};
ghost use Rattle.policy_lint.specs.Walking.{rewrites, is_rewritten, is_excluding, is_excluded, has_excluded, is_balancer, told_vip, vip4, vip6, told_balancer, asks_inside, rewrites_source, told_source, is_encap, misses, is_hidden, hides, last_whole, told_hidden_at, told_hidden, is_redactor, is_signature, redacts, is_erasable, told_redacted, told_signature, told_plain_rule, told_plain, told_behind_whole, told_step, told_place, walked};

use crate::asking::{push_if, push_one};
use crate::behind::{has_whole, is_whole_at, line_at};
use crate::covering::lies_in;
use crate::finding::Finding;
use crate::nats::{NatLines, nat_of, setting_of};
use crate::opposing::opposes;
use crate::patterns::text_of;
use crate::rule_line::{RuleLine, rules_of, word_of};
use action_profile::{Kind, profile};
use item_list::Items;
use packet_fields::Field;
use policy_text::{ChainPolicy, Clause, FunctionDecl, Setting, address, address6, is_within};
use std::alloc::{AllocError, Global};

/// Adds what is odd in the functions of a chain of this order by what is before them.
#[tactic(auto, using(crate::proofs::Steps::begins, crate::proofs::Steps::ends))]
pub fn push_walked(
    alloc: Global,
    found: &mut Items<Finding>,
    chain: &ChainPolicy,
    order: &[u32],
) -> Result<(), AllocError>
    ensures { OnOk result (found.new ≡ found.old ++ walked chain.now order.now) }
{
    'order: for at in 0..order.len() {
        push_place(alloc, found, chain, &order[..at], order[at])?;
    }
    Ok(())
}

fn push_place(
    alloc: Global,
    found: &mut Items<Finding>,
    chain: &ChainPolicy,
    before: &[u32],
    place: u32,
) -> Result<(), AllocError>
    ensures { OnOk result (found.new ≡ found.old ++ told_place chain.now before.now place) }
{
    match decl_at(chain.functions.as_slice(), place) {
        Some(decl) => push_step(alloc, found, chain, before, decl),
        None => Ok(()),
    }
}

// The function at a place.
fn decl_at(functions: &[FunctionDecl], place: u32) -> Option<&FunctionDecl>
    ensures { option_copied result ≡ slice_get functions.now place }
{
    functions.get(place as usize)
}

fn push_step(
    alloc: Global,
    found: &mut Items<Finding>,
    chain: &ChainPolicy,
    before: &[u32],
    decl: &FunctionDecl,
) -> Result<(), AllocError>
    ensures { OnOk result (found.new ≡ found.old ++ told_step chain.now before.now decl.now) }
{
    if has_whole(chain.functions.as_slice(), before) {
        push_behind_whole(alloc, found, chain, before, decl)
    } else {
        push_plain(alloc, found, chain, before, decl)
    }
}

fn push_plain(
    alloc: Global,
    found: &mut Items<Finding>,
    chain: &ChainPolicy,
    before: &[u32],
    decl: &FunctionDecl,
) -> Result<(), AllocError>
    ensures { OnOk result (found.new ≡ found.old ++ told_plain chain.now before.now decl.now) }
{
    let rules = rules_of(alloc, decl)?;
    push_plain_rules(found, chain, before, rules.as_slice())?;
    push_balancer(found, chain, before, decl)?;
    push_signature(found, chain, before, decl)
}

#[tactic(auto, using(crate::proofs::Steps::begins, crate::proofs::Steps::ends))]
fn push_plain_rules(
    found: &mut Items<Finding>,
    chain: &ChainPolicy,
    before: &[u32],
    rules: &[RuleLine],
) -> Result<(), AllocError>
    ensures { OnOk result (found.new ≡ found.old ++ gathered (λ others r. told_plain_rule chain.now before.now r) [] rules.now) }
{
    'rules: for place in 0..rules.len() {
        push_plain_rule(found, chain, before, &rules[place])?;
    }
    Ok(())
}

fn push_plain_rule(
    found: &mut Items<Finding>,
    chain: &ChainPolicy,
    before: &[u32],
    rule: &RuleLine,
) -> Result<(), AllocError>
    ensures { OnOk result (found.new ≡ found.old ++ told_plain_rule chain.now before.now rule.now) }
{
    let is_excluded = has_excluded(chain, before, rule.fit.clauses.as_slice());
    let line = rule.line;
    let by = chain.line;
    push_if(found, is_excluded, Finding::MatchExcludes { line, by })?;
    push_one(found, told_source(chain, before, rule))
}

fn has_excluded(chain: &ChainPolicy, before: &[u32], clauses: &[Clause]) -> bool
    ensures { result ≡ has_excluded chain.now before.now clauses.now }
{
    clauses
        .iter()
        .any(|clause| is_excluded(chain, before, *clause))
}

// Does a clause of the chain's match that still holds after these places exclude the clause?
fn is_excluded(chain: &ChainPolicy, before: &[u32], clause: Clause) -> bool
    ensures { result ≡ is_excluded chain.now before.now clause }
{
    let functions = chain.functions.as_slice();
    chain
        .fit
        .clauses
        .as_slice()
        .iter()
        .any(|other| is_excluding(functions, before, clause, *other))
}

fn is_excluding(functions: &[FunctionDecl], before: &[u32], clause: Clause, other: Clause) -> bool
    ensures { result ≡ is_excluding functions.now before.now clause other }
{
    opposes(clause, other) && !is_rewritten(functions, before, other)
}

fn is_rewritten(functions: &[FunctionDecl], before: &[u32], clause: Clause) -> bool
    ensures { result ≡ is_rewritten functions.now before.now clause }
{
    before
        .iter()
        .any(|place| rewrites_at(functions, clause, *place))
}

fn rewrites_at(functions: &[FunctionDecl], clause: Clause, place: u32) -> bool
    ensures { result ≡ is_at (rewrites clause) functions.now place }
{
    match functions.get(place as usize) {
        Some(decl) => rewrites(clause, decl),
        None => false,
    }
}

// Does the function write what the clause asks for?
fn rewrites(clause: Clause, decl: &FunctionDecl) -> bool
    ensures { result ≡ rewrites clause decl.now }
{
    let profile = profile(decl.kind);
    match clause {
        Clause::Src(_, _) => profile.writes_field(Field::SrcIp),
        Clause::Src6(_, _) => profile.writes_field(Field::SrcIp),
        Clause::Dst(_, _) => profile.writes_field(Field::DstIp),
        Clause::Dst6(_, _) => profile.writes_field(Field::DstIp),
        Clause::Sport(_, _) => profile.writes_field(Field::SrcPort),
        Clause::Dport(_, _) => profile.writes_field(Field::DstPort),
        Clause::TagId(_) => profile.writes_field(Field::Tag),
        Clause::NoTag => profile.writes_field(Field::Tag),
        Clause::Proto(_) | Clause::Flags(_, _) => false,
        Clause::Version4 | Clause::Version6 => false,
    }
}

fn push_balancer(
    found: &mut Items<Finding>,
    chain: &ChainPolicy,
    before: &[u32],
    decl: &FunctionDecl,
) -> Result<(), AllocError>
    ensures { OnOk result (found.new ≡ found.old ++ told_balancer chain.now before.now decl.now) }
{
    if is_balancer(decl.kind) {
        push_vip(found, chain, before, vip4_in(decl))?;
        push_vip(found, chain, before, vip6_in(decl))
    } else {
        Ok(())
    }
}

fn push_vip(
    found: &mut Items<Finding>,
    chain: &ChainPolicy,
    before: &[u32],
    vip: Option<(u32, Clause)>,
) -> Result<(), AllocError>
    ensures { OnOk result (found.new ≡ found.old ++ told_vip chain.now before.now vip) }
{
    match vip {
        Some((line, clause)) => {
            let by = chain.line;
            let finding = Finding::VipExcluded { line, by };
            push_if(found, is_excluded(chain, before, clause), finding)
        }
        None => Ok(()),
    }
}

fn is_balancer(kind: Kind) -> bool
    ensures { result ≡ is_balancer kind }
{
    matches!(kind, Kind::Balancer)
}

fn vip4_in(decl: &FunctionDecl) -> Option<(u32, Clause)>
    ensures { result ≡ vip4 (value_of address_of (codes "vip") decl.now) }
{
    let setting = setting_of(decl, b"vip")?;
    let vip = address(word_of(setting.words.as_slice(), 2))?;
    Some((setting.line, Clause::Dst(vip, 32)))
}

fn vip6_in(decl: &FunctionDecl) -> Option<(u32, Clause)>
    ensures { result ≡ vip6 (value_of address6_of (codes "vip") decl.now) }
{
    let setting = setting_of(decl, b"vip")?;
    let vip = address6(word_of(setting.words.as_slice(), 2))?;
    Some((setting.line, Clause::Dst6(vip, 128)))
}

fn told_source(chain: &ChainPolicy, before: &[u32], rule: &RuleLine) -> Option<Finding>
    ensures { result ≡ told_source chain.now before.now rule.now }
{
    let functions = chain.functions.as_slice();
    let place = rewriter_in(functions, before, rule.fit.clauses.as_slice())?;
    let line = rule.line;
    let by = line_at(functions, place);
    Some(Finding::SourceRewritten { line, by })
}

// The first of these places whose function is a nat that rewrites the sources that the clauses ask for.
fn rewriter_in(functions: &[FunctionDecl], places: &[u32], clauses: &[Clause]) -> Option<u32>
    ensures { result ≡ find (is_at (rewrites_source clauses.now) functions.now) places.now }
{
    places
        .iter()
        .copied()
        .find(|place| rewrites_source_at(functions, clauses, *place))
}

fn rewrites_source_at(functions: &[FunctionDecl], clauses: &[Clause], place: u32) -> bool
    ensures { result ≡ is_at (rewrites_source clauses.now) functions.now place }
{
    match functions.get(place as usize) {
        Some(decl) => rewrites_source(clauses, decl),
        None => false,
    }
}

fn rewrites_source(clauses: &[Clause], decl: &FunctionDecl) -> bool
    ensures { result ≡ rewrites_source clauses.now decl.now }
{
    match nat_of(decl) {
        Some(nat) => ask_inside(nat, clauses),
        None => false,
    }
}

fn ask_inside(nat: NatLines, clauses: &[Clause]) -> bool
    ensures { result ≡ list_any (asks_inside nat) clauses.now }
{
    clauses.iter().any(|clause| asks_inside(nat, *clause))
}

// Does the clause ask for sources inside, of which the public address isn't one?
fn asks_inside(nat: NatLines, clause: Clause) -> bool
    ensures { result ≡ asks_inside nat clause }
{
    match clause {
        Clause::Src(prefix, bits) => {
            lies_in(prefix, bits, nat.prefix, nat.bits) && !is_within(prefix, bits, nat.public)
        }
        _ => false,
    }
}

#[tactic(auto, using(crate::proofs::Steps::begins, crate::proofs::Steps::ends))]
fn push_behind_rules(
    found: &mut Items<Finding>,
    chain: &ChainPolicy,
    newest: &[u32],
    rules: &[RuleLine],
) -> Result<(), AllocError>
    ensures { OnOk result (found.new ≡ found.old ++ gathered (λ others r. told_hidden chain.now newest.now r) [] rules.now) }
{
    'rules: for place in 0..rules.len() {
        push_hidden(found, chain, newest, &rules[place])?;
    }
    Ok(())
}

fn push_behind_whole(
    alloc: Global,
    found: &mut Items<Finding>,
    chain: &ChainPolicy,
    before: &[u32],
    decl: &FunctionDecl,
) -> Result<(), AllocError>
    ensures { OnOk result (found.new ≡ found.old ++ told_behind_whole chain.now before.now decl.now) }
{
    let rules = rules_of(alloc, decl)?;
    let newest = newest(alloc, before)?;
    push_behind_rules(found, chain, &newest, rules.as_slice())
}

fn push_hidden(
    found: &mut Items<Finding>,
    chain: &ChainPolicy,
    newest: &[u32],
    rule: &RuleLine,
) -> Result<(), AllocError>
    ensures { OnOk result (found.new ≡ found.old ++ told_hidden chain.now newest.now rule.now) }
{
    let functions = chain.functions.as_slice();
    match last_whole(functions, newest) {
        Some(place) => push_hidden_at(found, functions, rule, place),
        None => Ok(()),
    }
}

fn push_hidden_at(
    found: &mut Items<Finding>,
    functions: &[FunctionDecl],
    rule: &RuleLine,
    place: u32,
) -> Result<(), AllocError>
    ensures { OnOk result (found.new ≡ found.old ++ told_hidden_at functions.now rule.now place) }
{
    let line = rule.line;
    let by = line_at(functions, place);
    let is_hidden = hides_at(functions, rule.fit.clauses.as_slice(), place);
    push_if(found, is_hidden, Finding::HiddenInTunnel { line, by })
}

// The first of these places, the last before a function first, whose function rewrites packets whole.
fn last_whole(functions: &[FunctionDecl], newest: &[u32]) -> Option<u32>
    ensures { result ≡ last_whole functions.now newest.now }
{
    newest
        .iter()
        .copied()
        .find(|place| is_whole_at(functions, *place))
}

// These places, the last first.
fn newest(alloc: Global, places: &[u32]) -> Result<Vec<u32>, AllocError>
    ensures { IfOk result (λ newest. newest.items ≡ reverse places.now) }
{
    places.iter().rev().copied().collect(alloc)
}

fn hides_at(functions: &[FunctionDecl], clauses: &[Clause], place: u32) -> bool
    ensures { result ≡ is_at (hides clauses.now) functions.now place }
{
    match functions.get(place as usize) {
        Some(decl) => hides(clauses, decl),
        None => false,
    }
}

fn hides(clauses: &[Clause], decl: &FunctionDecl) -> bool
    ensures { result ≡ hides clauses.now decl.now }
{
    is_encap(decl.kind) && are_hidden(decl, clauses)
}

fn are_hidden(decl: &FunctionDecl, clauses: &[Clause]) -> bool
    ensures { result ≡ list_any (is_hidden decl.now) clauses.now }
{
    clauses.iter().any(|clause| is_hidden(decl, *clause))
}

// Does the clause ask for a source that isn't the entry of the tunnel, or for a destination that isn't its exit?
fn is_hidden(decl: &FunctionDecl, clause: Clause) -> bool
    ensures { result ≡ is_hidden decl.now clause }
{
    match clause {
        Clause::Src(prefix, bits) => misses(b"entry", decl, prefix, bits),
        Clause::Dst(prefix, bits) => misses(b"exit", decl, prefix, bits),
        _ => false,
    }
}

fn misses(key: &[u8], decl: &FunctionDecl, prefix: u32, bits: u8) -> bool
    ensures { result ≡ misses key.now decl.now prefix bits }
{
    match address_in(key, decl) {
        Some((_, address)) => !is_within(prefix, bits, address),
        None => false,
    }
}

fn address_in(key: &[u8], decl: &FunctionDecl) -> Option<(u32, u32)>
    ensures { result ≡ value_of address_of key.now decl.now }
{
    let setting = setting_of(decl, key)?;
    let value = address(word_of(setting.words.as_slice(), 2))?;
    Some((setting.line, value))
}

fn is_encap(kind: Kind) -> bool
    ensures { result ≡ is_encap kind }
{
    matches!(kind, Kind::Encap)
}

fn push_signature(
    found: &mut Items<Finding>,
    chain: &ChainPolicy,
    before: &[u32],
    decl: &FunctionDecl,
) -> Result<(), AllocError>
    ensures { OnOk result (found.new ≡ found.old ++ told_signature chain.now before.now decl.now) }
{
    if is_signature(decl.kind) {
        push_redacted(found, chain, before, decl.kind, decl.settings.as_slice())
    } else {
        Ok(())
    }
}

#[tactic(auto, using(crate::proofs::Steps::begins, crate::proofs::Steps::ends))]
fn push_redacted(
    found: &mut Items<Finding>,
    chain: &ChainPolicy,
    before: &[u32],
    kind: Kind,
    settings: &[Setting],
) -> Result<(), AllocError>
    ensures { OnOk result (found.new ≡ found.old ++ gathered (λ others s. option_to_list (told_redacted chain.now before.now s.line (text_of kind s))) [] settings.now) }
{
    'settings: for place in 0..settings.len() {
        push_redacted_line(found, chain, before, kind, &settings[place])?;
    }
    Ok(())
}

fn push_redacted_line(
    found: &mut Items<Finding>,
    chain: &ChainPolicy,
    before: &[u32],
    kind: Kind,
    setting: &Setting,
) -> Result<(), AllocError>
    ensures { OnOk result (found.new ≡ found.old ++ option_to_list (told_redacted chain.now before.now setting.now.line (text_of kind setting.now))) }
{
    let word = text_of(kind, setting);
    push_one(found, told_redacted(chain, before, setting.line, word))
}

fn told_redacted(chain: &ChainPolicy, before: &[u32], line: u32, word: &[u8]) -> Option<Finding>
    ensures { result ≡ told_redacted chain.now before.now line word.now }
{
    if !is_erasable(word) {
        return None;
    }
    let functions = chain.functions.as_slice();
    let place = redactor_in(functions, before, word)?;
    let by = line_at(functions, place);
    Some(Finding::RedactedBefore { line, by })
}

// The first of these places whose function is a redactor of the pattern.
fn redactor_in(functions: &[FunctionDecl], places: &[u32], word: &[u8]) -> Option<u32>
    ensures { result ≡ find (is_at (redacts word.now) functions.now) places.now }
{
    places
        .iter()
        .copied()
        .find(|place| redacts_at(functions, word, *place))
}

fn redacts_at(functions: &[FunctionDecl], word: &[u8], place: u32) -> bool
    ensures { result ≡ is_at (redacts word.now) functions.now place }
{
    match functions.get(place as usize) {
        Some(decl) => redacts(word, decl),
        None => false,
    }
}

fn redacts(word: &[u8], decl: &FunctionDecl) -> bool
    ensures { result ≡ redacts word.now decl.now }
{
    is_redactor(decl.kind) && has_text(decl.kind, decl.settings.as_slice(), word)
}

fn has_text(kind: Kind, settings: &[Setting], word: &[u8]) -> bool
    ensures { result ≡ list_any (λ s. bytes_eq (text_of kind s) word.now) settings.now }
{
    settings
        .iter()
        .any(|setting| text_of(kind, setting) == word)
}

fn is_redactor(kind: Kind) -> bool
    ensures { result ≡ is_redactor kind }
{
    matches!(kind, Kind::Redactor)
}

fn is_signature(kind: Kind) -> bool
    ensures { result ≡ is_signature kind }
{
    matches!(kind, Kind::Signature)
}

// Has the pattern a byte, and none of the bytes `x` that a redactor writes?
fn is_erasable(word: &[u8]) -> bool
    ensures { result ≡ is_erasable word.now }
{
    !word.is_empty() && !has_mark(word)
}

fn has_mark(word: &[u8]) -> bool
    ensures { result ≡ list_any (λ b. b == 120) word.now }
{
    word.iter().any(|b| *b == b'x')
}
