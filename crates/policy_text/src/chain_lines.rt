//! The lines that open a chain.

ghost use Rattle.std.specs.Prelude.{◌≡◌, ◌^◌, ◌<◌, length, map, IfOk};
ghost use Rattle.policy_text.specs.Clauses.{ReadsMatch};
ghost use Rattle.policy_text.specs.Grammar.{chain_line, texts, fail_at, chain_clauses};
ghost use Rattle.policy_text.specs.Steps.{Gives};

use crate::clause::Match;
use crate::draft::Draft;
use crate::fault::{MatchFault, TextFault};
use crate::form::syntax_at;
use crate::line::Line;
use crate::matching::read_clauses;
use crate::name::Name;
use crate::policy::ChainPolicy;
use crate::value::is_name;
use item_list::Items;
use std::alloc::{AllocError, Global};

/// The greatest number of chains of a policy.
const MAX_CHAINS: usize = 16;

// `chain NAME` and `chain NAME match CLAUSE ..`.
pub fn chain_line(alloc: Global, draft: &mut Draft, line: &Line<'_>) -> Result<(), TextFault>
    ensures { Gives (λ _. draft.new) result (chain_line draft.old line.now) }
{
    let fit = chain_match(alloc, line)?;
    if draft.chain_count() >= MAX_CHAINS {
        return Err(TextFault::TooManyChains(line.number()));
    }
    let name = line.word(1);
    if draft.has_chain(name) {
        return Err(TextFault::DuplicateName(line.number()));
    }
    draft.add_chain(ChainPolicy {
        name: Name::new(name.to_vec(alloc)?),
        line: line.number(),
        fit,
        functions: Items::new(Vec::new(alloc)),
        statements: Items::new(Vec::new(alloc)),
    })?;
    Ok(())
}

// Which packets the chain takes.
fn chain_match(alloc: Global, line: &Line<'_>) -> Result<Match, TextFault>
    ensures { Gives (λ m. m.clauses) result (fail_at line.now (chain_clauses (texts line.now))) }
{
    let words = texts(alloc, line)?;
    match chain_clauses(alloc, &words) {
        Ok(fit) => Ok(fit),
        Err(MatchFault::BadWord(place)) => Err(syntax_at(line, place)),
        Err(MatchFault::OutOfMemory) => Err(TextFault::OutOfMemory),
    }
}

fn texts<'a>(alloc: Global, line: &Line<'a>) -> Result<Vec<&'a [u8]>, AllocError>
    ensures { IfOk result (λ v. map (λ x. x.now) v.items ≡ texts line.now) }
{
    let mut texts = Vec::new(alloc);
    'words: for word in line.words() {
        texts.push(word.text())?;
    }
    Ok(texts)
}

fn chain_clauses(alloc: Global, words: &[&[u8]]) -> Result<Match, MatchFault>
    requires { length words.now < 2 ^ 62 }
    ensures { ReadsMatch result (chain_clauses (map (λ w. w.now) words.now)) }
{
    if words.len() < 2 || !is_name(words[1]) {
        return Err(MatchFault::BadWord(1));
    }
    if words.len() == 2 {
        return Ok(Match {
            clauses: Items::new(Vec::new(alloc)),
        });
    }
    if words[2] != b"match".as_slice() {
        return Err(MatchFault::BadWord(2));
    }
    if words.len() == 3 {
        return Err(MatchFault::BadWord(3));
    }
    read_clauses(alloc, 3, &words[3..])
}
