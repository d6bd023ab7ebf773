//! Reads a policy text line by line.

ghost use Rattle.std.specs.Prelude.{◌≡◌, ◌<◌, length, IfOk, OnOk};
ghost use Rattle.policy_text.specs.Grammar.{of_function, setting_of, function_line, set_line, rule_line, after_line, functions_here};
ghost use Rattle.policy_text.specs.Steps.{Gives};

use crate::chain_lines::chain_line;
use crate::draft::Draft;
use crate::fault::TextFault;
use crate::form::{WordForm, fit_form, in_chain, syntax_at};
use crate::line::Line;
use crate::name::{Name, Word};
use crate::order_lines::{order_line, position_line, priority_line};
use crate::policy::{FunctionDecl, Setting};
use action_profile::Kind;
use item_list::Items;
use std::alloc::{AllocError, Global};

/// The greatest number of rules of a function.
const MAX_RULES: usize = 256;

// `fn NAME KIND`.
fn function_line(alloc: Global, draft: &mut Draft, line: &Line<'_>) -> Result<(), TextFault>
    ensures { Gives (λ _. draft.new) result (function_line draft.old line.now) }
{
    in_chain(draft, line)?;
    fit_form(&[WordForm::Name, WordForm::Name], line)?;
    if !draft.has_room() {
        return Err(TextFault::TooManyFunctions(line.number()));
    }
    let name = line.word(1);
    if draft.has_function(name) {
        return Err(TextFault::DuplicateName(line.number()));
    }
    let Some(kind) = Kind::named(line.word(2)) else {
        return Err(TextFault::UnknownKind(line.number()));
    };
    draft.add_function(FunctionDecl {
        name: Name::new(name.to_vec(alloc)?),
        line: line.number(),
        kind,
        settings: Items::new(Vec::new(alloc)),
    })?;
    Ok(())
}

// Checks that the line follows a function of the current chain, and has a second word.
fn of_function(draft: &Draft, line: &Line<'_>) -> Result<(), TextFault>
    ensures due { Gives (λ x. x) result (of_function draft.now line.now) }
    ensures stands { OnOk result (0 < length (functions_here draft.now)) }
{
    if draft.functions_here().is_empty() {
        return Err(syntax_at(line, 0));
    }
    if line.words().len() < 2 {
        return Err(syntax_at(line, 1));
    }
    Ok(())
}

fn setting_of(alloc: Global, line: &Line<'_>) -> Result<Setting, AllocError>
    ensures { IfOk result (λ s. s ≡ setting_of line.now) }
{
    let mut words = Vec::new(alloc);
    'words: for word in line.words() {
        words.push(Word::new(word.text().to_vec(alloc)?))?;
    }
    Ok(Setting {
        line: line.number(),
        words: Items::new(words),
    })
}

// `set WORD ..`.
fn set_line(alloc: Global, draft: &mut Draft, line: &Line<'_>) -> Result<(), TextFault>
    ensures { Gives (λ _. draft.new) result (set_line draft.old line.now) }
{
    of_function(draft, line)?;
    draft.add_setting(alloc, setting_of(alloc, line)?)?;
    Ok(())
}

// `rule WORD ..`.
fn rule_line(alloc: Global, draft: &mut Draft, line: &Line<'_>) -> Result<(), TextFault>
    ensures { Gives (λ _. draft.new) result (rule_line draft.old line.now) }
{
    of_function(draft, line)?;
    if draft.rules_here() >= MAX_RULES {
        return Err(TextFault::TooManyRules(line.number()));
    }
    draft.add_setting(alloc, setting_of(alloc, line)?)?;
    Ok(())
}

// Adds one more line to the draft.
#[tactic(auto, unfolding(crate::specs::Grammar::after_line))]
pub fn after_line(alloc: Global, draft: &mut Draft, line: &Line<'_>) -> Result<(), TextFault>
    ensures { Gives (λ _. draft.new) result (after_line draft.old line.now) }
{
    let first = line.word(0);
    if first == b"chain".as_slice() {
        chain_line(alloc, draft, line)
    } else if first == b"fn".as_slice() {
        function_line(alloc, draft, line)
    } else if first == b"set".as_slice() {
        set_line(alloc, draft, line)
    } else if first == b"rule".as_slice() {
        rule_line(alloc, draft, line)
    } else if first == b"order".as_slice() {
        order_line(draft, line)
    } else if first == b"priority".as_slice() {
        priority_line(draft, line)
    } else if first == b"position".as_slice() {
        position_line(draft, line)
    } else {
        Err(syntax_at(line, 0))
    }
}
