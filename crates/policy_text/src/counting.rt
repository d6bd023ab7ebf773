//! Looks into declared functions.

ghost use Rattle.std.specs.Prelude.{◌≡◌, ◌<◌, length, count_by, position, IfSome};
ghost use Rattle.std.specs.List.{list_any};
ghost use Rattle.policy_text.specs.Grammar.{is_rule, is_function};

use crate::policy::{ChainPolicy, FunctionDecl, Setting};

/// Has the chain a function of this name?
pub fn is_declared(chain: &ChainPolicy, name: &[u8]) -> bool
    ensures { result ≡ list_any (is_function name.now) chain.now.functions }
{
    chain.functions.as_slice().iter().any(|f| is_named(f, name))
}

pub fn is_named(function: &FunctionDecl, name: &[u8]) -> bool
    ensures { result ≡ is_function name.now function.now }
{
    function.name.bytes() == name
}

/// The place of the first function of this name, counted from 0.
pub fn position_named(functions: &[FunctionDecl], name: &[u8]) -> Option<usize>
    ensures found { result ≡ position (is_function name.now) functions.now }
    ensures within { IfSome result (λ place. place < length functions.now) }
{
    functions.iter().position(|f| is_named(f, name))
}

/// The number of `rule` lines.
pub fn count_rules(settings: &[Setting]) -> usize
    ensures { result ≡ count_by is_rule settings.now }
{
    settings.iter().filter(|s| is_rule(s)).count()
}

fn is_rule(setting: &Setting) -> bool
    ensures { result ≡ is_rule setting.now }
{
    match setting.words.as_slice().first() {
        None => false,
        Some(word) => word.bytes() == b"rule".as_slice(),
    }
}
