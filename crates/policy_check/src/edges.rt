//! The edges that statements draw between functions.

ghost use Rattle.std.specs.Prelude.{◌≡◌, ◌==◌, not};
ghost use Rattle.std.specs.List.{list_any};
ghost use Rattle.policy_check.specs.Edges.{draws, edges_of};
ghost use Rattle.policy_check.specs.Turns.{is_held};
ghost use Rattle.policy_check.specs.Waiting.{waits, is_up, holds_back};

use policy_text::Statement;

/// Is there an edge from one function to another?
#[tactic(auto, unfolding(crate::specs::Edges::edges_of))]
pub(crate) fn has_edge(statements: &[Statement], from: u32, to: u32) -> bool
    ensures { result ≡ edges_of statements.now from to }
{
    statements.iter().any(|s| draws(*s, from, to))
}

fn draws(statement: Statement, from: u32, to: u32) -> bool
    ensures { result ≡ draws statement from to }
{
    match statement {
        Statement::Order { a, b, .. } => from == a && to == b,
        Statement::Priority { high, low, .. } => from == low && to == high,
        Statement::First { x, .. } => from == x && to != x,
        Statement::Last { x, .. } => to == x && from != x,
    }
}

/// Does one of the functions that wait have an edge to this one? Goes over the statements once.
pub(crate) fn is_held(statements: &[Statement], x: u32, waiting: &[bool]) -> bool
    ensures { result ≡ is_held (edges_of statements.now) (waits waiting.now) x }
{
    statements.iter().any(|s| holds_back(*s, x, waiting))
}

// Does the statement draw an edge to this function from one that waits?
fn holds_back(statement: Statement, x: u32, waiting: &[bool]) -> bool
    ensures { result ≡ holds_back waiting.now x statement }
{
    match statement {
        Statement::Order { a, b, .. } => x == b && is_up(waiting, a),
        Statement::Priority { high, low, .. } => x == high && is_up(waiting, low),
        Statement::First { x: first, .. } => x != first && is_up(waiting, first),
        Statement::Last { x: last, .. } => x == last && waits_another(waiting, last),
    }
}

fn is_up(waiting: &[bool], x: u32) -> bool
    ensures { result ≡ is_up waiting.now x }
{
    waiting.get(x as usize).copied().unwrap_or(false)
}

// Does a function other than this one wait?
#[tactic(auto, using(crate::proofs::WaitingLemmas::waits_some, crate::proofs::WaitingLemmas::waits_none))]
fn waits_another(waiting: &[bool], x: u32) -> bool
    ensures { result ≡ list_any (λ a. not (a == x)) (waits waiting.now) }
{
    for a in 0..waiting.len() {
        if waiting[a] && a != x as usize {
            return true;
        }
    }
    false
}
