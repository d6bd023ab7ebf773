//! What an operator reads off the counts.
ghost use Rattle.std.specs.Prelude.{◌≡◌, ◌≤◌, ◌↔◌, ℕ, List, sum};
ghost use Rattle.policy_text.specs.declared.policy.FunctionDecl.{FunctionDecl};
ghost use Rattle.traced_walk.specs.Traced.{Act};
ghost use Rattle.why_report.specs.Report.{hits};
ghost use Rattle.why_report.specs.Uses.{use_of, OneDecides, DecidedNone};

use declared_lines::deciders_rise;

/// Hits add up: where exactly one line that is listed decided each packet that a function saw, the hits of its lines
/// together are those packets, if there are fewer than 2^64.
pub fn hits_add_up()
    ensures { (decl : FunctionDecl) → (acts : List Act) → OneDecides decl acts → sum (use_of decl acts).hits ≡ (use_of decl acts).saw }
{
    deciders_rise();
}

/// A function drops at most the packets that it saw.
pub fn drops_are_seen()
    ensures { (decl : FunctionDecl) → (acts : List Act) → (use_of decl acts).dropped ≤ (use_of decl acts).saw }
{}

/// A line without hits is one that decided nothing: the rules with 0 hits are those that were never met.
pub fn no_hits_is_no_use()
    ensures { (decl : FunctionDecl) → (line : ℕ) → (acts : List Act) → ((hits decl line acts ≡ 0) ↔ DecidedNone decl line acts) }
{}
