//! How often the functions of a chain and each of their lines were used.
ghost use Rattle.std.specs.Prelude.{◌≡◌, ℕ, List, [], IfOk, map};
ghost use Rattle.policy_text.specs.declared.policy.FunctionDecl.{FunctionDecl};
ghost use Rattle.std.specs.Prelude.{length, position};
ghost use Rattle.std.specs.Option.{unwrap_or};
ghost use Rattle.std.specs.Str.{bytes_eq};
ghost use Rattle.why_account.specs.Accounts.{function_account, NotesFunction, NotesFunctions};

use declared_lines::DeclaredLines;
use policy_text::{FunctionDecl, Name};
use std::alloc::{AllocError, Global};
use std::marker::Model;
use traced_run::TracedAct;
use why_report::FunctionUse;

/// The use of a function.
#[derive(Drop)]
pub struct FunctionAccount {
    /// Its place in chain order, counted from 0.
    pub place: usize,
    pub lines: DeclaredLines,
    pub used: FunctionUse,
}

impl FunctionAccount {
    // The account of a function that no packet has reached, in a chain with functions of these names in order.
    fn none(
        alloc: Global,
        names: &[Name],
        decl: &FunctionDecl,
    ) -> Result<FunctionAccount, AllocError>
        ensures { (number : ℕ) → (order : List FunctionDecl) → names.now ≡ map (λ d. d.name) order → IfOk result (λ made. made ≡ function_account number order [] decl.now) }
    {
        let lines = DeclaredLines::of(alloc, decl)?;
        let used = FunctionUse::none(alloc, &lines)?;
        Ok(FunctionAccount {
            place: place_among(names, decl.name.bytes()),
            lines,
            used,
        })
    }

    // Notes what the function did to one more packet, if the packet reached it.
    fn note(&mut self, acts: &[TracedAct])
        ensures { NotesFunction acts.now self.old self.new }
    {
        match acts.get(self.place) {
            Some(act) => self.used.note(
                &self.lines,
                act.lines.as_slice(),
                act.dropped,
                act.changed,
            ),
            None => {}
        }
    }
}

// The place of this name, or the number of names.
fn place_among(names: &[Name], name: &[u8]) -> usize
    ensures { result ≡ unwrap_or (position (λ n. bytes_eq n name.now) names.now) (length names.now) }
{
    match found_among(names, name) {
        Some(place) => place,
        None => names.len(),
    }
}

fn found_among(names: &[Name], name: &[u8]) -> Option<usize>
    ensures { result ≡ position (λ n. bytes_eq n name.now) names.now }
{
    names.iter().position(|other| other.bytes() == name)
}

/// The uses of the functions of a chain, as they are declared. Contracts see the list.
#[derive(Drop)]
pub struct FunctionAccounts {
    items: Vec<FunctionAccount>,
}

impl Model for FunctionAccounts {
    ghost use Rattle.std.specs.Prelude.{List};
    ghost use Rattle.why_account.specs.declared.function.FunctionAccount.{FunctionAccount};

    ghost Value = { List FunctionAccount };

    ghost view = { λ accounts. accounts.items.items };
}

impl FunctionAccounts {
    // The accounts of these functions, which no packet has reached.
    pub(crate) fn none(
        alloc: Global,
        names: &[Name],
        decls: &[FunctionDecl],
    ) -> Result<FunctionAccounts, AllocError>
        ensures { (number : ℕ) → (order : List FunctionDecl) → names.now ≡ map (λ d. d.name) order → IfOk result (λ made. made ≡ map (function_account number order []) decls.now) }
    {
        let mut items = Vec::new(alloc);
        'decls: for decl in decls {
            items.push(FunctionAccount::none(alloc, names, decl)?)?;
        }
        Ok(FunctionAccounts { items })
    }

    // Notes what the functions did to one more packet, which their chain took.
    pub(crate) fn note(&mut self, acts: &[TracedAct])
        ensures { NotesFunctions acts.now self.old self.new }
    {
        note_each(self.items.as_mut_slice(), acts);
    }

    /// The accounts as a slice.
    pub fn as_slice(&self) -> &[FunctionAccount]
        ensures { result.now ≡ self.now }
    {
        self.items.as_slice()
    }
}

fn note_each(functions: &mut [FunctionAccount], acts: &[TracedAct])
    ensures { NotesFunctions acts.now functions.old functions.new }
{
    'functions: for function in functions.iter_mut() {
        function.note(acts);
    }
}
