//! The account of a chain.
ghost use Rattle.std.specs.Prelude.{◌≡◌, ◌++◌, ◌∷◌, ℕ, [], IfOk, OnOk, filter_map, length, map, slice_get};
ghost use Rattle.std.specs.Prelude.{◌==◌, false};
ghost use Rattle.std.specs.Option.{option_map_or};
ghost use Rattle.declared_lines.specs.LinesOf.{lines_of};
ghost use Rattle.why_report.specs.Report.{in_order};
ghost use Rattle.why_account.specs.Accounts.{chain_account, NotesChain, NotesChains};

use crate::counting::raised;
use crate::function::FunctionAccounts;
use declared_lines::DeclaredLines;
use item_list::Items;
use policy_check::Order;
use policy_text::{ChainPolicy, FunctionDecl, Name};
use std::alloc::{AllocError, Global};
use std::marker::Model;
use traced_run::TracedAct;

/// What the packets met that a chain took.
#[derive(Drop)]
pub struct ChainAccount {
    /// The number of the chain, counted from 0.
    pub number: usize,
    /// The packets that it took.
    pub took: u64,
    /// The names of its functions, and the lines of their declarations, in chain order.
    pub names: Items<Name>,
    pub lines: Items<DeclaredLines>,
    /// The uses of its functions, as they are declared.
    pub functions: FunctionAccounts,
}

impl ChainAccount {
    /// The account of a chain that took no packet so far.
    pub fn none(
        alloc: Global,
        number: usize,
        chain: &ChainPolicy,
        order: &Order,
    ) -> Result<ChainAccount, AllocError>
        ensures { IfOk result (λ made. made ≡ chain_account number (in_order chain.now order.now) []) }
    {
        let declared = chain.functions.as_slice();
        let positions = order.positions.as_slice();
        let names = names_in(alloc, declared, positions)?;
        let lines = lines_in(alloc, declared, positions)?;
        let functions = FunctionAccounts::none(alloc, names.as_slice(), declared)?;
        Ok(ChainAccount {
            number,
            took: 0,
            names,
            lines,
            functions,
        })
    }

    // Notes one more packet, if this is the chain that took it.
    fn note(&mut self, class: Option<u32>, acts: &[TracedAct])
        ensures { NotesChain class acts.now self.old self.new }
    {
        if is_class(class, self.number) {
            self.took = raised(self.took, true);
            self.functions.note(acts);
        }
    }
}

// Is this the number of the chain that took the packet?
fn is_class(class: Option<u32>, number: usize) -> bool
    ensures { result ≡ option_map_or (λ chain. chain == number) class false }
{
    match class {
        Some(chain) => chain as usize == number,
        None => false,
    }
}

// The names of the functions at these positions.
fn names_in(
    alloc: Global,
    declared: &[FunctionDecl],
    positions: &[u32],
) -> Result<Items<Name>, AllocError>
    ensures { IfOk result (λ names. names ≡ map (λ decl. decl.name) (filter_map (λ place. slice_get declared.now place) positions.now)) }
{
    let mut names = Items::new(Vec::new(alloc));
    'positions: for position in positions {
        if let Some(decl) = declared.get(*position as usize) {
            names.push(Name::new(Vec::from_slice(alloc, decl.name.bytes())?))?;
        }
    }
    Ok(names)
}

// The lines of the declarations at these positions.
fn lines_in(
    alloc: Global,
    declared: &[FunctionDecl],
    positions: &[u32],
) -> Result<Items<DeclaredLines>, AllocError>
    ensures { IfOk result (λ lines. lines ≡ map lines_of (filter_map (λ place. slice_get declared.now place) positions.now)) }
{
    let mut lines = Items::new(Vec::new(alloc));
    'positions: for position in positions {
        if let Some(decl) = declared.get(*position as usize) {
            lines.push(DeclaredLines::of(alloc, decl)?)?;
        }
    }
    Ok(lines)
}

/// The accounts of chains. Contracts see the list.
#[derive(Drop)]
pub struct ChainAccounts {
    items: Vec<ChainAccount>,
}

impl Model for ChainAccounts {
    ghost use Rattle.std.specs.Prelude.{List};
    ghost use Rattle.why_account.specs.declared.chain.ChainAccount.{ChainAccount};

    ghost Value = { List ChainAccount };

    ghost view = { λ accounts. accounts.items.items };
}

impl ChainAccounts {
    /// No accounts.
    pub fn new(alloc: Global) -> ChainAccounts
        ensures { result ≡ [] }
    {
        ChainAccounts {
            items: Vec::new(alloc),
        }
    }

    /// Adds the account of a chain that took no packet so far, behind those of the chains before it.
    pub fn add(
        &mut self,
        alloc: Global,
        chain: &ChainPolicy,
        order: &Order,
    ) -> Result<(), AllocError>
        ensures { OnOk result (self.new ≡ self.old ++ chain_account (length self.old) (in_order chain.now order.now) [] ∷ []) }
    {
        let account = ChainAccount::none(alloc, self.items.len(), chain, order)?;
        self.items.push(account)?;
        Ok(())
    }

    // Notes one more packet for the chain that took it.
    pub(crate) fn note(&mut self, class: Option<u32>, acts: &[TracedAct])
        ensures { NotesChains class acts.now self.old self.new }
    {
        note_each(self.items.as_mut_slice(), class, acts);
    }

    /// The accounts as a slice.
    pub fn as_slice(&self) -> &[ChainAccount]
        ensures { result.now ≡ self.now }
    {
        self.items.as_slice()
    }
}

fn note_each(chains: &mut [ChainAccount], class: Option<u32>, acts: &[TracedAct])
    ensures { NotesChains class acts.now chains.old chains.new }
{
    'chains: for chain in chains.iter_mut() {
        chain.note(class, acts);
    }
}
