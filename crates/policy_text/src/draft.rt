//! The policy so far, while its text is read.

ghost use Rattle.std.specs.Prelude.{◌≡◌, ◌<◌, length, OnOk};
ghost use Rattle.policy_text.specs.Grammar.{set_up_latest};

use crate::counting::{count_rules, is_declared, position_named};
use crate::policy::{ChainPolicy, FunctionDecl, Policy, Setting, Statement};
use item_list::Items;
use std::alloc::{AllocError, AllocFailed, Global};
use std::marker::Model;
use std::mem;

/// The greatest number of functions of a policy.
const MAX_FUNCTIONS: usize = 64;

/// The chains so far, of which the last is the current one.
#[derive(Drop)]
pub struct Draft {
    chains: Vec<ChainPolicy>,
}

impl Model for Draft {
    ghost use Rattle.std.specs.Prelude.{List};
    ghost use Rattle.policy_text.specs.declared.policy.ChainPolicy.{ChainPolicy};

    ghost Value = { List ChainPolicy };

    ghost view = { λ d. d.chains.items };

    ghost use Rattle.std.specs.Prelude.{◌≤◌};
    ghost use Rattle.policy_text.specs.Grammar.{count_functions};

    ghost invariant = { λ d. count_functions d.chains.items ≤ 64 };
}

impl Draft {
    ghost use Rattle.std.specs.Prelude.{◌≡◌, ◌++◌, ◌∷◌, [], ◌<◌, ◌≤◌, length, position, sum_by, count_by, is_some, nat_lt, OnOk};
    ghost use Rattle.std.specs.List.{list_any};
    ghost use Rattle.policy_text.specs.Grammar.{latest, functions_here, function_named, rules_here, has_function, count_functions, has_chain, add_function, add_setting, add_statement, is_rule, is_function};

    pub fn new(alloc: Global) -> Self
        ensures { result ≡ [] }
    {
        Draft {
            chains: Vec::new(alloc),
        }
    }

    /// The finished policy.
    pub fn into_policy(self) -> Policy
        ensures { result.chains ≡ self }
    {
        let Draft { chains } = self;
        Policy {
            chains: Items::new(chains),
        }
    }

    pub fn chain_count(&self) -> usize
        ensures { result ≡ length self.now }
    {
        self.chains.len()
    }

    pub fn has_chain(&self, name: &[u8]) -> bool
        ensures { result ≡ has_chain self.now name.now }
    {
        self.chains.iter().any(|c| c.name.bytes() == name)
    }

    /// May the policy have one more function?
    pub fn has_room(&self) -> bool
        ensures { result ≡ nat_lt (count_functions self.now) MAX_FUNCTIONS }
    {
        let mut room = MAX_FUNCTIONS;
        'chains: for chain in &self.chains {
            let count = chain.functions.as_slice().len();
            if count >= room {
                return false;
            }
            room -= count;
        }
        true
    }

    pub fn has_function(&self, name: &[u8]) -> bool
        ensures { result ≡ has_function self.now name.now }
    {
        self.chains.iter().any(|c| is_declared(c, name))
    }

    /// Has a chain begun, so that a line is in it?
    pub fn is_in_chain(&self) -> bool
        ensures { result ≡ is_some (latest self.now) }
    {
        !self.chains.is_empty()
    }

    /// The functions of the current chain.
    #[tactic(auto, using(crate::proofs::Latest::here_few))]
    pub fn functions_here(&self) -> &[FunctionDecl]
        ensures here { result.now ≡ functions_here self.now }
        ensures few { length result.now ≤ 64 }
    {
        match self.chains.last() {
            None => &[],
            Some(chain) => chain.functions.as_slice(),
        }
    }

    /// The place of the function of the current chain with this name, counted from 0.
    pub fn function_named(&self, name: &[u8]) -> Option<u32>
        ensures { result ≡ function_named name.now self.now }
    {
        match position_named(self.functions_here(), name) {
            None => None,
            Some(place) => Some(place as u32),
        }
    }

    /// The number of rules of the current function.
    pub fn rules_here(&self) -> usize
        ensures { result ≡ rules_here self.now }
    {
        match self.functions_here().last() {
            None => 0,
            Some(function) => count_rules(function.settings.as_slice()),
        }
    }

    pub fn add_chain(&mut self, chain: ChainPolicy) -> Result<(), AllocError>
        requires { chain.functions ≡ [] }
        ensures { OnOk result (self.new ≡ self.old ++ chain ∷ []) }
    {
        self.chains.push(chain)?;
        Ok(())
    }

    #[tactic(auto, using(crate::proofs::Latest::set_latest))]
    pub fn add_function(&mut self, function: FunctionDecl) -> Result<(), AllocError>
        requires current { 0 < length self.old }
        requires room { count_functions self.old < 64 }
        ensures { OnOk result (self.new ≡ add_function self.old function) }
    {
        let last = self.chains.len() - 1;
        self.chains[last].functions.push(function)?;
        Ok(())
    }

    #[tactic(auto, using(crate::proofs::Latest::set_latest))]
    pub fn add_setting(&mut self, alloc: Global, setting: Setting) -> Result<(), AllocError>
        requires { 0 < length (functions_here self.old) }
        ensures { OnOk result (self.new ≡ add_setting self.old setting) }
    {
        let last = self.chains.len() - 1;
        push_setting(alloc, &mut self.chains[last].functions, setting)?;
        Ok(())
    }

    #[tactic(auto, using(crate::proofs::Latest::set_latest))]
    pub fn add_statement(&mut self, statement: Statement) -> Result<(), AllocError>
        requires { 0 < length self.old }
        ensures { OnOk result (self.new ≡ add_statement self.old statement) }
    {
        let last = self.chains.len() - 1;
        self.chains[last].statements.push(statement)?;
        Ok(())
    }
}

// Adds a setting to the last function.
#[tactic(auto, using(crate::proofs::Latest::set_latest))]
fn push_setting(
    alloc: Global,
    functions: &mut Items<FunctionDecl>,
    setting: Setting,
) -> Result<(), AllocFailed<Setting>>
    requires { 0 < length functions.old }
    ensures ok { OnOk result (functions.new ≡ set_up_latest functions.old setting) }
    ensures count { length functions.new ≡ length functions.old }
{
    let mut declared = mem::replace(functions, Items::new(Vec::new(alloc))).into_vec();
    let last = declared.len() - 1;
    let pushed = declared[last].settings.push(setting);
    *functions = Items::new(declared);
    pushed
}
