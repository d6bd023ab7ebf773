//! A policy: chains of functions, with their settings and the orders among them.

use crate::clause::Match;
use crate::name::{Name, Word};
use action_profile::Kind;
use item_list::Items;

/// The service chains of a policy, in the order of the text.
#[derive(Debug, Drop)]
pub struct Policy {
    pub chains: Items<ChainPolicy>,
}

/// A service chain: which packets it takes, its functions as declared, and the orders among them.
#[derive(Debug, Drop)]
pub struct ChainPolicy {
    pub name: Name,
    /// The line of its `chain`, counted from 1.
    pub line: u32,
    pub fit: Match,
    pub functions: Items<FunctionDecl>,
    pub statements: Items<Statement>,
}

/// A declared network function with the lines that set it up.
#[derive(Debug, Drop)]
pub struct FunctionDecl {
    pub name: Name,
    /// The line of its `fn`, counted from 1.
    pub line: u32,
    pub kind: Kind,
    pub settings: Items<Setting>,
}

/// A `set` or `rule` line with its words, of which `set` or `rule` is the first.
#[derive(Debug, Drop)]
pub struct Setting {
    /// Counted from 1.
    pub line: u32,
    pub words: Items<Word>,
}

/// An order among the functions of one chain, counted from 0 as declared.
#[derive(Clone, Copy, Debug, PartialEq, Eq)]
pub enum Statement {
    /// `order A before B`.
    Order { a: u32, b: u32, line: u32 },
    /// `priority HIGH > LOW`: what the first writes prevails.
    Priority { high: u32, low: u32, line: u32 },
    /// `position X first`.
    First { x: u32, line: u32 },
    /// `position X last`.
    Last { x: u32, line: u32 },
}
