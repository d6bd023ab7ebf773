//! Tests of versions, functions and the language, through their public calls alone: what no contract says, with values
//! that were worked out by hand. No clause says that a call gets memory, so each call that allocates runs here once
//! with ample memory, unless the program's own run makes it, as with judging policies, compiling and planning chains
//! and merging versions: their rows are in `program_tests`.
//!
//! Of actions: `unlawful` checks graphs that are compiled from no chain. Of versions: `leases` passes a value to
//! threads and back, and `parts` takes frames apart and joins them. Of functions: `lines` reads declarations of a kind
//! of its own, which has a required line; `making` makes a function of a declaration; `walking` runs frames through
//! firewalls, and through a `painter`, which writes, drops and has a state; `states` prints the lines of functions that
//! keep flows and sources. Of the language: `reading` reads values and clauses, `frames` checks what clauses see of a
//! frame, and `odd` checks the findings on odd policies.
#![tactic(auto)]

#[cfg(test)]
mod frames;
#[cfg(test)]
mod leases;
#[cfg(test)]
mod lines;
#[cfg(test)]
mod making;
#[cfg(test)]
mod odd;
#[cfg(test)]
mod painter;
#[cfg(test)]
mod parts;
#[cfg(test)]
mod plenty;
#[cfg(test)]
mod reading;
#[cfg(test)]
mod states;
#[cfg(test)]
mod unlawful;
#[cfg(test)]
mod walking;
