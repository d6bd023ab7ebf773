//! The line numbers of a declaration, by the roles of its lines.
//!
//! A function says which lines of its declaration decided by their roles ([`packet_function::DecidingLine`]), so no kind
//! keeps line numbers. [`DeclaredLines`] are the numbers of the lines of one declaration. [`DeclaredLines::number`]
//! returns the number of the line that has a role, and [`DeclaredLines::deciders`] the numbers of all lines that can
//! decide, lowest first.
//!
//! [`each_role_is_listed`] says that each line that can decide is listed, and [`deciders_rise`] that the list is in the
//! order of the text. Left out: which line decided, which the kind says.
#![tactic(auto)]

mod laws;
mod lines;
mod roles;

pub use laws::{deciders_rise, each_role_is_listed};
pub use lines::DeclaredLines;
