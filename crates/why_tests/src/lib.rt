//! Tests of the call `why`, over desks in memory: what no clause says, above all that memory suffices if there is plenty.
//!
//! The words, the policy and the capture of a call and what it has to leave are rows of data, [`rows::Row`], which one
//! function runs and compares as a whole.
#![tactic(auto)]

#[cfg(test)]
mod captures;
#[cfg(test)]
mod plenty;
#[cfg(test)]
mod rows;
#[cfg(test)]
mod whys;
