//! Tests of the top call, over desks in memory: what no clause says, above all that memory suffices if there is plenty.
//!
//! The input of a run and what it has to leave are rows of data, [`rows::Row`], which one function runs and compares as
//! a whole. The captures of rows are data too: [`packets::Capture`].
#![tactic(auto)]

#[cfg(test)]
mod flows;
#[cfg(test)]
mod gates;
#[cfg(test)]
mod graphs;
#[cfg(test)]
mod hostile;
#[cfg(test)]
mod ipv6;
#[cfg(test)]
mod marks;
#[cfg(test)]
mod ng;
#[cfg(test)]
mod options;
#[cfg(test)]
mod packets;
#[cfg(test)]
mod plenty;
#[cfg(test)]
mod rows;
#[cfg(test)]
mod runs;
#[cfg(test)]
mod states;
#[cfg(test)]
mod tunnels;
