//! Tests of the lowest layers and of the formats, through public calls alone: lists, desks and watched desks, the
//! fields and checksums of a frame, and captures.
//!
//! No clause says that a call gets memory, so each call that allocates runs here once with ample memory. The expected
//! bytes were worked out by hand from the standards.
#![tactic(auto)]

#[cfg(test)]
mod captures;
#[cfg(test)]
mod desks;
#[cfg(test)]
mod files;
#[cfg(test)]
mod frames;
#[cfg(test)]
mod lists;
#[cfg(test)]
mod plenty;
#[cfg(test)]
mod watched;
