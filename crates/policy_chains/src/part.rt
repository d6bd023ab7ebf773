//! A part of a chain.

use crate::named::NamedFunction;
use nf_tunnel::{Decap, Encap};

/// A part of a chain: functions in a row, or one end of a tunnel, which rewrites packets whole.
#[derive(Drop)]
pub enum ChainPart {
    Functions(Vec<NamedFunction>),
    Encap(Encap),
    Decap(Decap),
}
