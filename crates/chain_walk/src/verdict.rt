//! The decision of a function on a packet.

/// The decision of a function on a packet.
#[derive(Clone, Copy, Debug, PartialEq, Eq)]
pub enum Verdict {
    /// The packet goes on, with what the function wrote.
    Pass,
    /// The packet ends here.
    Drop,
}
