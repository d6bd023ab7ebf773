//! What a branch has of the packet besides its own parts.

use crate::held::Held;

/// What a branch sees of a packet but doesn't write. `T` is the right to read, or a claim.
#[derive(Drop)]
pub(crate) enum Loan<T> {
    /// The packet is shared with other branches.
    Shared(T),
    /// The branch is the only one of its stage, and has the packet itself.
    Whole(Held),
}
