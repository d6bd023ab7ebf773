//! A stage that is to be run.

use action_profile::StageParts;

/// The functions of a stage's branches, in branch order, and what each branch gets of a packet.
#[derive(Drop)]
pub struct StageWork<F> {
    pub parts: StageParts,
    pub branches: Vec<F>,
}
