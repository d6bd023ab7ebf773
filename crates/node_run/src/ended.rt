//! What a crew that the caller ran returned.
ghost use Rattle.node_run.specs.Crews.{CrewKeeps};

use crate::crew::{Crew, CrewDone};
use stage_nodes::BranchWork;
use std::snapshot::Snapshot;

/// What a crew that the caller ran returned.
#[derive(Drop)]
pub(crate) struct Ended<F: BranchWork> {
    pub(crate) crew: Snapshot<Crew<F>>,
    pub(crate) done: CrewDone<F>,
    pub(crate) ghost kept: { CrewKeeps F.kit crew.value done },
}
