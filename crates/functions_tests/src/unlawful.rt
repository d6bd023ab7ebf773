//! Graphs that are compiled from no chain, lawful and not.

use crate::plenty::had;
use action_profile::{FieldSet, Mode, Profile, StageParts, Touch};
use graph_compile::{Branch, Graph, Stage, lawful};
use item_list::Items;
use std::alloc::Global;
use std::process::Abort;

// A function that does nothing.
const IDLE: Profile = Profile {
    reads: FieldSet::NONE,
    writes: FieldSet::NONE,
    drops: false,
    state: false,
    counts: false,
    adds: false,
    removes: false,
    whole: false,
};

// A branch with these positions.
fn branch(rt: &impl Abort, alloc: Global, positions: &[u32]) -> Branch {
    Branch {
        positions: Items::new(had(rt, positions.to_vec(alloc))),
    }
}

// A stage in which each branch touches nothing.
fn idle_stage(rt: &impl Abort, alloc: Global, branches: &[&[u32]]) -> Stage {
    let mut made = Vec::new(alloc);
    let mut touches = Vec::new(alloc);
    for positions in branches {
        had(rt, made.push(branch(rt, alloc, positions)));
        had(rt, touches.push(Touch::NONE));
    }
    Stage {
        branches: Items::new(made),
        parts: StageParts {
            modes: [Mode::Shared; 10],
            touches: Items::new(touches),
        },
    }
}

// Is a graph of these stages lawful for two functions that do nothing?
fn is_lawful(rt: &impl Abort, alloc: Global, stages: &[&[&[u32]]]) -> bool {
    let mut made = Vec::new(alloc);
    for branches in stages {
        had(rt, made.push(idle_stage(rt, alloc, branches)));
    }
    let graph = Graph {
        stages: Items::new(made),
    };
    lawful(&graph, &[IDLE, IDLE])
}

// Graphs, stage by stage, and whether each is lawful.
const GRAPHS: &[(&[&[&[u32]]], bool)] = &[
    // Each position occurs once, in any branch, and positions rise in each branch.
    (&[&[&[1, 2], &[]]], true),
    (&[&[&[2], &[1]]], true),
    (&[&[&[2, 1]]], false),
    (&[&[&[1], &[1]]], false),
    (&[&[&[0], &[1]]], false),
    (&[&[&[1], &[3]]], false),
];

// A stage without a branch is between two stages, which are then not compared with each other.
const STAGES: &[(&[&[&[u32]]], bool)] = &[
    (&[&[&[1]], &[&[2]]], true),
    (&[&[&[2]], &[&[1]]], false),
    (&[&[&[2]], &[], &[&[1]]], true),
];

fn compare(rt: &(impl Abort + AllocGlobal), graphs: &[(&[&[&[u32]]], bool)]) {
    for (stages, lawful) in graphs {
        assert!(rt; is_lawful(rt, rt.alloc(), stages) == *lawful);
    }
}

#[test]
fn takes_each_position_once_in_any_branch(rt: HostRuntime) {
    compare(&rt, GRAPHS);
}

#[test]
fn holds_a_stage_against_the_next_alone(rt: HostRuntime) {
    compare(&rt, STAGES);
}
