//! Runs and plans with graphs that were written by hand.

use crate::packets::NOTHING;
use crate::rows::{Row, Words, compare};
use crate::states::{BALANCED, COUNTED};

const RUN_IN: &[Words<'static>] = &[
    &["run", "p", "c", "o", "r", "--graph", "g"],
    &["run", "--graph=g", "p", "c", "o", "r", "--burst", "1"],
];

// Both functions in one branch: what is written doesn't change.
const IN_ONE_BRANCH: Row<'static> = Row {
    calls: RUN_IN,
    graph: b"nfp-graph 1\nchain main\nstage\nbranch mon fw\n",
    ..COUNTED
};

// A stage for the monitor and the firewall, and one for the balancer: nothing is copied.
const IN_TWO_STAGES: Row<'static> = Row {
    calls: RUN_IN,
    graph: b"nfp-graph 1\nchain main\nstage\nbranch m\nbranch f\nstage\nbranch b\n",
    report: b"nfp report 1\ndrop 2 main f\nrecords 3 emitted 2 dropped 1\nfunction main m monitor\n  flow 17 10.0.0.1 1000 10.0.0.2 53 packets 2 bytes 56\n  flow 17 10.0.0.9 1000 10.0.0.2 53 packets 1 bytes 28\nfunction main f firewall\nfunction main b balancer\n  flow 17 10.0.0.1 1000 backend 10.9.0.1\nend\n",
    ..BALANCED
};

const TAKEN: &[Row<'static>] = &[IN_ONE_BRANCH, IN_TWO_STAGES];

#[test]
fn a_graph_is_taken_that_keeps_the_result(rt: HostRuntime) {
    compare(&rt, TAKEN);
}

const SIDE_BY_SIDE: Row<'static> = Row {
    calls: &[
        &["run", "p", "c", "o", "r", "--graph", "g"],
        &["plan", "p", "--graph", "g"],
    ],
    graph: b"nfp-graph 1\nchain main\nstage\nbranch m f\nbranch b\n",
    outcome: "Graph(Forbidden(0, 1, 2, Drop, State))",
    out: NOTHING,
    report: b"",
    note: b"graph: f before b forbidden: drop before state\n",
    ..BALANCED
};

const TURNED_ROUND: Row<'static> = Row {
    graph: b"nfp-graph 1\nchain main\nstage\nbranch f m\nstage\nbranch b\n",
    outcome: "Graph(OutOfOrder(0, 0, 1))",
    note: b"graph: m before f out of order\n",
    ..SIDE_BY_SIDE
};

const LEFT_OUT: Row<'static> = Row {
    graph: b"nfp-graph 1\nchain main\nstage\nbranch m b\n",
    outcome: "Graph(Missing(0, 1))",
    note: b"graph: missing f\n",
    ..SIDE_BY_SIDE
};

const UNNAMED: Row<'static> = Row {
    graph: b"nfp-graph 1\nchain main\nstage\nbranch m x\n",
    outcome: "Graph(UnknownName(4))",
    note: b"graph: line 4: unknown name\n",
    ..SIDE_BY_SIDE
};

const NO_VERSION: Row<'static> = Row {
    graph: b"# nothing else\n",
    outcome: "Graph(BadVersionLine)",
    note: b"graph: bad version line\n",
    ..SIDE_BY_SIDE
};

const REFUSED: &[Row<'static>] = &[SIDE_BY_SIDE, TURNED_ROUND, LEFT_OUT, UNNAMED, NO_VERSION];

#[test]
fn a_graph_is_refused_for_its_first_fault(rt: HostRuntime) {
    compare(&rt, REFUSED);
}

const SHOWN: &[Row<'static>] = &[Row {
    calls: &[&["plan", "p", "--graph", "g"]],
    out: NOTHING,
    report: b"",
    note: b"chain main\norder m f b\nstage 1\nbranch 1 m\nbranch 2 f\npart tag shared\npart src shared\npart dst shared\npart sport shared\npart dport shared\nstage 2\nbranch 1 b\npart src shared\npart dst moved 1\npart sport shared\n",
    ..IN_TWO_STAGES
}];

#[test]
fn a_plan_shows_the_graph_that_was_written(rt: HostRuntime) {
    compare(&rt, SHOWN);
}
