//! What the compiled graph of a chain is, without the rule that makes it.
//!
//! The rule of `graph_compile` takes the functions of a chain one after another, and puts each where the dependency
//! table lets it. The graph that results is described here by looking at it alone:
//!
//! - it may replace the chain, and no stage and no branch is empty;
//! - a function that isn't the first of its branch has a cause to be there: a function before it in the branch that
//!   must come before it;
//! - a stage that another one follows has a cause to be closed: two of its branches have functions that must come
//!   before the first function of the next stage;
//! - the branches of a stage, which work side by side, are listed in the order of their first functions.
//!
//! [`causes_determine_the_graph`] says that the compiled graph is like this, and that no other graph is. So to know the
//! graph of a chain nobody has to follow the rule: a graph that meets these points is the one that is compiled.
//!
//! None of the last three points can be left out: each of three graphs in `proofs/Rows.antt` misses one of them, and no
//! other point. The first of these graphs shows that it isn't enough if the functions of a branch belong together. Of
//! two functions that both come before a third, the second has no cause to be in the branch of the first.
//!
//! There is no code here, and no crate needs this one.
#![tactic(auto)]

mod laws;

pub use laws::causes_determine_the_graph;
