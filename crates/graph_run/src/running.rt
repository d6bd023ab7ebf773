//! The functions of a chain, and the graph in which they run.

use graph_compile::Graph;
use pace::Pace;
use packet_function::Function;
use std::marker::Model;

/// Functions in chain order, in the states in which the last packet left them, and a graph that is lawful
/// for them.
#[derive(Drop)]
pub struct Running<F: Function> {
    pub(crate) functions: Vec<F>,
    pub(crate) graph: Graph,
    // The functions in a row, for bursts on one thread, once there was one. Contracts don't see it.
    pub(crate) row: Option<Graph>,
    // How its bursts run. Contracts don't see it.
    pub(crate) pace: Pace,
}

impl<F: Function> Model for Running<F> {
    ghost use Rattle.std.specs.Prelude.{IfSome};
    ghost use Rattle.graph_run.specs.Running.{PlainRunning, IsRunning, IsRow};

    ghost Value = { PlainRunning F };

    ghost view = { λ r. record { functions = r.functions.items; graph = r.graph } };

    ghost invariant = { λ r. IsRunning F.behaviour r.functions.items r.graph × IfSome r.row (IsRow F.behaviour r.functions.items) };
}

impl<F: Function> Running<F> {
    ghost use Rattle.std.specs.Prelude.{◌≡◌};
    ghost use Rattle.graph_run.specs.Running.{IsRunning};

    /// At most 64 functions in chain order, in their initial states, and a graph that is lawful for their profiles, in
    /// which each stage has a branch and each branch a function. Allocates nothing.
    pub fn new(functions: Vec<F>, graph: Graph) -> Running<F>
        requires { IsRunning F.behaviour functions.items graph }
        ensures { result ≡ record { functions = functions.items; graph = graph } }
    {
        Running {
            functions,
            graph,
            row: None,
            pace: Pace::new(),
        }
    }

    /// The functions in chain order, in the states in which the last packet left them, and their graph.
    pub fn into_parts(self) -> (Vec<F>, Graph)
        ensures functions { result.0.items ≡ self.functions }
        ensures graph { result.1 ≡ self.graph }
        ensures running { IsRunning F.behaviour result.0.items result.1 }
    {
        let Running {
            functions,
            graph,
            row: _,
            pace: _,
        } = self;
        (functions, graph)
    }

    /// The functions in chain order, in the states in which the last packet left them.
    pub fn functions(&self) -> &[F]
        ensures { result.now ≡ self.now.functions }
    {
        self.functions.as_slice()
    }

    /// The graph in which the functions run.
    pub fn graph(&self) -> &Graph
        ensures { result.now ≡ self.now.graph }
    {
        &self.graph
    }

    /// How the bursts of the chain run. The fate of a packet never depends on it.
    pub fn pace(&self) -> Pace {
        self.pace
    }

    /// The same functions and graph, whose bursts run at this pace from now on.
    pub fn paced(mut self, pace: Pace) -> Running<F>
        ensures { result ≡ self }
    {
        self.pace = pace;
        self
    }
}
