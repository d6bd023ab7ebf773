//! The graph of a chain, by the causes for which its functions are where they are.

ghost use Rattle.std.specs.Prelude.{◌≡◌, List};
ghost use Rattle.action_profile.specs.declared.rights.Profile.{Profile};
ghost use Rattle.graph_causes.specs.Causes.{IsPlacedForCause};
ghost use Rattle.graph_compile.specs.Stages.{graph_of};
ghost use Rattle.graph_compile.specs.declared.graph.Graph.{Graph};

/// A law: of the graphs that may replace a chain, the compiled one is the only one without an empty stage or branch in
/// which functions share a branch for a cause, stages are closed for a cause, and branches are listed in the order of
/// their first functions.
pub fn causes_determine_the_graph()
    ensures compiled { (chain : List Profile) → IsPlacedForCause (graph_of chain) chain }
    ensures only { (graph : Graph) → (chain : List Profile) → IsPlacedForCause graph chain → graph ≡ graph_of chain }
{}
