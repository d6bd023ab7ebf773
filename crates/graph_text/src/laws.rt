//! Which stages have no fault.

ghost use Rattle.std.specs.Prelude.{◌≡◌, ℕ, List, length, Ok};
ghost use Rattle.action_profile.specs.declared.rights.Profile.{Profile};
ghost use Rattle.graph_compile.specs.Facts.{IsLawful, IsFull};
ghost use Rattle.graph_compile.specs.declared.graph.Branch.{Branch};
ghost use Rattle.graph_text.specs.Faults.{faultless};
ghost use Rattle.graph_text.specs.Graphs.{graph_of_stages};

use graph_compile::lawful_graph_is_staged;

/// A law: if the graph of these stages is lawful for a chain, each stage has a branch and each branch has a function,
/// then the stages have none of the faults that concern a chain as a whole.
pub fn lawful_stages_have_no_fault()
    ensures { (chain : ℕ) → (order : List ℕ) → (profiles : List Profile) → (stages : List (List Branch)) → length profiles ≡ length order →
        IsFull (graph_of_stages profiles stages) → IsLawful (graph_of_stages profiles stages) profiles → faultless chain order profiles stages ≡ Ok tt }
{
    lawful_graph_is_staged();
}
