//! What holds of a graph and its parts.

ghost use Rattle.std.specs.Prelude.{◌≡◌, ◌≢◌, ◌<◌, ◌≤◌, ◌+◌, ◌&&◌, not, suc, ℕ, true, false, List, length, if◌then◌else◌, count_by, IsTrue, None, Some};
ghost use Rattle.std.specs.List.{list_any};
ghost use Rattle.packet_fields.specs.declared.field.Field.{Field};
ghost use Rattle.action_profile.specs.declared.parts.Touch.{Touch};
ghost use Rattle.action_profile.specs.declared.rights.Profile.{Profile};
ghost use Rattle.graph_compile.specs.declared.graph.Branch.{Branch};
ghost use Rattle.graph_compile.specs.declared.graph.Graph.{Graph};
ghost use Rattle.graph_compile.specs.declared.graph.Stage.{Stage};
ghost use Rattle.action_profile.specs.declared.parts.Mode.TheVariants.{Shared, Moved, Copied};
ghost use Rattle.graph_compile.specs.Causes.{IsClosedForCause, IsJoinedForCause};
ghost use Rattle.graph_compile.specs.Facts.{IsLawful, IsFull};
ghost use Rattle.graph_compile.specs.Handing.{passes_at};
ghost use Rattle.graph_compile.specs.Lawful.{IsLawfulStage, IsStaged};
ghost use Rattle.graph_compile.specs.Owners.{HasOwners};
ghost use Rattle.action_profile.specs.Modes.{has_write, has_touch, only_reads, mode_of, copies};
ghost use Rattle.graph_compile.specs.Parts.{branch_reads, branch_writes, stage_parts};
ghost use Rattle.graph_compile.specs.Stages.{graph_of};

/// A law: a graph whose stages follow each other, each from the position of its first function on, is lawful for a
/// chain. If no stage and no branch of a lawful graph is empty, its stages follow each other like this.
pub fn lawful_graph_is_staged()
    ensures staged { (graph : Graph) → (chain : List Profile) → IsFull graph → IsLawful graph chain → IsStaged chain 1 graph.stages (suc (length chain)) }
    ensures lawful { (graph : Graph) → (chain : List Profile) → IsStaged chain 1 graph.stages (suc (length chain)) → IsLawful graph chain }
{}

/// A law: stages that follow each other don't end before they begin, so each position of a stage is
/// one of the chain.
pub fn stages_rise()
    ensures { (chain : List Profile) → (first : ℕ) → (stages : List Stage) → (next : ℕ) → IsStaged chain first stages next → first ≤ next }
{}

/// A law: each position of a lawful stage is owned by one branch, which has its positions in order and gets what they
/// read and write; functions of different branches may run side by side.
pub fn lawful_stage_has_owners()
    ensures { (chain : List Profile) → (first : ℕ) → (stage : Stage) → IsLawfulStage chain first stage → HasOwners chain first stage }
{}

/// A law: a field that no branch writes isn't copied.
pub fn unwritten_is_not_copied()
    ensures { (chain : List Profile) → (branches : List Branch) → (f : Field) → list_any (λ b. branch_writes chain b f) branches ≡ false → copies (stage_parts chain branches) f ≡ 0 }
{}

/// A law: no copy is unnecessary. For a field that some branch writes, the copies and the original are exactly one for
/// each branch that writes it, and one more if some branch only reads it.
pub fn no_copy_is_spared()
    ensures { (chain : List Profile) → (branches : List Branch) → (f : Field) → list_any (λ b. branch_writes chain b f) branches ≡ true →
        copies (stage_parts chain branches) f + 1 ≡ count_by (λ b. branch_writes chain b f) branches + (if list_any (λ b. branch_reads chain b f && not (branch_writes chain b f)) branches then 1 else 0) }
{}

/// A law: how a field is passed on follows from what each branch does with it. A field that no branch writes is shared.
/// One that a branch writes and no other touches is moved there. In all other cases the original is leased if a branch
/// only reads it, and otherwise goes to the first branch that writes it.
pub fn fields_are_handed_on_by_rule()
    ensures shared { (touches : List Touch) → (f : Field) → ((k : ℕ) → passes_at (has_write f) touches k ≡ false) → mode_of touches f ≡ Shared }
    ensures moved { (touches : List Touch) → (f : Field) → (k : ℕ) → IsTrue (passes_at (has_write f) touches k) →
        ((j : ℕ) → j ≢ k → passes_at (has_touch f) touches j ≡ false) → mode_of touches f ≡ Moved k }
    ensures leased { (touches : List Touch) → (f : Field) → (j k : ℕ) → IsTrue (passes_at (has_write f) touches j) →
        IsTrue (passes_at (only_reads f) touches k) → mode_of touches f ≡ Copied None }
    ensures first { (touches : List Touch) → (f : Field) → (j k : ℕ) → IsTrue (passes_at (has_write f) touches j) →
        ((i : ℕ) → i < j → passes_at (has_write f) touches i ≡ false) → j ≢ k → IsTrue (passes_at (has_touch f) touches k) →
        ((i : ℕ) → passes_at (only_reads f) touches i ≡ false) → mode_of touches f ≡ Copied (Some j) }
{}

/// A law: why the functions of a chain are where they are in its graph. A function that isn't the first of its branch
/// follows one in the branch that is forbidden before it. A stage is closed only if two of its branches hold a function
/// that is forbidden before the next.
pub fn functions_are_placed_for_cause()
    ensures joined { (chain : List Profile) → IsJoinedForCause chain (graph_of chain).stages }
    ensures closed { (chain : List Profile) → IsClosedForCause chain (graph_of chain).stages }
{}
