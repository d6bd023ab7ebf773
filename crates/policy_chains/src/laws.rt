//! Properties of what runs.

ghost use Rattle.std.specs.Prelude.{◌≡◌, ◌<◌, ℕ, List, length, map, All};
ghost use Rattle.graph_compile.specs.Cutting.{cut};
ghost use Rattle.graph_text.specs.Chains.{profiles_in};
ghost use Rattle.policy_text.specs.declared.policy.FunctionDecl.{FunctionDecl};
ghost use Rattle.plan_text.specs.Plan.{is_whole_at};
ghost use Rattle.policy_chains.specs.Profiled.{Profiled};
ghost use Rattle.policy_chains.specs.Services.{pieces_at};
ghost use Rattle.policy_chains.specs.Shown.{stages_run, stages_shown};

/// A law: piece by piece, the stages that the plan of a chain shows are those in which it runs, unless an operator wrote
/// a graph for it, which is then both shown and run.
pub fn the_plan_is_what_runs()
    ensures { (functions : List FunctionDecl) → (order : List ℕ) → All (λ p. p < length functions) order →
        map stages_run (pieces_at functions order) ≡ map (stages_shown functions) (cut (is_whole_at functions) order) }
{}

/// A law: the functions of a chain of one piece have the profiles of their declarations.
pub fn one_piece_has_the_profiles()
    ensures { (functions : List FunctionDecl) → (places : List ℕ) → All (λ p. p < length functions) places →
        Profiled (profiles_in functions places) (pieces_at functions places) }
{}
