//! A property of plans of pieces.

ghost use Rattle.std.specs.Prelude.{◌≡◌, ℕ, false, List};
ghost use Rattle.std.specs.List.{list_any};
ghost use Rattle.policy_text.specs.declared.policy.FunctionDecl.{FunctionDecl};
ghost use Rattle.graph_compile.specs.Cutting.{cut};
ghost use Rattle.plan_text.specs.Plan.{is_whole_at, numbered, pieces_text, stage_text, stages_of};

/// A law: a chain without a function that rewrites packets whole is staged as one piece.
pub fn plans_of_one_piece_stay()
    ensures { (functions : List FunctionDecl) → (order : List ℕ) → list_any (is_whole_at functions) order ≡ false →
        pieces_text functions 1 (cut (is_whole_at functions) order) ≡ numbered (stage_text functions order) 1 (stages_of functions order) }
{}
