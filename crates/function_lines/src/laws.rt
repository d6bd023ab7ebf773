//! What holds of the least refused line of a declaration.
ghost use Rattle.std.specs.Prelude.{◌≡◌, ◌≤◌, ℕ, Some, None};
ghost use Rattle.policy_text.specs.declared.policy.FunctionDecl.{FunctionDecl};
ghost use Rattle.function_lines.specs.KindLines.{KindLines, refused_line};
ghost use Rattle.function_lines.specs.Refusing.{IsRefused};

/// The named line is refused, and no refused line has a lesser number. If none is named, none is refused.
pub fn least_refused_line<L>()
    ensures named { (lines : KindLines L) (decl : FunctionDecl) (line : ℕ) → refused_line lines decl ≡ Some line → IsRefused lines decl line }
    ensures least { (lines : KindLines L) (decl : FunctionDecl) (line other : ℕ) → refused_line lines decl ≡ Some line → IsRefused lines decl other → line ≤ other }
    ensures none { (lines : KindLines L) (decl : FunctionDecl) (line : ℕ) → refused_line lines decl ≡ None → ¬ IsRefused lines decl line }
{}
