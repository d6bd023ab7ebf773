//! What holds of the lines that can decide.
ghost use Rattle.std.specs.Prelude.{◌≡◌, ◌<◌, AllPairs, true};
ghost use Rattle.std.specs.List.{Contains};
ghost use Rattle.policy_text.specs.declared.policy.FunctionDecl.{FunctionDecl};
ghost use Rattle.packet_function.specs.declared.deciding.DecidingLine.{DecidingLine};
ghost use Rattle.declared_lines.specs.DeclaredLines.{number_of, deciders};
ghost use Rattle.declared_lines.specs.Roles.{uses, has_line, LinesRise};

/// The lines that can decide are listed in the order of the text.
#[tactic(auto, using(crate::proofs::Rising::deciders_rise))]
pub fn deciders_rise()
    ensures { (decl : FunctionDecl) → LinesRise decl → AllPairs (λ a b. a < b) (deciders decl) }
{}

/// Each line that has a role which decides in a function of its kind is listed.
#[tactic(auto, using(crate::proofs::Listing::each_role))]
pub fn each_role_is_listed()
    ensures { (decl : FunctionDecl) (line : DecidingLine) → uses decl.kind line ≡ true → has_line decl line ≡ true →
        Contains (deciders decl) (number_of decl line) }
{}
