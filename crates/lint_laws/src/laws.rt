//! What findings are worth for packets.

ghost use Rattle.std.specs.Prelude.{◌≡◌, ◌≢◌, [], ◌∷◌, ◌++◌, List, Bool, true, Some, None, All, codes};
ghost use Rattle.std.specs.Option.{option_map};
ghost use Rattle.action_profile.specs.declared.kind.Kind.TheVariants as kinds;
ghost use Rattle.policy_text.specs.declared.policy.ChainPolicy.{ChainPolicy};
ghost use Rattle.policy_text.specs.declared.policy.FunctionDecl.{FunctionDecl};
ghost use Rattle.policy_text.specs.declared.policy.Setting.{Setting};
ghost use Rattle.policy_check.specs.declared.fault.Order.{Order};
ghost use Rattle.chain_walk.specs.Packets.{Packet, fates, functions_after};
ghost use Rattle.net_functions.specs.Builds.{function_of, refused_line};
ghost use Rattle.net_functions.specs.NetFunctions.{net_behaviour};
ghost use Rattle.net_functions.specs.declared.net_function.NetFunction.{NetFunction};
ghost use Rattle.net_functions.specs.declared.net_function.NetFunction.TheVariants as functions;
ghost use Rattle.net_functions.specs.declared.making.Made.TheVariants as made;
ghost use Rattle.policy_lint.specs.Findings.{findings};
ghost use Rattle.policy_lint.specs.Limits.{burst_of};
ghost use Rattle.policy_lint.specs.Meaning.{IsOne};
ghost use Rattle.policy_lint.specs.Nats.{nat_of};
ghost use Rattle.policy_lint.specs.Patterns.{text_of};
ghost use Rattle.lint_laws.specs.Alike.{AreAlike, DropsBy};
ghost use Rattle.lint_laws.specs.Made.{made_burst, made_entry, made_exit, made_fits, made_patterns, made_virtual};
ghost use Rattle.lint_laws.specs.OfPackets.{AreAccepted, IsSoOfPackets};
ghost use Rattle.lint_laws.specs.Reading.{read_end, read_firewall, read_fits, read_nat, read_virtual};
ghost use Rattle.lint_laws.specs.Walks.{IsGone, AreKept};

use policy_lint::findings_are_true;

/// A law: the firewall that is made of a declaration without a refused line has the rules and the default that findings read.
pub fn firewalls_are_made_as_read()
    ensures { (decl : FunctionDecl) → decl.kind ≡ kinds.Firewall → refused_line decl ≡ None → function_of decl ≡ made.Function (functions.Firewall (read_firewall decl)) }
{}

/// A law: the function that is made of a declaration without a refused line, of any kind, has the rules that findings read:
/// as many, in the same order, with the same clauses.
pub fn rules_are_made_as_read()
    ensures { (decl : FunctionDecl) → refused_line decl ≡ None → made_fits (function_of decl) ≡ read_fits decl }
{}

/// A law: the translation that is made of a declaration without a refused line has the prefix inside, the public address and the
/// ports that findings read.
pub fn nats_are_made_as_read()
    ensures { (decl : FunctionDecl) → decl.kind ≡ kinds.Nat → refused_line decl ≡ None → option_map (λ n. made.Function (functions.Nat (read_nat n))) (nat_of decl) ≡ Some (function_of decl) }
{}

/// A law: the limiter that is made of a declaration without a refused line has the burst that findings read, and what is made of
/// other kinds has none, as they read none.
pub fn bursts_are_made_as_read()
    ensures { (decl : FunctionDecl) → refused_line decl ≡ None → made_burst (function_of decl) ≡ option_map (λ burst. burst.1) (burst_of decl) }
{}

/// A law: the balancer that is made of a declaration without a refused line has the virtual address that findings read.
pub fn virtual_addresses_are_made_as_read()
    ensures { (decl : FunctionDecl) → decl.kind ≡ kinds.Balancer → refused_line decl ≡ None → made_virtual (function_of decl) ≡ read_virtual decl }
{}

/// A law: the entry of a tunnel that is made of a declaration without a refused line has the ends that findings read.
pub fn ends_are_made_as_read()
    ensures entry { (decl : FunctionDecl) → decl.kind ≡ kinds.Encap → refused_line decl ≡ None → made_entry (function_of decl) ≡ read_end (codes "entry") decl }
    ensures exit { (decl : FunctionDecl) → decl.kind ≡ kinds.Encap → refused_line decl ≡ None → made_exit (function_of decl) ≡ read_end (codes "exit") decl }
{}

/// A law: a text that findings read of a line is a pattern of the signature or of the redactor that is made.
pub fn patterns_are_made_as_read()
    ensures { (decl : FunctionDecl) → (s : Setting) → refused_line decl ≡ None → IsOne decl.settings s → text_of decl.kind s ≢ [] → IsOne (made_patterns (function_of decl)) (text_of decl.kind s) }
{}

/// A law: of a policy without refused lines, findings are so of the functions that are made. A rule that one before it covers
/// may go: without its line the function decides and writes the same for every packet. A firewall that is said to drop every
/// packet, or none, does so. Before a function that is said not to be reached stands one that drops every packet, so that in a
/// chain that rewrites no packet whole it stays as it is made.
pub fn findings_are_so_of_packets()
    ensures { (cuts : List Bool) → (chains : List ChainPolicy) → (orders : List Order) → AreAccepted chains → All (IsSoOfPackets chains orders) (findings cuts chains orders) }
{
    findings_are_true();
}

/// A law: where one of two functions that do the same stands in place of the other, each packet ends the same.
pub fn alike_functions_walk_alike()
    ensures { (front back : List NetFunction) → (f g : NetFunction) → (packets : List Packet) → AreAlike f g → fates net_behaviour (front ++ f ∷ back) packets ≡ fates net_behaviour (front ++ g ∷ back) packets }
{}

/// A law: where a function drops every packet, no packet comes out, and the functions behind it stay as they were, whatever
/// stands before it.
pub fn functions_behind_stay()
    ensures kept { (front back : List NetFunction) → (f : NetFunction) → (packets : List Packet) → DropsBy true f → AreKept front (f ∷ back) (functions_after net_behaviour (front ++ f ∷ back) packets) }
    ensures gone { (front back : List NetFunction) → (f : NetFunction) → (packets : List Packet) → DropsBy true f → All IsGone (fates net_behaviour (front ++ f ∷ back) packets) }
{}
