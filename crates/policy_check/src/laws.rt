//! What holds of the order and the named cycle of a set of edges.

ghost use Rattle.std.specs.Prelude.{◌≡◌, ◌≢◌, ◌<◌, ℕ, List, [], All, Some, None};
ghost use Rattle.policy_check.specs.Arrangements.{IsArrangement, IsCycle, IsEarliestFirst, IsFree, TakesEarliest};
ghost use Rattle.policy_check.specs.Checked.{order_of, left_of};
ghost use Rattle.policy_check.specs.Cycles.{named_cycle};
ghost use Rattle.policy_check.specs.Edges.{Edges};
ghost use Rattle.policy_check.specs.Firsts.{IsAllowed, IsFirstForbidden};
ghost use Rattle.policy_check.specs.Refusals.{first_refusal};
ghost use Rattle.policy_check.specs.declared.fault.CheckFault.{CheckFault};
ghost use Rattle.policy_text.specs.declared.policy.FunctionDecl.{FunctionDecl};
ghost use Rattle.policy_text.specs.declared.policy.Statement.{Statement};

/// A law: if every function gets a turn, the order has each function once and respects every
/// edge.
pub fn order_respects_edges()
    ensures { (edge : Edges) → (count : ℕ) → left_of edge count ≡ [] → IsArrangement edge count (order_of edge count) }
{}

/// A law: each function in the order comes after all its predecessors, and it is the earliest declared of the functions
/// that may come at its place. After the last of the order there is no such function.
pub fn order_takes_the_earliest()
    ensures each { (edge : Edges) → (count : ℕ) → TakesEarliest edge count (order_of edge count) }
    ensures last { (edge : Edges) → (count x : ℕ) → ¬ IsFree edge count (order_of edge count) x }
{}

/// A law: if there is an order that has each function once and respects every edge, every function gets a turn, so no
/// cycle is returned.
pub fn no_cycle_beside_an_arrangement()
    ensures { (edge : Edges) → (count : ℕ) → (order : List ℕ) → IsArrangement edge count order → left_of edge count ≡ [] }
{}

/// A law: if functions remain, the named cycle is one: each of its functions has an edge to the
/// next, and the last to the first, and none is declared before the first.
pub fn named_cycle_is_real()
    ensures real { (edge : Edges) → (count : ℕ) → left_of edge count ≢ [] → IsCycle edge (named_cycle edge (left_of edge count)) }
    ensures within { (edge : Edges) → (count : ℕ) → All (λ x. x < count) (named_cycle edge (left_of edge count)) }
    ensures earliest_first { (edge : Edges) → (count : ℕ) → left_of edge count ≢ [] → IsEarliestFirst (named_cycle edge (left_of edge count)) }
{}

/// A law: if there is a cycle, functions remain, so a cycle is returned.
pub fn every_cycle_is_found()
    ensures { (edge : Edges) → (count : ℕ) → (cycle : List ℕ) → IsCycle edge cycle → All (λ x. x < count) cycle → left_of edge count ≢ [] }
{}

/// A law: if a forbidden Priority is named, it is in the text and each Priority before it is allowed. If none is named,
/// each is allowed.
pub fn named_priority_is_first()
    ensures named { (functions : List FunctionDecl) → (statements : List Statement) → (fault : CheckFault) → first_refusal functions statements ≡ Some fault → IsFirstForbidden functions statements fault }
    ensures none { (functions : List FunctionDecl) → (statements : List Statement) → first_refusal functions statements ≡ None → All (IsAllowed functions) statements }
{}
