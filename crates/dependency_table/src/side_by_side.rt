//! Compares every action of one function with every action of another.

ghost use Rattle.std.specs.Prelude.{◌≡◌, find};
ghost use Rattle.std.specs.List.{list_any};
ghost use Rattle.dependency_table.specs.Actions.{may, has_action, actions, all_actions};
ghost use Rattle.dependency_table.specs.Table.{forbids, first_forbidden, is_copied, copied, pair_of};

use crate::action::{Action, Answer, all_actions};
use action_profile::{FieldSet, Profile, all_fields};
use packet_fields::Field;

/// Whether a function with profile `x` and one with profile `y`, which comes after it in the chain, may run side by
/// side.
///
/// They may not if an action of `x` forbids one of `y`. The answer names the first such pair, in the order of the
/// actions of `x`, and for each of them of those of `y`. Allocates nothing.
#[tactic(auto, unfolding(crate::specs::Table::pair_of))]
pub fn pair(x: &Profile, y: &Profile) -> Answer
    ensures { result ≡ pair_of x.now y.now }
{
    if let Some((first, second)) = first_forbidden(x, y) {
        return Answer::Forbidden { first, second };
    }
    let copied = copied(x, y);
    if copied == FieldSet::NONE {
        Answer::Free
    } else {
        Answer::Copy(copied)
    }
}

#[tactic(auto, unfolding(crate::specs::Actions::actions, crate::specs::Table::pairs, crate::specs::Table::first_forbidden))]
fn first_forbidden(x: &Profile, y: &Profile) -> Option<(Action, Action)>
    ensures { result ≡ first_forbidden x.now y.now }
{
    'actions: for first in all_actions() {
        if has_action(x, *first) {
            if let Some(second) = first_forbidden_by(*first, y) {
                return Some((*first, second));
            }
        }
    }
    None
}

// The first action of `y` that `first`, an action of the earlier function, forbids.
#[tactic(auto, unfolding(crate::specs::Actions::actions))]
fn first_forbidden_by(first: Action, y: &Profile) -> Option<Action>
    ensures { result ≡ find (forbids first) (actions y.now) }
{
    'actions: for second in all_actions() {
        if has_action(y, *second) && forbids(first, *second) {
            return Some(*second);
        }
    }
    None
}

#[tactic(auto, unfolding(crate::specs::Table::copied))]
fn copied(x: &Profile, y: &Profile) -> FieldSet
    ensures { result ≡ copied x.now y.now }
{
    let mut copied = FieldSet::NONE;
    'fields: for field in all_fields() {
        if is_copied(x, y, *field) {
            copied = copied.with(FieldSet::of(*field));
        }
    }
    copied
}

#[tactic(auto, using(crate::proofs::Copying::is_copied_is))]
fn is_copied(x: &Profile, y: &Profile, field: Field) -> bool
    ensures { result ≡ is_copied x.now y.now field }
{
    (x.reads_field(field) || x.writes_field(field)) && y.writes_field(field)
}

fn forbids(first: Action, second: Action) -> bool
    ensures { result ≡ forbids first second }
{
    match (first, second) {
        (Action::Whole, _) | (_, Action::Whole) => true,
        (Action::Write(written), Action::Read(read)) => written == read,
        (Action::Drop, Action::State) => true,
        _ => false,
    }
}

fn has_action(profile: &Profile, action: Action) -> bool
    ensures { result ≡ has_action profile.now action }
{
    match action {
        Action::Pass => !may_act(profile),
        _ => may(profile, action),
    }
}

// May it do anything?
fn may_act(profile: &Profile) -> bool
    ensures { result ≡ list_any (may profile.now) all_actions }
{
    all_actions().iter().any(|action| may(profile, *action))
}

fn may(profile: &Profile, action: Action) -> bool
    ensures { result ≡ may profile.now action }
{
    match action {
        Action::Pass => false,
        Action::Read(field) => profile.reads_field(field),
        Action::Write(field) => profile.writes_field(field),
        Action::Drop => profile.drops,
        Action::State => profile.state,
        Action::Count => profile.counts,
        Action::Whole => profile.whole,
    }
}
