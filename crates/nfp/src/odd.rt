//! What is odd in a policy whose plan was shown, or through whose chains packets went.

use nfp_outside::Slot;
use operator_help::policy::PolicyText;
use operator_help::{Page, lint};
use policy_judge::judge;
use policy_lint::{Finding, Items, cut_lines};
use std::alloc::Global;
use std::rt::Env;
use watched_desk::Seen;

/// The bytes of the longest policy.
const LONGEST: usize = 1_048_576;

/// Adds each thing that is odd in the policy that was read, unless the environment has `NFP_LINT=0`.
pub fn tell_odd(page: &mut Page, rt: &impl Env, alloc: Global, seen: &Seen) {
    if let Some(policy) = policy_in(rt, seen) {
        if let Some(found) = find(alloc, policy.text) {
            lint::findings(page, policy, found.as_slice());
        }
    }
}

/// Adds a line that says how many odd things are in the policy that was read, if there are any and the environment has no `NFP_LINT=0`.
pub fn count_odd(page: &mut Page, rt: &impl Env, alloc: Global, seen: &Seen) {
    if let Some(policy) = policy_in(rt, seen) {
        if let Some(found) = find(alloc, policy.text) {
            lint::count(page, policy.name, found.as_slice().len());
        }
    }
}

// The policy that was read, if it is to be looked at.
fn policy_in<'a>(rt: &impl Env, seen: &'a Seen) -> Option<PolicyText<'a>> {
    match (seen.name(Slot::Policy), seen.policy()) {
        (Some(name), Some(text)) if is_wanted(rt) => Some(PolicyText { name, text }),
        _ => None,
    }
}

fn is_wanted(rt: &impl Env) -> bool {
    let mut value = [0u8; 2];
    !(matches!(rt.var("NFP_LINT", &mut value), Ok(1)) && value[0] == b'0')
}

// What is found, or nothing if there is no memory to look for it.
fn find(alloc: Global, text: &[u8]) -> Option<Items<Finding>> {
    if text.len() > LONGEST {
        return None;
    }
    let Ok(judged) = judge(alloc, text) else {
        return None;
    };
    let Ok(cuts) = cut_lines(alloc, text) else {
        return None;
    };
    let found = policy_lint::lint(
        alloc,
        cuts.as_slice(),
        &judged.policy,
        judged.orders.as_slice(),
    );
    found.ok()
}
