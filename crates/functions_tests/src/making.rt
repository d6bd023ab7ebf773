//! A function is made of what a policy declares.

use crate::plenty::had;
use function_lines::FitRules;
use net_functions::{Made, NetFunction, make};
use nf_filter::GuardedRule;
use policy_text::{BuildFault, FunctionDecl, Policy, Seen, TagSeen, parse};
use std::alloc::Global;
use std::process::Abort;

// The contracts of reading and making are long, and the prover sees all of their clauses in every function that calls
// them. So only one function calls each of them, and it promises nothing itself.

/// The policy of a text.
pub fn parsed(rt: &impl Abort, alloc: Global, text: &[u8]) -> Policy {
    assert!(rt; text.len() <= 1_048_576);
    had(rt, parse(alloc, text))
}

/// The first function that a policy declares.
pub fn first_declared<'a>(rt: &impl Abort, policy: &'a Policy) -> &'a FunctionDecl {
    match policy.chains.as_slice() {
        [chain, ..] => match chain.functions.as_slice() {
            [function, ..] => function,
            [] => rt.panic("no function"),
        },
        [] => rt.panic("no chain"),
    }
}

fn made(alloc: Global, decl: &FunctionDecl) -> Result<Made, BuildFault> {
    make(alloc, decl)
}

/// The first function that a text declares, which isn't an end of a tunnel.
pub fn built(rt: &impl Abort, alloc: Global, text: &str) -> Result<NetFunction, BuildFault> {
    let policy = parsed(rt, alloc, text.as_bytes());
    match made(alloc, first_declared(rt, &policy))? {
        Made::Function(function) => Ok(function),
        Made::Encap(_) | Made::Decap(_) => rt.panic("an end of a tunnel"),
    }
}

#[test]
fn a_firewall_is_made_of_its_lines(rt: HostRuntime) {
    let text =
        "nfp 1\nchain c\nfn f firewall\nset default deny\nrule allow proto udp dport 50-60\nrule deny\n";
    let made = built(&rt, rt.alloc(), text).expect(&rt, "a firewall");
    assert!(rt; is_firewall(&made));
}

// Is it a firewall that denies by default and has two rules, the first with two clauses and the second with none?
fn is_firewall(made: &NetFunction) -> bool {
    match made {
        NetFunction::Firewall(firewall) => {
            !firewall.default
                && firewall.rules.as_slice().len() == 2
                && is_met(&firewall.rules, &NAME_QUERY, true, 2)
                && is_met(&firewall.rules, &FOREIGN, false, 0)
        }
        _ => false,
    }
}

// The values of a packet of UDP to port 53.
const NAME_QUERY: Seen = Seen {
    tag: TagSeen::Bare,
    src: None,
    dst: None,
    src6: None,
    dst6: None,
    sport: None,
    dport: Some(53),
    proto: Some(17),
    ether_type: Some(0x0800),
    tcp_flags: None,
};

// The same of TCP.
const FOREIGN: Seen = Seen {
    proto: Some(6),
    ..NAME_QUERY
};

// Is the first rule that is met one with this decision and `clauses` clauses?
fn is_met(rules: &FitRules<GuardedRule>, seen: &Seen, allow: bool, clauses: usize) -> bool {
    match rules.first_met(seen) {
        Some(met) => met.rule.allow == allow && met.rule.fit.clauses.as_slice().len() == clauses,
        None => false,
    }
}
