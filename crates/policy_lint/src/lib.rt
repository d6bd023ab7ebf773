//! What is odd in a policy without fault.
//!
//! [`lint`] looks for what an operator will hardly have meant: chains and functions that no packet reaches, rules that never decide or
//! that no packet meets, patterns that are hardly spelled as they are meant, firewalls that drop nothing or everything or that deny by
//! addresses of one version of IP alone, limiters and rules after what rewrites sources, nats whose public address or ports can't
//! work. It returns each as a [`Finding`] with its lines, in the order that `findings` of `specs/Findings.antt` has, and promises
//! exactly these. [`Finding::text`] says what it means and how to say it otherwise.
//!
//! What a comment cuts off isn't in a policy that was read, so [`lint`] takes what [`cut_lines`] returns of its text.
//!
//! Each finding is true ([`findings_are_true`]): `specs/Meaning.antt` says what it means, in the words of the language (`is_fitting` of
//! `policy_text`) and of rules (`first_met` of `function_lines`). What that means for packets is said by [`what_is_covered_is_met`],
//! [`covered_rules_never_decide`], [`covered_chains_take_nothing`], [`clashing_clauses_are_never_met`],
//! [`bits_past_the_length_do_not_matter`], [`rules_that_allow_drop_none`], [`rules_that_drop_all_deny`] and
//! [`addresses_keep_to_their_version`]. Of how a pattern is spelled a finding says only that it is spelled so, and of a burst only its
//! size.
//!
//! A policy without findings may still be odd in another way. Which version of IP a packet has isn't looked at, nor what a chain's
//! earlier functions drop. A limiter after an end of a tunnel has no finding, since another source may be seen there.
#![tactic(auto)]

mod apart;
mod asking;
mod behind;
mod covering;
mod finding;
mod firewalls;
mod laws;
mod limits;
mod linting;
mod nats;
mod opposing;
mod patterns;
mod rule_line;
mod spelling;
mod telling;
mod verdicts;
mod versions;
mod walking;

pub use covering::covers;
pub use finding::Finding;
pub use item_list::Items;
pub use laws::{
    addresses_keep_to_their_version, bits_past_the_length_do_not_matter,
    clashing_clauses_are_never_met, covered_chains_take_nothing, covered_rules_never_decide,
    findings_are_true, rules_that_allow_drop_none, rules_that_drop_all_deny,
    what_is_covered_is_met,
};
pub use linting::lint;
pub use patterns::cut_lines;
