//! Network functions that rewrite packets and keep no state: headers, tags and data.
//!
//! A [`Marker`] writes the IPv4 type of service (RFC 791, 3.1), whose high six bits are the DSCP (RFC 2474, 3): that of
//! the first rule whose clauses a packet meets. IPv6's traffic class isn't a field, so an IPv6 packet doesn't change. A
//! [`Nexthop`] sends a packet over another link: by the first rule whose prefix holds its destination it writes both
//! link addresses (IEEE 802.3, 3.1.1). A [`Hop`] reduces the time to live, which IPv6 names hop limit, by one, and
//! drops a packet for which nothing would be left (RFC 791, 3.2; RFC 8200, 3). A [`Tagger`] adds a customer tag before
//! the tags that a packet has, and an [`Untagger`] removes the outermost tag (IEEE 802.1Q, 9.3). If a packet lacks the
//! field that would be written, it doesn't change.
//!
//! A [`Redactor`] overwrites data that must not be disclosed: in a packet's data each of its patterns of 1 to 256
//! bytes, one after another in the listed order, each leftmost occurrence that doesn't overlap one before it, byte by
//! byte with a small x, so that the length stays. If no pattern occurs, nothing is written. The searcher of a pattern
//! is made once, when the redactor is built; a step searches and overwrites the bytes that the view lends, without a
//! copy. A pattern that begins in one packet and ends in another is not found: no packet is remembered.
//!
//! `build` of each makes it of the lines that an operator wrote, or returns the least line that is refused. No line
//! sets a hop or an untagger up ([`NoLine`]). A rule may use the values that its function sees: a marker's rule
//! anything but tags, a tagger's rule only the source address.
//!
//! As functions of a chain they have one meaning each: `marker_behaviour` of `specs/Markers.antt`, `nexthop_behaviour`
//! of `specs/Nexthops.antt`, `hop_behaviour` of `specs/Hops.antt`, `tagger_behaviour` of `specs/Taggers.antt`,
//! `untagger_behaviour` of `specs/Untaggers.antt` and `redactor_behaviour` of `specs/Redactors.antt`. They see a packet
//! through a view of a version of it (`step`), and allocate nothing there. `marker_keeps`, `nexthop_keeps`,
//! `hop_keeps`, `tagger_keeps`, `untagger_keeps` and `redactor_keeps`, each in a file of `specs/` of its own, say that
//! they keep to their profiles. None has a state, so none has lines that show it, and the same function may be in
//! several places: `try_clone` returns one more of it, over the same rules or patterns in memory, and a hop and an
//! untagger are `Copy`.
//!
//! `decide` names the lines that decide what a function does to a packet: `marker_decides` and the like, each beside its
//! behaviour. No line of an untagger decides anything.
//!
//! Stated without the steps, [`new_tag_is_outermost`] says that clauses see the VLAN id of a new tag, and that an
//! untagger removes it again. [`deciding_rule_marks`], [`deciding_rule_leads_on`], [`deciding_rule_tags`],
//! [`declaration_decides_drops`] and [`deciding_patterns_redact`] say that the lines that decide do what the step does.
//!
//! Checksums are not adjusted here: that is done once, when a packet leaves (`packet_fields::seal`).
#![tactic(auto)]

mod asking;
mod deciding;
mod hop;
mod laws;
mod link_address;
mod marker;
mod nexthop;
mod no_lines;
mod present;
mod redactor;
mod tagger;
mod untagger;

pub use hop::Hop;
pub use laws::{
    deciding_patterns_redact, deciding_rule_leads_on, deciding_rule_marks, deciding_rule_tags,
    declaration_decides_drops, new_tag_is_outermost,
};
pub use link_address::LinkAddress;
pub use marker::{MarkRule, Marker};
pub use nexthop::{Nexthop, NexthopRule};
pub use no_lines::NoLine;
pub use redactor::Redactor;
pub use tagger::{TagRule, Tagger};
pub use untagger::Untagger;
