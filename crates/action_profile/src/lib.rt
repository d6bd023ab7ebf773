//! What each kind of network function may do to a packet.
//!
//! A [`Profile`] declares the fields that a function reads and writes, whether it may drop a
//! packet, whether it keeps a state, whether it counts what it sees, whether it adds or removes a tag
//! (IEEE 802.1Q), and whether it works on the whole frame. [`profile`] gives the profile of each
//! [`Kind`]. A [`FieldSet`] has a bit for each field, in the fields' order.
//!
//! Statements about profiles in other crates use two definitions, `reads_of` and `writes_of` of `specs/Profiles.antt`:
//! whether a function reads or writes a field. To add or to remove a tag both reads and writes the list of tags, so
//! nothing else needs to mention it.
//!
//! [`StageParts`] says how a stage of several functions side by side passes on the fields of a packet: shared, moved or
//! copied ([`Mode`]), and what each branch touches ([`Touch`]).
//!
//! Left out: what a function does with the fields, and how functions are put into stages.
#![tactic(auto)]

mod field_set;
mod kind;
mod laws;
mod parts;
mod rights;
mod table;

pub use field_set::{FieldSet, all_fields};
pub use kind::{KINDS, Kind};
pub use laws::kinds_have_their_words;
pub use parts::{Mode, StageParts, Touch};
pub use rights::Profile;
pub use table::profile;
