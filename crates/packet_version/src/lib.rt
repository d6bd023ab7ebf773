//! A packet in parts, and what each branch of a stage gets of it.
//!
//! [`split`] takes a frame of any bytes apart into one [`Part`] for each field that it has and the rest of its bytes;
//! [`join`] puts them together again to the same frame. [`deal`] passes the parts to the branches of a stage, each of
//! which gets a [`Version`] of its own with the fields that it touches: a part that no branch writes is lent to all
//! that read it, one that a single branch touches is moved there, and of any other each branch that writes it has its
//! own. Only [`copy`] makes a second part, and a [`Tally`] counts it. A function sees its branch's version through a
//! [`View`], by its profile: it reads and writes what the profile names and nothing else. What no branch has stays in
//! the [`Base`]. After the stage the base gathers the lent parts ([`Base::gather`]), takes those that the branches
//! wrote ([`Version::take`], [`Gathered::put`]), and becomes a packet again ([`Gathered::finish`]). If a stage has only
//! one branch, that branch has the whole packet ([`deal_whole`]) and puts it together again ([`Version::rejoin`]):
//! there is no base, and nothing is lent.
//!
//! A part stays in its frame until a branch writes its field: then it is taken out, and [`join`] writes it back. The
//! only branch of a stage writes in the frame itself if it writes only fields of fixed length. So a field that nobody
//! writes is never copied, and everything that a stage's branches only read is lent at once, with the frame.
//!
//! The contracts promise: a frame that was split and joined is the same frame, whatever its bytes; each branch gets
//! exactly the fields that it touches and the packet has, unwritten; the tally rises by exactly the copies that are
//! due; a view shows the bytes of the version, a write changes only its one field and records its writer, and no call
//! of a view allocates memory or changes a part's room. No two branches have the same part, except one that is lent,
//! which nobody writes. [`written_is_read`] and [`left_is_read`] say what is read after a write.
//!
//! Contracts see a packet, a base, a version and a view as plain data: a list of ten optional parts, each with its
//! bytes, its writer and its room, which `as_map` of `specs/Parts.antt` reads as a map from the fields (`packet_parts`,
//! `version_parts`, and `seen_parts` of a view). With it come what the branch touches, the fixed values, what a branch
//! has of the packet besides its own parts (`kept`), the profile and the position.
//!
//! Left out: which of several parts prevails after a stage, and what a function does.
#![tactic(auto)]

mod apart;
mod base;
mod contents;
mod dealing;
mod gathered;
mod hand;
mod held;
mod laws;
mod loan;
mod part;
mod place;
mod places;
mod rejoining;
mod rest;
mod tally;
mod version;
mod view;

pub use apart::{Apart, join, split};
pub use base::Base;
pub use chain_walk::{Fixed, Verdict};
pub use dealing::{deal, deal_whole};
pub use gathered::Gathered;
pub use laws::{
    dealt_is_read, frames_come_apart, later_write_stands_over, left_is_read, shape_fits,
    tags_are_whole, unwritten_stays, view_is_formed, write_apart, written_is_one_value,
    written_is_own, written_is_read,
};
pub use part::{Part, copy};
pub use tally::Tally;
pub use version::Version;
pub use view::View;
