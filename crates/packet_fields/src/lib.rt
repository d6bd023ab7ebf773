//! The fields of an Ethernet frame: where they lie, how they are read, written and re-tagged, and how
//! checksums follow a change.
//!
//! A frame is two link addresses, tags (IEEE 802.1Q), and a packet that begins with its EtherType. [`layout`] finds the
//! ten fields of a frame that a network function can write, and the values that none writes, in the headers of IPv4
//! (RFC 791), IPv6 (RFC 8200), TCP (RFC 793) and UDP (RFC 768). It accepts bytes of any kind and length: a frame that
//! was cut, a later fragment or an invalid header has fewer fields, and no call reads past the captured bytes. [`get`]
//! returns a field's bytes and [`put`] writes them. An [`Outline`] does the same for a caller that needs few fields: it
//! keeps which headers there are, and finds a field when it is asked for. [`tags`] and [`with_tags`] are for the list
//! of tags, whose length may change; [`seal`] adjusts the checksums once for all changes (RFC 1624). Only [`with_tags`]
//! allocates memory.
//!
//! What is promised, for all bytes: a field that was written has its value, and every other field, every
//! place and the rest of the frame stay; a re-tagged frame has these tags; sealing changes no field,
//! leaves a frame that did not change, and keeps right checksums right by the sum of RFC 1071.
//!
//! Contracts name a field's bytes by `value` of `packet_fields.specs.Fields`, its place by `span`, and the whole layout
//! by `layout_of`; `IsLengthOf` of that module says how many bytes a field has. An outline is `outline_of` of
//! `specs.Outlines`. A frame that was written to is `put` and `with_tags` of `specs.Writing`; `written` and `rest_of`
//! of that module take a frame apart into its fields and its rest. `proofs.Walk` has their laws: a frame is built again
//! from both, the fields of a frame that was written to are the new values over the old, and its rest stays. A sealed
//! frame is `sealed` of `specs.Checksums`. A [`Frame`] is seen as the list of its bytes.
//!
//! IPv6's extension headers are left out: none is followed, and if one comes after the header there is no transport
//! header (RFC 8200, 4). Checksums as such are left out too: none is computed, and a wrong one stays wrong.
#![tactic(auto)]

mod access;
mod field;
mod frame;
mod outline;
mod packet;
mod places;
mod plan;
mod sealing;
mod sums;
mod tagging;
mod transport;

pub use access::{get, put};
pub use field::Field;
pub use frame::Frame;
pub use outline::{Outline, Segment};
pub use packet::IpVersion;
pub use places::layout;
pub use plan::{Layout, Span};
pub use sealing::seal;
pub use tagging::{tags, with_tags};
