//! What a network function of any kind promises.
//!
//! A [`Function`] acts on one packet after another through a [`packet_version::View`] of its own profile. Its
//! `behaviour` (of `chain_walk`) is a function only of what it sees: the step is the same whether the packet is whole
//! or in parts. `keeps` says that it keeps to its profile. A function that counts notes a packet ([`Function::look`])
//! and settles the note later ([`Function::settle`]); `counts` says that both together are its step. A function whose
//! profile says that it neither keeps a state nor counts can be cloned ([`Function::try_clone`]), so that several
//! threads run it at once.
//!
//! A [`FlowNote`] is what such a function notes: the flow of a packet, and the packet's bytes. A flow is a
//! [`FiveTuple`], the protocol and both ends, where an [`Endpoint`] is an address of IPv4 or IPv6 and a port (RFC 791,
//! RFC 8200, RFC 793, RFC 768). `specs/SameFlow.antt` says when two packets are of one flow. An address of IPv4 is never
//! one of IPv6, so flows of the two versions are never confused.
//!
//! [`Function::decide`] names the lines of a function's declaration that decide what it does to a packet, by their roles
//! there ([`DecidingLine`]); each drop has exactly one.
//!
//! What runs functions rests on these promises alone and knows no kind. Left out: the kinds, how they are made of the
//! lines of a policy, what is counted of a flow, and the order in which functions see packets.
#![tactic(auto)]

mod deciding;
mod flow;
mod function;
mod note;

pub use deciding::{DecidingLine, SettingKey};
pub use flow::{Endpoint, FiveTuple};
pub use function::Function;
pub use note::FlowNote;
