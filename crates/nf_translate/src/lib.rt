//! Network functions that give packets other addresses, flow by flow.
//!
//! A flow is identified by the source of its packets: the protocol, the source address and the source port (RFC 791,
//! RFC 8200, RFC 793, RFC 768).
//!
//! A [`Balancer`] sends packets for its virtual address to one of its backends, and all packets of a flow, which is
//! identified by its [`Client`], to the same one. It keeps the flows in the order of first sight, and the backends take
//! turns. Its addresses are all of IPv4 or all of IPv6.
//!
//! A [`Nat`] lets the endpoints of a prefix share one public address (RFC 3022): each [`Endpoint`] has a public port of
//! its own, in the order of first sight, and what is sent to that port is delivered to the endpoint. If no port is
//! left, or nobody has the port, the packet is dropped. It works on IPv4 only, and a packet of IPv6 passes.
//!
//! [`Balancer::build`] and [`Nat::build`] make them of the lines that an operator wrote, or return the least line that
//! is refused. As functions of a chain they have one meaning each, `balancer_behaviour` of `specs/Balancers.antt` and
//! `nat_behaviour` of `specs/Nats.antt`. They see a packet through a view of a version of it (`step`); if memory runs
//! out, the function and the view are as before. `state_lines` prints the flows or the mappings. `balancer_keeps` and
//! `nat_keeps` of `specs/BalancerLaws.antt` and `specs/NatLaws.antt` say that they keep to their profiles.
//!
//! Stated without the steps: [`flows_keep_their_backends`], [`backends_are_of_one_version`], [`packets_come_back`] and
//! [`ports_run_out_once_all_are_taken`].
//!
//! Which line of its declaration decides on a packet is told by [`Balancer::decide`] and [`Nat::decide`]
//! (`balancer_decides` and `nat_decides` of the same specs). [`a_balancer_sends_to_the_backend_whose_line_decides`] and
//! [`a_translation_does_what_the_deciding_line_says`] say that these lines do what the step does.
//!
//! A client and an endpoint are found by their key (`first_sight::FirstSeen`), and a mapping by its public port,
//! without a search. Flows and mappings are never forgotten, so only memory limits the flows of a balancer.
#![tactic(auto)]

mod balancer;
mod balancer_build;
mod balancer_lines;
mod client;
mod endpoint;
mod laws;
mod nat;
mod nat_build;
mod nat_lines;

pub use balancer::{Balancer, BalancerSettings};
pub use client::Client;
pub use endpoint::Endpoint;
pub use laws::{
    a_balancer_sends_to_the_backend_whose_line_decides,
    a_translation_does_what_the_deciding_line_says, backends_are_of_one_version,
    flows_keep_their_backends, packets_come_back, ports_run_out_once_all_are_taken,
};
pub use nat::{Nat, NatSettings};
