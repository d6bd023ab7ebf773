//! Network functions of every kind behind one trait.
//!
//! [`NetFunction`] is a function of any of the twelve kinds that see a packet's fields. It keeps the promises of
//! [`packet_function::Function`], with the behaviour `net_behaviour` of `specs/NetFunctions.antt`. The ends of a tunnel
//! (`nf_tunnel`), which rewrite a packet whole, don't implement [`packet_function::Function`].
//!
//! [`make`] makes the function that a policy declares, of any of the fourteen kinds, or returns the least line of the
//! declaration that is refused; its result is [`Made`]. [`build`] does the same for a declaration that is known not to
//! be an end of a tunnel.
//!
//! Left out: how functions are put into stages, and which of them see a packet.
#![tactic(auto)]

mod making;
mod net_function;

pub use making::{Made, build, make};
pub use net_function::NetFunction;
