//! A policy without fault.

use item_list::Items;
use net_functions::Made;
use policy_check::Order;
use policy_text::Policy;

/// A policy without fault, with the order of each of its chains, in the order of the text, and the functions of each
/// chain in the order of their declarations. Each function has a place of its own, out of which it can be taken.
#[derive(Debug, Drop)]
pub struct Judged {
    pub policy: Policy,
    pub orders: Items<Order>,
    pub functions: Items<Items<Option<Made>>>,
}
