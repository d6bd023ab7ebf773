//! The chains of a policy, ready for packets.
ghost use Rattle.std.specs.Prelude.{◌≡◌, ◌≤◌, All, IfOk, length, map};
ghost use Rattle.std.specs.List.{AllZip};
ghost use Rattle.graph_text.specs.Graphs.{no_graph};
ghost use Rattle.policy_judge.specs.Making.{functions_made};
ghost use Rattle.policy_judge.specs.Orders.{IsOrdered};
ghost use Rattle.policy_chains.specs.Services.{service_among};
ghost use Rattle.plain_chains.specs.Plain.{IsPlain, chains_of};

use crate::chain::{PlainChain, lead_chain, plain_chain};
use crate::part::copy;
use capture_bytes::{PcapRecord, Unit};
use chain_walk::Fate;
use classifier::{ClassTable, class_is_the_first};
use item_list::Items;
use net_functions::Made;
use policy_check::Order;
use policy_judge::Judged;
use policy_text::{ChainPolicy, Policy};
use std::alloc::{AllocError, Global};
use std::marker::Model;
use std::sync::Wait;
use traced_run::Trace;

/// The chains of a policy, ready for packets, one packet after another on one thread. Contracts see the chains.
#[derive(Drop)]
pub struct PlainService {
    classes: ClassTable,
    chains: Vec<PlainChain>,
}

impl Model for PlainService {
    ghost use Rattle.std.specs.Prelude.{◌≡◌, List, map};
    ghost use Rattle.plain_chains.specs.declared.chain.PlainChain.{PlainChain};

    ghost Value = { List PlainChain };

    ghost view = { λ s. s.chains.items };

    ghost invariant = { λ s. s.classes ≡ map (λ c. c.declared.fit) s.chains.items };
}

/// Where a packet ended: the chain that took it, counted from 0, if one did, and its fate.
#[derive(Drop)]
pub struct Led {
    pub class: Option<u32>,
    pub fate: Fate,
}

impl PlainService {
    ghost use Rattle.std.specs.Prelude.{◌≡◌, IfOk, OnOk};
    ghost use Rattle.traced_run.specs.Telling.{with_acts};
    ghost use Rattle.plain_chains.specs.Plain.{Leads, way_next};

    /// The chains, as the last packet left them.
    pub fn chains(&self) -> &[PlainChain]
        ensures { result.now ≡ self.now }
    {
        self.chains.as_slice()
    }

    /// Leads one packet through the chain that takes it, and adds what each function did to `trace`. A packet that no
    /// chain takes passes unchanged.
    ///
    /// The only error is that memory runs out, and then the functions of its chain are lost.
    pub fn lead<R: Wait>(
        &mut self,
        rt: &R,
        alloc: Global,
        unit: Unit,
        packet: &PcapRecord,
        trace: &mut Trace,
    ) -> Result<Led, AllocError>
        ensures class { IfOk result (λ led. led.class ≡ (way_next self.old unit packet.now).class) }
        ensures fate { IfOk result (λ led. led.fate ≡ (way_next self.old unit packet.now).fate) }
        ensures acts { OnOk result (trace.new ≡ with_acts trace.old (way_next self.old unit packet.now).acts) }
        ensures chains { OnOk result (Leads unit packet.now self.old self.new) }
    {
        class_is_the_first();
        let frame = copy(alloc, &packet.frame)?;
        let Some(class) = self.classes.class(packet.frame.bytes()) else {
            return Ok(Led {
                class: None,
                fate: Fate::Out(frame),
            });
        };
        let chain = &mut self.chains[class as usize];
        let fate = lead_chain(rt, alloc, chain, packet.time(unit), frame, trace)?;
        Ok(Led {
            class: Some(class),
            fate,
        })
    }
}

/// The chains of a policy without fault, ready for packets.
#[tactic(auto, using(crate::proofs::Opens::runs, crate::proofs::Opens::classes_fit))]
pub fn make_plain(alloc: Global, judged: Judged) -> Result<PlainService, AllocError>
    requires ordered { AllZip IsOrdered judged.policy.chains judged.orders }
    requires made { judged.functions ≡ functions_made judged.policy.chains }
    requires few { length judged.policy.chains ≤ 16 }
    ensures declared { IfOk result (λ s. map (λ c. c.declared) s ≡ judged.policy.chains) }
    ensures orders { IfOk result (λ s. map (λ c. c.order) s ≡ judged.orders) }
    ensures runs { IfOk result (λ s. chains_of s ≡ service_among judged.policy.chains judged.orders (map no_graph judged.policy.chains)) }
{
    let Judged {
        policy,
        orders,
        functions,
    } = judged;
    let classes = ClassTable::new(alloc, &policy)?;
    let Policy { chains } = policy;
    let chains = plain_chains(alloc, chains, orders, functions)?;
    Ok(PlainService { classes, chains })
}

// The chains, each with the functions that were made for it, in its order.
fn plain_chains(
    alloc: Global,
    chains: Items<ChainPolicy>,
    orders: Items<Order>,
    made: Items<Items<Option<Made>>>,
) -> Result<Vec<PlainChain>, AllocError>
    requires ordered { AllZip IsOrdered chains orders }
    requires made { made ≡ functions_made chains }
    ensures declared { IfOk result (λ s. map (λ c. c.declared) s.items ≡ chains) }
    ensures orders { IfOk result (λ s. map (λ c. c.order) s.items ≡ orders) }
    ensures ready { IfOk result (λ s. All IsPlain s.items) }
{
    let mut plain = Vec::new(alloc);
    let chains = chains.into_vec().into_iter().zip(orders.into_vec());
    'chains: for ((chain, order), made) in chains.zip(made.into_vec()) {
        plain.push(plain_chain(alloc, chain, order, made)?)?;
    }
    Ok(plain)
}
