//! Properties of flows and mappings, stated without the steps.
ghost use Rattle.std.specs.Prelude.{◌≡◌, ◌<◌, ◌+◌, ◌*◌, ℕ, List, Option, true, false, length, slice_get, Some, None};
ghost use Rattle.packet_fields.specs.declared.field.Field.{Field};
ghost use Rattle.policy_text.specs.declared.policy.FunctionDecl.{FunctionDecl};
ghost use Rattle.chain_walk.specs.Shown.{Values};
ghost use Rattle.chain_walk.specs.Step.{stepped};
ghost use Rattle.chain_walk.specs.declared.fixed.Fixed.{Fixed};
ghost use Rattle.packet_function.specs.Deciding.{decided};
ghost use Rattle.function_lines.specs.KindLines.{refused_line};
ghost use Rattle.nf_translate.specs.declared.balancer.BalancerSettings.{BalancerSettings};
ghost use Rattle.nf_translate.specs.declared.client.Client.{Client};
ghost use Rattle.nf_translate.specs.declared.endpoint.Endpoint.{Endpoint};
ghost use Rattle.nf_translate.specs.Addresses.{ip_address_bytes};
ghost use Rattle.nf_translate.specs.BalancerLines.{balancer_lines};
ghost use Rattle.nf_translate.specs.Balancers.{PlainBalancer, backend_at, balanced, balancer_of, flow_of, to_address};
ghost use Rattle.nf_translate.specs.Balancers.{balancer_behaviour, balancer_decides};
ghost use Rattle.nf_translate.specs.Clients.{is_known as is_known_client};
ghost use Rattle.nf_translate.specs.Deciding.{DoesAs, WritesAs};
ghost use Rattle.nf_translate.specs.Endpoints.{is_known, place_of};
ghost use Rattle.nf_translate.specs.Nats.{PlainNat, coming, leaving, mapped, nat_behaviour, nat_decides, nat_of, port_at};
ghost use Rattle.nf_translate.specs.Standing.{KeepsBackend, HasOneVersion, HasPorts, backend_of};

/// Once a packet of a flow came, the balancer knows the flow, and the flow keeps its backend, whatever packets come.
/// The backends take turns as listed: a new flow gets the backend whose turn it is by the number of flows before it,
/// and only the first packet of a flow raises this number.
pub fn flows_keep_their_backends()
    ensures known { (b : PlainBalancer) (destination : Option (List ℕ)) (flow : Client) → is_known_client (balanced b destination (Some flow)).after.flows flow ≡ true }
    ensures kept { (fixed : Fixed) (b : PlainBalancer) (v : Values) (flow : Client) → is_known_client b.flows flow ≡ true → KeepsBackend flow b (stepped balancer_behaviour fixed b v).after }
    ensures turns { (b : PlainBalancer) (destination : Option (List ℕ)) (flow : Client) → is_known_client b.flows flow ≡ false → (balanced b destination (Some flow)).written ≡ to_address (backend_at b.settings (length b.flows)) destination }
    ensures one_more { (b : PlainBalancer) (destination : Option (List ℕ)) (flow : Client) → is_known_client b.flows flow ≡ false → length (balanced b destination (Some flow)).after.flows ≡ length b.flows + 1 }
    ensures no_more { (b : PlainBalancer) (destination : Option (List ℕ)) (flow : Client) → is_known_client b.flows flow ≡ true → (balanced b destination (Some flow)).after ≡ b }
    ensures listed { (s : BalancerSettings) (turn place : ℕ) → place < length s.backends → slice_get s.backends place ≡ Some (backend_at s (turn * length s.backends + place)) }
{}

/// In a balancer that is declared without a refused line, every backend has the version of the virtual address, and
/// that stays true whatever packets come. So each packet that is sent to the virtual address, and has a client, gets
/// all bytes of its backend's address.
pub fn backends_are_of_one_version()
    ensures declared { (decl : FunctionDecl) → refused_line balancer_lines decl ≡ None → HasOneVersion (balancer_of decl).settings }
    ensures kept { (fixed : Fixed) (b : PlainBalancer) (v : Values) → (stepped balancer_behaviour fixed b v).after.settings ≡ b.settings }
    ensures written { (fixed : Fixed) (b : PlainBalancer) (v : Values) (flow : Client) → HasOneVersion b.settings → flow_of b.settings v fixed.proto ≡ Some flow →
        (stepped balancer_behaviour fixed b v).written Field.DstIp ≡ Some (ip_address_bytes (backend_of b flow)) }
{}

/// Once a packet left by a public port, a packet that is sent to that port by the same protocol is delivered to the
/// origin of the first one, whatever packets come in between. No public port is given twice, whatever the protocols:
/// endpoints that have the same port are the same endpoint. The addresses and ports of a translation stay as they were
/// set.
pub fn packets_come_back()
    ensures back { (n : PlainNat) (source : Endpoint) (address port : ℕ) → port_at n.settings (place_of n.mappings source) ≡ Some port →
        mapped (leaving n source (Some port)).after (record { proto = source.proto; address = address; port = port }) ≡ Some source }
    ensures settings { (fixed : Fixed) (n : PlainNat) (v : Values) → (stepped nat_behaviour fixed n v).after.settings ≡ n.settings }
    ensures kept { (fixed : Fixed) (n : PlainNat) (v : Values) (public inside : Endpoint) → mapped n public ≡ Some inside → mapped (stepped nat_behaviour fixed n v).after public ≡ Some inside }
    ensures once { (n : PlainNat) (a b : Endpoint) (port : ℕ) → is_known n.mappings a ≡ true → is_known n.mappings b ≡ true →
        port_at n.settings (place_of n.mappings a) ≡ Some port → port_at n.settings (place_of n.mappings b) ≡ Some port → a ≡ b }
{}

/// There are never more mappings than ports, so only a new endpoint can fail to get a port, and only if all ports are
/// taken. The first packet that leaves from an endpoint takes one port; packets that leave from it later, and packets
/// that come back, take none.
pub fn ports_run_out_once_all_are_taken()
    ensures opens { (decl : FunctionDecl) → HasPorts (nat_of decl) }
    ensures within { (fixed : Fixed) (n : PlainNat) (v : Values) → HasPorts n → HasPorts (stepped nat_behaviour fixed n v).after }
    ensures new { (n : PlainNat) (source : Endpoint) → HasPorts n → port_at n.settings (place_of n.mappings source) ≡ None → is_known n.mappings source ≡ false }
    ensures all_taken { (n : PlainNat) (source : Endpoint) → HasPorts n → port_at n.settings (place_of n.mappings source) ≡ None → n.settings.low + length n.mappings ≡ n.settings.high + 1 }
    ensures one_more { (n : PlainNat) (source : Endpoint) (port : ℕ) → is_known n.mappings source ≡ false → length (leaving n source (Some port)).after.mappings ≡ length n.mappings + 1 }
    ensures no_more { (n : PlainNat) (source : Endpoint) (port : Option ℕ) → is_known n.mappings source ≡ true → (leaving n source port).after ≡ n }
    ensures none_back { (n : PlainNat) (inside : Option Endpoint) → (coming n inside).after ≡ n }
{}

/// At most one line of a translation decides on a packet. If it is `set inside`, the source of the packet becomes the
/// public address with one of the ports; if it is `set public`, its destination becomes an endpoint inside. If it is
/// `set ports` or the declaration, the packet is dropped. If no line decides, the packet passes as it is.
pub fn a_translation_does_what_the_deciding_line_says()
    ensures does { (fixed : Fixed) (n : PlainNat) (v : Values) →
        DoesAs n (decided nat_behaviour nat_decides fixed n v) (stepped nat_behaviour fixed n v) }
{}

/// At most one line of a balancer that has backends decides on a packet: that of the backend whose address is written as
/// the packet's destination. If no line decides, nothing is written.
pub fn a_balancer_sends_to_the_backend_whose_line_decides()
    ensures writes { (fixed : Fixed) (b : PlainBalancer) (v : Values) → 0 < length b.settings.backends →
        WritesAs b.settings (decided balancer_behaviour balancer_decides fixed b v)
        (stepped balancer_behaviour fixed b v).written }
{}
