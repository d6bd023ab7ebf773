//! A balancer, and its effect on a packet.
use crate::client::Client;
use chain_walk::Verdict;
use first_sight::{EntryLines, FirstSeen, lines_of_keys, push_ip_address, same_address};
use frame_seen::{seen_ip_address, seen_port};
use item_list::Items;
use packet_fields::Field;
use packet_function::DecidingLine;
use packet_version::{View, unwritten_stays, written_is_one_value};
use std::alloc::{AllocError, Global};
use std::marker::Model;
use std::net::IpAddr;
use text_lines::{Piece, push_line, push_pieces};

/// The settings of a balancer.
#[derive(Debug, Drop)]
pub struct BalancerSettings {
    /// The address whose packets are balanced.
    pub virtual_address: IpAddr,
    /// The addresses of the backends, which take turns. An address may be listed twice.
    pub backends: Items<IpAddr>,
}

/// Sends each flow to one of several backends.
#[derive(Debug, Drop)]
pub struct Balancer {
    settings: BalancerSettings,
    // Only the place of a flow is kept.
    flows: FirstSeen<Client, ()>,
}

impl Model for Balancer {
    ghost use Rattle.std.specs.Prelude.{◌<◌, length};
    ghost use Rattle.std.specs.Map.{keys_of};
    ghost use Rattle.nf_translate.specs.Balancers.{PlainBalancer};

    ghost Value = { PlainBalancer };

    ghost view = { λ b. record { settings = b.settings; flows = keys_of b.flows } };

    ghost invariant = { λ b. 0 < length b.settings.backends };
}

impl Balancer {
    ghost use Rattle.std.specs.Prelude.{◌≡◌, ◌<◌, ◌++◌, [], length, slice_index_or, IsOk, IfOk, OnOk, OnErr};
    ghost use Rattle.std.specs.List.{flat_map};
    ghost use Rattle.packet_version.specs.Views.{seen_values, viewed, wrote_all};
    ghost use Rattle.packet_function.specs.Deciding.{decided};
    ghost use Rattle.nf_translate.specs.Clients.{place_of, with_client};
    ghost use Rattle.nf_translate.specs.Balancers.{backend_at, balancer_behaviour, balancer_decides, flow_lines};
    ghost use Rattle.nf_translate.specs.StateRows.{flow_rows};

    /// A balancer that has seen no flow.
    pub(crate) fn new(alloc: Global, settings: BalancerSettings) -> Self
        requires { 0 < length settings.backends }
        ensures { result ≡ record { settings = settings; flows = [] } }
    {
        Balancer {
            settings,
            flows: FirstSeen::new(alloc),
        }
    }

    /// Sends one packet on, through a view of a balancer's profile: to the backend of its flow if it was sent to the
    /// virtual address, and unchanged otherwise. Memory is allocated for a new flow; if it runs out, nothing has
    /// changed.
    pub fn step(&mut self, view: &mut View) -> Result<Verdict, AllocError>
        requires profile { view.old.profile ≡ balancer_behaviour.profile self.old }
        ensures after { OnOk result (self.new ≡ (viewed balancer_behaviour self.old view.old).after) }
        ensures verdict { IfOk result (λ verdict. verdict ≡ (viewed balancer_behaviour self.old view.old).verdict) }
        ensures view { OnOk result (view.new ≡ wrote_all (viewed balancer_behaviour self.old view.old).written view.old) }
        // If memory runs out, nothing has changed.
        ensures function_stays { OnErr result (self.new ≡ self.old) }
        ensures view_stays { OnErr result (view.new ≡ view.old) }
        // Only one more line of its state, that of a new flow, needs memory.
        ensures known { length (flow_rows (viewed balancer_behaviour self.old view.old).after) ≡ length (flow_rows self.old) → IsOk result }
    {
        let Some(flow) = flow_in(&self.settings, view) else {
            unwritten_stays(view);
            return Ok(Verdict::Pass);
        };
        let backend = self.backend_for(flow)?;
        write_destination(view, backend);
        Ok(Verdict::Pass)
    }

    /// Appends the line that decides on one packet, which it sees through a view of a balancer's profile: that of its
    /// flow's backend if the backend's address is written, and none otherwise. If memory runs out, it appends nothing.
    pub fn decide(&self, view: &View, deciding: &mut Vec<DecidingLine>) -> Result<(), AllocError>
        requires profile { view.now.profile ≡ balancer_behaviour.profile self.now }
        ensures decided { OnOk result (deciding.new.items ≡
            deciding.old.items ++ decided balancer_behaviour balancer_decides view.now.version.fixed self.now (seen_values view.now)) }
        ensures stays { OnErr result (deciding.new.items ≡ deciding.old.items) }
    {
        let Some(flow) = flow_in(&self.settings, view) else {
            return Ok(());
        };
        let place = self.flows.place(&flow);
        if is_written(view, backend_at(&self.settings, place)) {
            let line = DecidingLine::Rule(place % self.settings.backends.as_slice().len());
            deciding.push(line)?;
        }
        Ok(())
    }

    // The backend of a flow, which is noted if it is new.
    fn backend_for(&mut self, flow: Client) -> Result<IpAddr, AllocError>
        ensures backend { IfOk result (λ backend. backend ≡ backend_at self.old.settings (place_of self.old.flows flow)) }
        ensures after { OnOk result (self.new ≡ record self.old { flows = with_client self.old.flows flow }) }
        ensures stays { OnErr result (self.new ≡ self.old) }
        ensures known { length (flow_rows (record self.old { flows = with_client self.old.flows flow })) ≡ length (flow_rows self.old) → IsOk result }
    {
        let place = self.flows.note(flow, ())?;
        Ok(backend_at(&self.settings, place))
    }

    /// Appends the lines of its flows, in the order of first sight. If memory runs out, it appends nothing.
    pub fn state_lines(&self, out: &mut Vec<u8>) -> Result<(), AllocError>
        ensures lines { OnOk result (out.new.items ≡ out.old.items ++ flow_lines self.now) }
        ensures stays { OnErr result (out.new.items ≡ out.old.items) }
    {
        // A line shows of a flow its place and its key, so the lines of the flows are those of the keys.
        lines_of_keys::<Client, ()>();
        self.flows.push_lines(self, out)
    }

    /// The number of lines of its state: one for each flow.
    pub fn state_count(&self) -> usize
        ensures count { result ≡ length (flow_rows self.now) }
        ensures told { flat_map (λ row. row) (flow_rows self.now) ≡ flow_lines self.now }
    {
        lines_of_keys::<Client, ()>();
        self.flows.line_count(self)
    }

    /// Appends the line of its state at a place, counted from 0. If memory runs out, it appends nothing.
    pub fn state_line(&self, place: usize, out: &mut Vec<u8>) -> Result<(), AllocError>
        requires inside { place < length (flow_rows self.now) }
        ensures line { OnOk result (out.new.items ≡ out.old.items ++ slice_index_or (flow_rows self.now) place []) }
        ensures stays { OnErr result (out.new.items ≡ out.old.items) }
    {
        lines_of_keys::<Client, ()>();
        self.flows.push_line(self, place, out)
    }
}

impl EntryLines<Client, ()> for Balancer {
    ghost use Rattle.nf_translate.specs.Balancers.{flow_line};

    ghost line = { λ b place flow. flow_line b.settings place flow.0 };

    #[tactic(auto, unfolding(crate::specs::Balancers::flow_line))]
    fn push_entry(
        &self,
        alloc: Global,
        text: &mut Vec<u8>,
        place: usize,
        flow: &Client,
        _nothing: &(),
    ) -> Result<(), AllocError> {
        push_pieces(
            alloc,
            text,
            &[
                Piece::Text(b"  flow "),
                Piece::Number(u64::from(flow.proto)),
                Piece::Text(b" "),
            ],
        )?;
        push_ip_address(alloc, text, flow.address)?;
        push_pieces(
            alloc,
            text,
            &[
                Piece::Text(b" "),
                Piece::Number(u64::from(flow.port)),
                Piece::Text(b" backend "),
            ],
        )?;
        push_ip_address(alloc, text, backend_at(&self.settings, place))?;
        push_line(alloc, text, &[])
    }
}

ghost use Rattle.std.specs.Prelude.{◌≡◌, ◌<◌, ◌==◌, false, length, is_some};
ghost use Rattle.std.specs.Option.{option_copied, option_map_or};
ghost use Rattle.action_profile.specs.Profiles.{profile_of};
ghost use Rattle.action_profile.specs.declared.kind.Kind.{Kind};
ghost use Rattle.packet_fields.specs.declared.field.Field.{Field};
ghost use Rattle.packet_version.specs.Views.{seen_values, wrote_all, alone};
ghost use Rattle.nf_translate.specs.Addresses.{ip_address_bytes};
ghost use Rattle.nf_translate.specs.Balancers.{backend_at, flow_of, in_place_of, to_address};

/// The backend of the flow at a place.
fn backend_at(settings: &BalancerSettings, place: usize) -> IpAddr
    requires { 0 < length settings.now.backends }
    ensures { result ≡ backend_at settings.now place }
{
    let backends = settings.backends.as_slice();
    backends[place % backends.len()]
}

/// The flow of the packet of a view, if it was sent to the virtual address.
fn flow_in(settings: &BalancerSettings, view: &View) -> Option<Client>
    requires profile { view.now.profile ≡ profile_of Kind.Balancer }
    ensures { result ≡ flow_of settings.now (seen_values view.now) view.now.version.fixed.proto }
{
    let destination = seen_ip_address(view.get(Field::DstIp))?;
    if !same_address(&destination, &settings.virtual_address) {
        return None;
    }
    Some(Client {
        proto: view.proto()?,
        address: seen_ip_address(view.get(Field::SrcIp))?,
        port: seen_port(view.get(Field::SrcPort))?,
    })
}

/// Writes the destination address of a packet.
fn write_destination(view: &mut View, address: IpAddr)
    requires profile { view.old.profile ≡ profile_of Kind.Balancer }
    ensures { view.new ≡ wrote_all (to_address address (seen_values view.old Field.DstIp)) view.old }
{
    match address {
        IpAddr::V4(address) => write_bytes(view, &address.octets()),
        IpAddr::V6(address) => write_bytes(view, &address.octets()),
    }
}

/// Writes these bytes as the destination address of a packet, if the old address has the same length.
fn write_bytes(view: &mut View, bytes: &[u8])
    requires profile { view.old.profile ≡ profile_of Kind.Balancer }
    ensures { view.new ≡ wrote_all (alone Field.DstIp (in_place_of (seen_values view.old Field.DstIp) bytes.now)) view.old }
{
    if has_length(view.get(Field::DstIp), bytes.len()) {
        view.set(Field::DstIp, bytes);
        written_is_one_value();
    } else {
        unwritten_stays(view);
    }
}

/// Is this address written as the destination address of a packet?
fn is_written(view: &View, address: IpAddr) -> bool
    requires profile { view.now.profile ≡ profile_of Kind.Balancer }
    ensures { result ≡ is_some (in_place_of (seen_values view.now Field.DstIp) (ip_address_bytes address)) }
{
    let destination = view.get(Field::DstIp);
    match address {
        IpAddr::V4(address) => has_length(destination, address.octets().len()),
        IpAddr::V6(address) => has_length(destination, address.octets().len()),
    }
}

/// Is the value there, and does it have `size` bytes?
fn has_length(value: Option<&[u8]>, size: usize) -> bool
    ensures { result ≡ option_map_or (λ bytes. length bytes == size) (option_copied value.entry) false }
{
    match value {
        Some(bytes) => bytes.len() == size,
        None => false,
    }
}
