//! A translation of addresses and ports, and its effect on a packet.
use crate::endpoint::Endpoint;
use chain_walk::Verdict;
use first_sight::{EntryLines, FirstSeen, lines_of_keys, push_address};
use frame_seen::{seen_address, seen_port};
use packet_fields::Field;
use packet_function::{DecidingLine, SettingKey};
use packet_version::{View, later_write_stands_over, unwritten_stays, written_is_one_value};
use policy_text::is_within;
use std::alloc::{AllocError, Global};
use std::marker::Model;
use text_lines::{Piece, push_line, push_pieces};

/// The settings of a translation.
#[derive(Clone, Copy, Debug, Drop)]
pub struct NatSettings {
    /// The prefix of the addresses inside, and its length in bits.
    pub inside: u32,
    pub inside_bits: u8,
    /// The address that the outside sees.
    pub public_address: u32,
    /// The first and the last of the ports that the outside sees.
    pub low: u16,
    pub high: u16,
}

/// Lets many endpoints inside share one public address: each has a public port of its own (RFC 3022).
#[derive(Debug, Drop)]
pub struct Nat {
    settings: NatSettings,
    // Only the place of a mapping is kept.
    mappings: FirstSeen<Endpoint, ()>,
}

impl Model for Nat {
    ghost use Rattle.std.specs.Map.{keys_of};
    ghost use Rattle.nf_translate.specs.Nats.{PlainNat};

    ghost Value = { PlainNat };

    ghost view = { λ n. record { settings = n.settings; mappings = keys_of n.mappings } };
}

impl Nat {
    ghost use Rattle.std.specs.Prelude.{◌≡◌, ◌<◌, ◌++◌, [], length, slice_index_or, IsOk, IfOk, OnOk, OnErr};
    ghost use Rattle.std.specs.List.{flat_map};
    ghost use Rattle.packet_version.specs.Views.{seen_values, viewed, wrote_all};
    ghost use Rattle.packet_function.specs.Deciding.{decided};
    ghost use Rattle.nf_translate.specs.Endpoints.{place_of, with_endpoint};
    ghost use Rattle.nf_translate.specs.NatViews.{HasSource, HasDestination};
    ghost use Rattle.nf_translate.specs.Nats.{leaving, coming, mapped, mapping_lines, nat_behaviour, nat_decides, out_by, in_by, port_at};
    ghost use Rattle.nf_translate.specs.StateRows.{mapping_rows};

    /// A translation without a mapping.
    pub(crate) fn new(alloc: Global, settings: NatSettings) -> Self
        ensures { result ≡ record { settings = settings; mappings = [] } }
    {
        Nat {
            settings,
            mappings: FirstSeen::new(alloc),
        }
    }

    /// Translates one packet through a view of a translation's profile. A packet from inside leaves from the public
    /// address and the port of its source, or is dropped if no port is left. A packet to the public address goes to the
    /// endpoint that has the port, or is dropped if none has it. Any other packet passes unchanged. Memory is allocated
    /// for a new mapping; if it runs out, nothing has changed.
    pub fn step(&mut self, view: &mut View) -> Result<Verdict, AllocError>
        requires profile { view.old.profile ≡ nat_behaviour.profile self.old }
        ensures after { OnOk result (self.new ≡ (viewed nat_behaviour self.old view.old).after) }
        ensures verdict { IfOk result (λ verdict. verdict ≡ (viewed nat_behaviour self.old view.old).verdict) }
        ensures view { OnOk result (view.new ≡ wrote_all (viewed nat_behaviour self.old view.old).written view.old) }
        // If memory runs out, nothing has changed.
        ensures function_stays { OnErr result (self.new ≡ self.old) }
        ensures view_stays { OnErr result (view.new ≡ view.old) }
        // Only one more line of its state, that of a new mapping, needs memory.
        ensures known { length (mapping_rows (viewed nat_behaviour self.old view.old).after) ≡ length (mapping_rows self.old) → IsOk result }
    {
        let Some((source, destination)) = ends_in(view) else {
            unwritten_stays(view);
            return Ok(Verdict::Pass);
        };
        let settings = self.settings;
        if is_within(settings.inside, settings.inside_bits, source.address) {
            return self.let_out(source, view);
        }
        if destination.address == settings.public_address {
            return Ok(self.let_in(destination, view));
        }
        unwritten_stays(view);
        Ok(Verdict::Pass)
    }

    // Translates a packet from inside.
    fn let_out(&mut self, source: Endpoint, view: &mut View) -> Result<Verdict, AllocError>
        requires profile { view.old.profile ≡ nat_behaviour.profile self.old }
        requires there { HasSource view.old }
        ensures after { OnOk result (self.new ≡ (leaving self.old source (port_at self.old.settings (place_of self.old.mappings source))).after) }
        ensures verdict { IfOk result (λ verdict. verdict ≡ (leaving self.old source (port_at self.old.settings (place_of self.old.mappings source))).verdict) }
        ensures view { OnOk result (view.new ≡ wrote_all (leaving self.old source (port_at self.old.settings (place_of self.old.mappings source))).written view.old) }
        ensures function_stays { OnErr result (self.new ≡ self.old) }
        ensures view_stays { OnErr result (view.new ≡ view.old) }
        ensures known { length (mapping_rows (leaving self.old source (port_at self.old.settings (place_of self.old.mappings source))).after) ≡ length (mapping_rows self.old) → IsOk result }
    {
        let place = self.mappings.place(&source);
        let Some(port) = port_at(self.settings, place) else {
            unwritten_stays(view);
            return Ok(Verdict::Drop);
        };
        let address = self.settings.public_address;
        self.mappings.note(source, ())?;
        write_source(view, address, port);
        Ok(Verdict::Pass)
    }

    // Translates a packet to the public address.
    fn let_in(&self, destination: Endpoint, view: &mut View) -> Verdict
        requires profile { view.old.profile ≡ nat_behaviour.profile self.now }
        requires there { HasDestination view.old }
        ensures verdict { result ≡ (coming self.now (mapped self.now destination)).verdict }
        ensures view { view.new ≡ wrote_all (coming self.now (mapped self.now destination)).written view.old }
    {
        match self.mapped(destination) {
            Some(inside) => {
                write_destination(view, inside.address, inside.port);
                Verdict::Pass
            }
            None => {
                unwritten_stays(view);
                Verdict::Drop
            }
        }
    }

    /// Appends the line that decides on one packet, which it sees through a view of a translation's profile: `set inside`
    /// if the packet leaves, `set ports` if no port is left for it, `set public` if it comes in, the `fn` line if nobody
    /// has its port, and none if it passes unchanged. If memory runs out, it appends nothing.
    pub fn decide(&self, view: &View, deciding: &mut Vec<DecidingLine>) -> Result<(), AllocError>
        requires profile { view.now.profile ≡ nat_behaviour.profile self.now }
        ensures decided { OnOk result (deciding.new.items ≡
            deciding.old.items ++ decided nat_behaviour nat_decides view.now.version.fixed self.now (seen_values view.now)) }
        ensures stays { OnErr result (deciding.new.items ≡ deciding.old.items) }
    {
        let Some((source, destination)) = ends_in(view) else {
            return Ok(());
        };
        let settings = self.settings;
        if is_within(settings.inside, settings.inside_bits, source.address) {
            deciding.push(self.line_out(source))?;
        } else if destination.address == settings.public_address {
            deciding.push(self.line_in(destination))?;
        }
        Ok(())
    }

    // The line that decides on a packet from inside.
    fn line_out(&self, source: Endpoint) -> DecidingLine
        ensures { result ≡ out_by (port_at self.now.settings (place_of self.now.mappings source)) }
    {
        match port_at(self.settings, self.mappings.place(&source)) {
            Some(_) => DecidingLine::Set(SettingKey::Inside),
            None => DecidingLine::Set(SettingKey::Ports),
        }
    }

    // The line that decides on a packet to the public address.
    fn line_in(&self, destination: Endpoint) -> DecidingLine
        ensures { result ≡ in_by (mapped self.now destination) }
    {
        match self.mapped(destination) {
            Some(_) => DecidingLine::Set(SettingKey::Public),
            None => DecidingLine::Declaration,
        }
    }

    // The endpoint that has this public port, if its protocol is the same.
    fn mapped(&self, public: Endpoint) -> Option<Endpoint>
        ensures { result ≡ mapped self.now public }
    {
        let place = place_at(self.settings, public.port)?;
        let inside = *self.mappings.keys().get(place)?;
        if inside.proto == public.proto {
            Some(inside)
        } else {
            None
        }
    }

    /// Appends the lines of its mappings, in the order of first sight. If memory runs out, it appends nothing.
    pub fn state_lines(&self, out: &mut Vec<u8>) -> Result<(), AllocError>
        ensures lines { OnOk result (out.new.items ≡ out.old.items ++ mapping_lines self.now) }
        ensures stays { OnErr result (out.new.items ≡ out.old.items) }
    {
        // A line shows of a mapping its place and its key, so the lines of the mappings are those of the keys.
        lines_of_keys::<Endpoint, ()>();
        self.mappings.push_lines(self, out)
    }

    /// The number of lines of its state: one for each mapping.
    pub fn state_count(&self) -> usize
        ensures count { result ≡ length (mapping_rows self.now) }
        ensures told { flat_map (λ row. row) (mapping_rows self.now) ≡ mapping_lines self.now }
    {
        lines_of_keys::<Endpoint, ()>();
        self.mappings.line_count(self)
    }

    /// Appends the line of its state at a place, counted from 0. If memory runs out, it appends nothing.
    pub fn state_line(&self, place: usize, out: &mut Vec<u8>) -> Result<(), AllocError>
        requires inside { place < length (mapping_rows self.now) }
        ensures line { OnOk result (out.new.items ≡ out.old.items ++ slice_index_or (mapping_rows self.now) place []) }
        ensures stays { OnErr result (out.new.items ≡ out.old.items) }
    {
        lines_of_keys::<Endpoint, ()>();
        self.mappings.push_line(self, place, out)
    }
}

impl EntryLines<Endpoint, ()> for Nat {
    ghost use Rattle.nf_translate.specs.Nats.{mapping_line};

    ghost line = { λ n place mapping. mapping_line n.settings place mapping.0 };

    #[tactic(auto, unfolding(crate::specs::Nats::mapping_line))]
    fn push_entry(
        &self,
        alloc: Global,
        text: &mut Vec<u8>,
        place: usize,
        inside: &Endpoint,
        _nothing: &(),
    ) -> Result<(), AllocError> {
        push_pieces(
            alloc,
            text,
            &[
                Piece::Text(b"  map "),
                Piece::Number(u64::from(inside.proto)),
                Piece::Text(b" "),
            ],
        )?;
        push_address(alloc, text, inside.address)?;
        push_line(
            alloc,
            text,
            &[
                Piece::Text(b" "),
                Piece::Number(u64::from(inside.port)),
                Piece::Text(b" port "),
                Piece::Number(public_port(self.settings, place)),
            ],
        )
    }
}

ghost use Rattle.std.specs.Prelude.{◌≡◌, ◌<◌, ◌^◌, IsSome};
ghost use Rattle.action_profile.specs.Profiles.{profile_of};
ghost use Rattle.action_profile.specs.declared.kind.Kind.{Kind};
ghost use Rattle.frame_seen.specs.Seeing.{seen_by};
ghost use Rattle.packet_version.specs.Views.{seen_values, wrote_all};
ghost use Rattle.nf_translate.specs.Endpoints.{ends_of, source_of, destination_of};
ghost use Rattle.nf_translate.specs.Nats.{from, to, public_port, port_at, place_at};
ghost use Rattle.nf_translate.specs.NatViews.{HasSource, HasDestination};

/// The public port of the mapping at a place, if it is one of the ports that are set.
fn port_at(settings: NatSettings, place: usize) -> Option<u16>
    ensures { result ≡ port_at settings place }
{
    let most = usize::from(settings.high).checked_sub(usize::from(settings.low))?;
    if place <= most {
        Some(settings.low + place as u16)
    } else {
        None
    }
}

/// The public port of the mapping at a place.
fn public_port(settings: NatSettings, place: usize) -> u64
    requires { place < 2 ^ 63 }
    ensures { result ≡ public_port settings place }
{
    u64::from(settings.low) + place as u64
}

/// The place of the mapping that has a public port.
fn place_at(settings: NatSettings, port: u16) -> Option<usize>
    ensures { result ≡ place_at settings port }
{
    usize::from(port).checked_sub(usize::from(settings.low))
}

/// The source and the destination of the packet of a view, if it has both.
fn ends_in(view: &View) -> Option<(Endpoint, Endpoint)>
    requires profile { view.now.profile ≡ profile_of Kind.Nat }
    ensures ends { result ≡ ends_of (seen_by (seen_values view.now) view.now.version.fixed.proto) }
    ensures source { IsSome result → HasSource view.now }
    ensures destination { IsSome result → HasDestination view.now }
{
    let source = source_in(view)?;
    let destination = destination_in(view)?;
    Some((source, destination))
}

fn source_in(view: &View) -> Option<Endpoint>
    requires profile { view.now.profile ≡ profile_of Kind.Nat }
    ensures source { result ≡ source_of (seen_by (seen_values view.now) view.now.version.fixed.proto) }
    ensures there { IsSome result → HasSource view.now }
{
    Some(Endpoint {
        proto: view.proto()?,
        address: seen_address(view.get(Field::SrcIp))?,
        port: seen_port(view.get(Field::SrcPort))?,
    })
}

fn destination_in(view: &View) -> Option<Endpoint>
    requires profile { view.now.profile ≡ profile_of Kind.Nat }
    ensures destination { result ≡ destination_of (seen_by (seen_values view.now) view.now.version.fixed.proto) }
    ensures there { IsSome result → HasDestination view.now }
{
    Some(Endpoint {
        proto: view.proto()?,
        address: seen_address(view.get(Field::DstIp))?,
        port: seen_port(view.get(Field::DstPort))?,
    })
}

/// Writes the source of a packet.
fn write_source(view: &mut View, address: u32, port: u16)
    requires profile { view.old.profile ≡ profile_of Kind.Nat }
    requires there { HasSource view.old }
    ensures { view.new ≡ wrote_all (from address port) view.old }
{
    view.set(Field::SrcIp, &address.to_be_bytes());
    view.set(Field::SrcPort, &port.to_be_bytes());
    written_is_one_value();
    later_write_stands_over();
}

/// Writes the destination of a packet.
fn write_destination(view: &mut View, address: u32, port: u16)
    requires profile { view.old.profile ≡ profile_of Kind.Nat }
    requires there { HasDestination view.old }
    ensures { view.new ≡ wrote_all (to address port) view.old }
{
    view.set(Field::DstIp, &address.to_be_bytes());
    view.set(Field::DstPort, &port.to_be_bytes());
    written_is_one_value();
    later_write_stands_over();
}
