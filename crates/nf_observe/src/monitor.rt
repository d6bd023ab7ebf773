//! A monitor and its counts.

mod build;

use crate::flow::FlowCounts;
pub use build::MonitorLine;
use first_sight::FirstSeen;
use frame_seen::{seen_ip_address, seen_port};
use packet_fields::Field;
use packet_function::{Endpoint, FiveTuple, FlowNote};
use packet_version::View;
use std::alloc::AllocError;

/// Counts the packets and bytes of each flow.
#[derive(Debug, Drop)]
pub struct Monitor {
    /// The counts of each flow, in the order of first sight.
    pub flows: FirstSeen<FiveTuple, FlowCounts>,
}

impl Monitor {
    ghost use Rattle.std.specs.Prelude.{◌≡◌, ◌<◌, ◌++◌, [], length, slice_index_or, IsOk, OnOk, OnErr};
    ghost use Rattle.std.specs.List.{flat_map};
    ghost use Rattle.std.specs.Map.{keys_of};
    ghost use Rattle.first_sight.specs.FirstSight.{seen_with};
    ghost use Rattle.nf_observe.specs.Flows.{counted};
    ghost use Rattle.nf_observe.specs.Monitors.{monitor_text};
    ghost use Rattle.nf_observe.specs.MonitorNotes.{settled_note};
    ghost use Rattle.packet_function.specs.SameFlow.{is_same_flow};
    ghost use Rattle.nf_observe.specs.StateRows.{monitor_rows};

    /// Counts a packet with this note. If there is no memory for a new flow, nothing changes.
    #[tactic(auto, using(crate::proofs::NoNewKey::no_new_flow))]
    pub fn settle(&mut self, note: &FlowNote) -> Result<(), AllocError>
        ensures settled { OnOk result (self.new ≡ settled_note self.old note.now) }
        ensures stays { OnErr result (self.new ≡ self.old) }
        // Only one more line of its state, that of a new flow, needs memory.
        ensures known { length (monitor_rows (settled_note self.old note.now)) ≡ length (monitor_rows self.old) → IsOk result }
    {
        self.count(note.flow, note.bytes)
    }

    /// Appends the lines of its state, one for each flow. If memory runs out, it appends nothing.
    pub fn state_lines(&self, out: &mut Vec<u8>) -> Result<(), AllocError>
        ensures lines { OnOk result (out.new.items ≡ out.old.items ++ monitor_text self.now) }
        ensures stays { OnErr result (out.new.items ≡ out.old.items) }
    {
        self.flows.push_lines(self, out)
    }

    /// The number of lines of its state: one for each flow.
    pub fn state_count(&self) -> usize
        ensures count { result ≡ length (monitor_rows self.now) }
        ensures told { flat_map (λ row. row) (monitor_rows self.now) ≡ monitor_text self.now }
    {
        self.flows.line_count(self)
    }

    /// Appends the line of its state at a place, counted from 0. If memory runs out, it appends nothing.
    pub fn state_line(&self, place: usize, out: &mut Vec<u8>) -> Result<(), AllocError>
        requires inside { place < length (monitor_rows self.now) }
        ensures line { OnOk result (out.new.items ≡ out.old.items ++ slice_index_or (monitor_rows self.now) place []) }
        ensures stays { OnErr result (out.new.items ≡ out.old.items) }
    {
        self.flows.push_line(self, place, out)
    }

    // Counts a packet of this flow, which has `bytes` bytes.
    fn count(&mut self, flow: FiveTuple, bytes: u16) -> Result<(), AllocError>
        ensures counted { OnOk result (self.new.flows ≡ counted self.old.flows flow bytes) }
        ensures stays { OnErr result (self.new ≡ self.old) }
        ensures known { length (seen_with is_same_flow (keys_of self.old.flows) flow) ≡ length (keys_of self.old.flows) → IsOk result }
    {
        match self.flows.find(&flow) {
            Some((place, counts)) => self.flows.renew(&flow, place, counts.with_packet(bytes)),
            None => {
                self.flows.note(flow, FlowCounts::NONE.with_packet(bytes))?;
            }
        }
        Ok(())
    }
}

ghost use Rattle.std.specs.Prelude.{◌≡◌};
ghost use Rattle.action_profile.specs.Profiles.{profile_of};
ghost use Rattle.action_profile.specs.declared.kind.Kind.{Kind};
ghost use Rattle.packet_version.specs.Views.{seen_values};
ghost use Rattle.chain_walk.specs.Shown.{shown_by};
ghost use Rattle.nf_observe.specs.Monitors.{flow_of};
ghost use Rattle.nf_observe.specs.MonitorNotes.{note_of};

/// What a monitor notes of the packet of a view: its flow and its IP length, if both are known. Allocates nothing.
pub fn look(view: &View) -> Option<FlowNote>
    requires profile { view.now.profile ≡ profile_of Kind.Monitor }
    ensures { result ≡ note_of (shown_by (profile_of Kind.Monitor) view.now.version.fixed (seen_values view.now)) }
{
    Some(FlowNote {
        flow: flow_in(view)?,
        bytes: view.ip_len()?,
    })
}

/// The flow of the packet of a view.
fn flow_in(view: &View) -> Option<FiveTuple>
    requires profile { view.now.profile ≡ profile_of Kind.Monitor }
    ensures { result ≡ flow_of (seen_values view.now) view.now.version.fixed.proto }
{
    Some(FiveTuple {
        proto: view.proto()?,
        source: Endpoint {
            address: seen_ip_address(view.get(Field::SrcIp))?,
            port: seen_port(view.get(Field::SrcPort)),
        },
        destination: Endpoint {
            address: seen_ip_address(view.get(Field::DstIp))?,
            port: seen_port(view.get(Field::DstPort)),
        },
    })
}
