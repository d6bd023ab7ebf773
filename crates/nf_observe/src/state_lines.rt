//! The lines that show a state.
ghost use Rattle.std.specs.Prelude.{◌≡◌, ◌++◌, OnOk};
ghost use Rattle.nf_observe.specs.StateLines.{port_text, endpoint_text};

use crate::bucket::TokenBucket;
use crate::flow::FlowCounts;
use crate::limiter::Limiter;
use crate::monitor::Monitor;
use first_sight::{EntryLines, push_ip_address};
use packet_function::{Endpoint, FiveTuple};
use std::alloc::{AllocError, Global};
use std::net::IpAddr;
use text_lines::Piece::{Number, Text};
use text_lines::{push_line, push_pieces};

impl EntryLines<FiveTuple, FlowCounts> for Monitor {
    ghost use Rattle.nf_observe.specs.StateLines.{flow_line};

    ghost line = { λ monitor place flow. flow_line flow.0 flow.1 };

    #[tactic(auto, unfolding(crate::specs::StateLines::flow_line))]
    fn push_entry(
        &self,
        alloc: Global,
        text: &mut Vec<u8>,
        _place: usize,
        flow: &FiveTuple,
        counts: &FlowCounts,
    ) -> Result<(), AllocError> {
        push_pieces(
            alloc,
            text,
            &[Text(b"  flow "), Number(flow.proto as u64), Text(b" ")],
        )?;
        push_endpoint(alloc, text, &flow.source)?;
        push_pieces(alloc, text, &[Text(b" ")])?;
        push_endpoint(alloc, text, &flow.destination)?;
        push_line(
            alloc,
            text,
            &[
                Text(b" packets "),
                Number(counts.packets),
                Text(b" bytes "),
                Number(counts.bytes),
            ],
        )
    }
}

impl EntryLines<IpAddr, TokenBucket> for Limiter {
    ghost use Rattle.nf_observe.specs.StateLines.{source_line};

    ghost line = { λ limiter place source. source_line source.0 source.1 };

    #[tactic(auto, unfolding(crate::specs::StateLines::source_line))]
    fn push_entry(
        &self,
        alloc: Global,
        text: &mut Vec<u8>,
        _place: usize,
        source: &IpAddr,
        bucket: &TokenBucket,
    ) -> Result<(), AllocError> {
        push_pieces(alloc, text, &[Text(b"  source ")])?;
        push_ip_address(alloc, text, *source)?;
        push_line(
            alloc,
            text,
            &[
                Text(b" tokens "),
                Number(bucket.tokens),
                Text(b" at "),
                Number(bucket.moment),
            ],
        )
    }
}

#[tactic(auto, unfolding(crate::specs::StateLines::endpoint_text))]
fn push_endpoint(alloc: Global, text: &mut Vec<u8>, endpoint: &Endpoint) -> Result<(), AllocError>
    ensures { OnOk result (text.new.items ≡ text.old.items ++ endpoint_text endpoint.now) }
{
    push_ip_address(alloc, text, endpoint.address)?;
    push_pieces(alloc, text, &[Text(b" ")])?;
    push_port(alloc, text, endpoint.port)
}

fn push_port(alloc: Global, text: &mut Vec<u8>, port: Option<u16>) -> Result<(), AllocError>
    ensures { OnOk result (text.new.items ≡ text.old.items ++ port_text port) }
{
    match port {
        Some(port) => push_pieces(alloc, text, &[Number(port as u64)]),
        None => push_pieces(alloc, text, &[Text(b"-")]),
    }
}
