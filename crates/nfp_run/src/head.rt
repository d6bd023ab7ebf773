//! The head of the capture that is written.
ghost use Rattle.std.specs.Prelude.{◌≡◌, ◌+◌, ◌==◌, if◌then◌else◌, min};
ghost use Rattle.std.specs.List.{sum_by};
ghost use Rattle.capture_run.specs.ChainServiceProofs.{chains_of};
ghost use Rattle.nfp_run.specs.Heads.{growth_by, growth_in, growth_of, written_head};

use action_profile::{Kind, profile};
use capture_run::{Service, ServiceChain};
use pcap_io::CaptureHead;
use policy_text::FunctionDecl;

// The length in bytes of a tag (IEEE 802.1Q), and of an outer header (RFC 2003).
const TAG_LEN: u32 = 4;

const OUTER_LEN: u32 = 20;

/// The head of the written capture, for a capture with this head that runs through the chains. Some of their functions
/// may make a frame longer. A snaplen of 0 means that there is no limit, and stays 0.
pub fn written_head(head: &CaptureHead, service: &Service) -> CaptureHead
    ensures { result ≡ written_head (chains_of service.now.chains) head.now }
{
    CaptureHead {
        snaplen: grown_limit(head.snaplen, service.chains.as_slice()),
        ..*head
    }
}

/// The number of bytes by which frames may get longer in these chains, up to the largest number.
pub fn growth(service: &Service) -> u32
    ensures { result ≡ growth_of (chains_of service.now.chains) }
{
    grown(0, service.chains.as_slice())
}

// A snaplen, grown by what the functions of the chains may add to a frame. 0 means that there is no limit, and stays 0.
fn grown_limit(snaplen: u32, chains: &[ServiceChain]) -> u32
    ensures { result ≡ (if snaplen == 0 then 0 else min (snaplen + sum_by (λ c. growth_in c.declared) chains.now) 4294967295) }
{
    if snaplen == 0 {
        return 0;
    }
    grown(snaplen, chains)
}

// A snaplen in bytes, grown by what the functions of the chains may add to a frame, up to the largest number.
fn grown(snaplen: u32, chains: &[ServiceChain]) -> u32
    ensures { result ≡ min (snaplen + sum_by (λ c. growth_in c.declared) chains.now) 4294967295 }
{
    let mut grown = snaplen;
    'chains: for chain in chains {
        grown = grown_by(grown, chain.declared.functions.as_slice());
    }
    grown
}

// The snaplen, grown by these functions.
fn grown_by(snaplen: u32, functions: &[FunctionDecl]) -> u32
    ensures { result ≡ min (snaplen + sum_by (λ f. growth_by f.kind) functions.now) 4294967295 }
{
    let mut grown = snaplen;
    'functions: for function in functions {
        grown = grown.saturating_add(growth_by(function.kind));
    }
    grown
}

// The number of bytes by which a function of this kind may make a frame longer.
fn growth_by(kind: Kind) -> u32
    ensures { result ≡ growth_by kind }
{
    match kind {
        Kind::Encap => OUTER_LEN,
        _ if profile(kind).adds => TAG_LEN,
        _ => 0,
    }
}
