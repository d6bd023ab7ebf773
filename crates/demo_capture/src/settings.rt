//! The settings of the demo: its policy, and the head of its capture.
ghost use Rattle.std.specs.Prelude.{◌≡◌};
ghost use Rattle.demo_capture.specs.DemoCapture.{policy_text, demo_head};

use pcap_io::{CaptureHead, Endian, Unit};

/// The policy of the demo: a chain for TCP, and one for the rest.
#[tactic(auto, unfolding(crate::specs::DemoCapture::policy_text, crate::specs::DemoCapture::policy_lines))]
pub fn policy() -> &'static [u8]
    ensures { result.now ≡ policy_text }
{
    b"nfp 1\n\
    chain web match proto tcp\n\
    fn mon monitor\n\
    fn fw firewall\n\
    rule deny src 10.0.3.0/24\n\
    fn lb balancer\n\
    set vip 198.51.100.1\n\
    rule backend 10.9.0.1\n\
    rule backend 10.9.0.2\n\
    fn red redactor\n\
    rule text secret\n\
    fn ttl hop\n\
    order mon before fw\n\
    chain rest\n\
    fn lim limiter\n\
    set rate 100000\n\
    set burst 2000\n\
    fn mark marker\n\
    rule tos 46 dst 198.51.100.0/30\n\
    fn out nat\n\
    set inside 10.0.0.0/8\n\
    set public 192.0.2.1\n\
    set ports 40000-40999\n\
    fn vlan tagger\n\
    rule vid 7 pcp 0 src 10.0.2.0/24\n\
    position vlan first\n"
}

/// The head of the demo's capture: little-endian, in microseconds, with a snaplen of 262,144.
pub fn head() -> CaptureHead
    ensures { result ≡ demo_head }
{
    CaptureHead {
        order: Endian::Little,
        unit: Unit::Micro,
        zone: 0,
        sigfigs: 0,
        snaplen: 262_144,
    }
}
