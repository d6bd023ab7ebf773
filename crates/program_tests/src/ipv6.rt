//! Runs over a packet of IPv6 (RFC 8200).

use crate::packets::{Capture, Datagram6, HEAD, NONE, Packet};
use crate::rows::{Row, WAYS, compare};

const DATAGRAM: Datagram6 = Datagram6 {
    hop_limit: 64,
    host: 2,
    checksum: [0xa0, 0x4c],
};

const CAPTURE: Capture<'static> = Capture {
    head: &HEAD,
    packets: &[Packet::Udp6(DATAGRAM)],
};

const COUNTED: Row<'static> = Row {
    calls: WAYS,
    graph: b"",
    policy: b"nfp 1\nchain main\nfn m monitor\nfn h hop\n",
    capture: CAPTURE,
    outcome: "Done",
    out: Capture {
        head: &HEAD,
        packets: &[Packet::Udp6(Datagram6 {
            hop_limit: 63,
            ..DATAGRAM
        })],
    },
    report: b"nfp report 1\nrecords 1 emitted 1 dropped 0\nfunction main m monitor\n  flow 17 2001:db8:0:0:0:0:0:1 1000 2001:db8:0:0:0:0:0:2 53 packets 1 bytes 48\nfunction main h hop\nend\n",
    note: b"done records 1 emitted 1 dropped 0\n",
};

#[test]
fn a_flow_is_counted_and_a_hop_taken(rt: HostRuntime) {
    compare(&rt, &[COUNTED]);
}

const BALANCED: &[Row<'static>] = &[Row {
    policy: b"nfp 1\nchain main\nfn b balancer\nset vip 2001:db8::2\nrule backend 2001:db8::9\n",
    out: Capture {
        head: &HEAD,
        packets: &[Packet::Udp6(Datagram6 {
            host: 9,
            checksum: [0xa0, 0x45],
            ..DATAGRAM
        })],
    },
    report: b"nfp report 1\nrecords 1 emitted 1 dropped 0\nfunction main b balancer\n  flow 17 2001:db8:0:0:0:0:0:1 1000 backend 2001:db8:0:0:0:0:0:9\nend\n",
    ..COUNTED
}];

#[test]
fn a_backend_gets_the_packet(rt: HostRuntime) {
    compare(&rt, BALANCED);
}

const DENIED4: Row<'static> = Row {
    policy: b"nfp 1\nchain main\nfn fw firewall\nrule deny src 0.0.0.0/0\n",
    out: CAPTURE,
    report: b"nfp report 1\nrecords 1 emitted 1 dropped 0\nfunction main fw firewall\nend\n",
    ..COUNTED
};

const DENIED6: Row<'static> = Row {
    policy: b"nfp 1\nchain main\nfn fw firewall\nrule deny src 2001:db8::/32\n",
    out: NONE,
    report: b"nfp report 1\ndrop 1 main fw\nrecords 1 emitted 0 dropped 1\nfunction main fw firewall\nend\n",
    note: b"done records 1 emitted 0 dropped 1\n",
    ..COUNTED
};

const OF_ONE_VERSION: &[Row<'static>] = &[DENIED4, DENIED6];

// A prefix of IPv4 isn't met by a packet of IPv6, however short it is.
#[test]
fn a_prefix_keeps_to_its_version(rt: HostRuntime) {
    compare(&rt, OF_ONE_VERSION);
}
