//! Odd things in policies without fault.
use policy_judge::judge;
use policy_lint::{Finding, cut_lines, lint};
use std::alloc::Global;
use std::process::Abort;

// Checks that exactly these findings are returned for the policy.
fn finds(rt: &impl Abort, alloc: Global, text: &str, due: &[Finding]) {
    assert!(rt; text.len() < 1000);
    match (
        judge(alloc, text.as_bytes()),
        cut_lines(alloc, text.as_bytes()),
    ) {
        (Ok(judged), Ok(cuts)) => {
            match lint(
                alloc,
                cuts.as_slice(),
                &judged.policy,
                judged.orders.as_slice(),
            ) {
                Ok(found) => assert!(rt; found.as_slice() == due),
                Err(_) => rt.abort(),
            }
        }
        _ => rt.abort(),
    }
}

#[test]
fn what_no_packet_reaches_is_found(rt: HostRuntime) {
    let alloc = rt.alloc();
    let chains =
        "nfp 1\nchain a match src 10.0.0.0/8\nchain b match proto tcp src 10.1.0.0/16\nchain c\n";
    let taken = Finding::ChainTaken { line: 3, by: 2 };
    finds(&rt, alloc, chains, &[taken]);
    let rules =
        "nfp 1\nchain a\nfn f firewall\nrule allow dport 80-90\nrule deny dport 85 proto tcp\n";
    let covered = Finding::RuleCovered { line: 5, by: 4 };
    finds(&rt, alloc, rules, &[covered]);
    let order = "nfp 1\nchain a\nfn m monitor\nfn f firewall\nset default deny\nposition f first\n";
    let unreached = Finding::NeverReached { line: 3, by: 4 };
    finds(&rt, alloc, order, &[unreached]);
}

#[test]
fn odd_functions_are_found(rt: HostRuntime) {
    let alloc = rt.alloc();
    let four = "nfp 1\nchain a\nfn f firewall\nrule deny src 10.0.0.0/8\n";
    finds(&rt, alloc, four, &[Finding::DeniesIpv4Alone { line: 3 }]);
    let both = "nfp 1\nchain a\nfn f firewall\nrule deny src 10.0.0.0/8\nrule allow src ::/0\n";
    finds(&rt, alloc, both, &[]);
    let limited =
        "nfp 1\nchain a\nfn n nat\nset inside 10.0.0.0/8\nset public 10.0.0.1\nset ports 1-9\nfn l limiter\nset rate 9\nset burst 9000\n";
    let behind = Finding::LimiterBehind { line: 7, by: 3 };
    let inside = Finding::PublicInside { line: 5, inside: 4 };
    finds(&rt, alloc, limited, &[behind, inside]);
    let shared =
        "nfp 1\nchain a\nfn n nat\nset inside 10.0.0.0/8\nset public 192.0.2.1\nset ports 1-9\nfn o nat\nset inside 10.0.0.0/8\nset public 192.0.2.1\nset ports 9-20\n";
    finds(
        &rt,
        alloc,
        shared,
        &[Finding::SharedPorts { line: 10, by: 6 }],
    );
}

#[test]
fn one_finding_comes_for_all_firewalls_of_a_chain(rt: HostRuntime) {
    let alloc = rt.alloc();
    let two =
        "nfp 1\nchain a\nfn f firewall\nrule deny src 10.0.0.0/8\nfn g firewall\nrule deny src 192.0.2.1\n";
    finds(&rt, alloc, two, &[Finding::DeniesIpv4Alone { line: 3 }]);
    let second =
        "nfp 1\nchain a\nfn f firewall\nrule deny src 10.0.0.0/8\nfn g firewall\nrule deny src ::/0\n";
    finds(&rt, alloc, second, &[]);
    let rest =
        "nfp 1\nchain a\nfn f firewall\nrule deny src 10.0.0.0/8\nfn g firewall\nset default deny\nrule allow proto tcp\n";
    finds(&rt, alloc, rest, &[]);
}

#[test]
fn firewalls_that_drop_all_or_nothing_are_found(rt: HostRuntime) {
    let alloc = rt.alloc();
    let allows = "nfp 1\nchain a\nfn f firewall\nrule allow proto tcp\n";
    finds(&rt, alloc, allows, &[Finding::DropsNone { line: 3 }]);
    let says = "nfp 1\nchain a\nfn f firewall\nrule allow src ::/0\n";
    finds(&rt, alloc, says, &[]);
    let denies = "nfp 1\nchain a\nfn f firewall\nset default deny\nrule deny proto tcp\n";
    finds(&rt, alloc, denies, &[Finding::DropsEach { line: 3 }]);
}

#[test]
fn odd_clauses_are_found(rt: HostRuntime) {
    let alloc = rt.alloc();
    let ports = "nfp 1\nchain a\nfn f firewall\nrule deny proto 1 dport 53\n";
    finds(&rt, alloc, ports, &[Finding::ClausesClash { line: 4 }]);
    let versions = "nfp 1\nchain a match src 10.0.0.1 dst ::1\n";
    finds(&rt, alloc, versions, &[Finding::ClausesClash { line: 2 }]);
    let bits =
        "nfp 1\nchain a match src 10.1.2.3/8\nfn t tagger\nrule vid 7 pcp 0 src 10.1.0.1/24\n";
    let chain = Finding::BitsPastLength { line: 2 };
    finds(
        &rt,
        alloc,
        bits,
        &[chain, Finding::BitsPastLength { line: 4 }],
    );
    let marks = "nfp 1\nchain a\nfn m marker\nrule tos 8 dst ::1\n";
    finds(&rt, alloc, marks, &[Finding::MarksIpv6 { line: 4 }]);
    let burst = "nfp 1\nchain a\nfn l limiter\nset rate 9\nset burst 1499\n";
    finds(&rt, alloc, burst, &[Finding::SmallBurst { line: 5 }]);
}

#[test]
fn flags_and_versions_are_compared(rt: HostRuntime) {
    let alloc = rt.alloc();
    let clashing =
        "nfp 1\nchain a\nfn f firewall\nrule deny version 4 src ::1\nrule deny flags syn proto udp\n";
    finds(
        &rt,
        alloc,
        clashing,
        &[
            Finding::ClausesClash { line: 4 },
            Finding::ClausesClash { line: 5 },
        ],
    );
    let excluded =
        "nfp 1\nchain a match flags syn !ack\nfn f firewall\nrule deny flags fin ack\nrule deny flags fin\n";
    finds(
        &rt,
        alloc,
        excluded,
        &[Finding::MatchExcludes { line: 4, by: 2 }],
    );
    let covered = "nfp 1\nchain a\nfn f firewall\nrule deny flags syn\nrule allow flags syn !ack\n";
    finds(
        &rt,
        alloc,
        covered,
        &[Finding::RuleCovered { line: 5, by: 4 }],
    );
    let both = "nfp 1\nchain a\nfn f firewall\nrule deny src 10.0.0.0/8\nrule deny version 6\n";
    finds(&rt, alloc, both, &[]);
}

#[test]
fn odd_patterns_are_found(rt: HostRuntime) {
    let alloc = rt.alloc();
    let patterns =
        "nfp 1\nchain a\nfn s signature\nrule text \"a\"\nrule text a,\nrule text a#b\nrule text *a\nrule text /a/i\n";
    finds(
        &rt,
        alloc,
        patterns,
        &[
            Finding::QuotedPattern { line: 4 },
            Finding::CommaPattern { line: 5 },
            Finding::CutPattern { line: 6 },
            Finding::GlobPattern { line: 7 },
            Finding::RegexPattern { line: 8 },
        ],
    );
    let plain = "nfp 1\nchain a\nfn s signature\nrule text a # b\nrule text a/b\nrule hex 2c#\n";
    finds(&rt, alloc, plain, &[Finding::CutPattern { line: 6 }]);
}

#[test]
fn what_the_match_excludes_is_found(rt: HostRuntime) {
    let alloc = rt.alloc();
    let tags = "nfp 1\nchain a match tag 10\nfn f firewall\nrule deny tag 20\n";
    finds(
        &rt,
        alloc,
        tags,
        &[Finding::MatchExcludes { line: 4, by: 2 }],
    );
    let tagged =
        "nfp 1\nchain a match tag 10\nfn t tagger\nrule vid 20 pcp 0\nfn f firewall\nrule deny tag 20\n";
    finds(&rt, alloc, tagged, &[]);
    let vip =
        "nfp 1\nchain a match dst 192.0.2.0/24\nfn b balancer\nset vip 10.0.0.1\nrule backend 10.0.0.2\n";
    finds(&rt, alloc, vip, &[Finding::VipExcluded { line: 4, by: 2 }]);
}

#[test]
fn what_was_rewritten_before_is_found(rt: HostRuntime) {
    let alloc = rt.alloc();
    let nat =
        "nfp 1\nchain a\nfn n nat\nset inside 10.0.0.0/8\nset public 192.0.2.1\nset ports 1-9\nfn m marker\nrule tos 8 src 10.1.0.0/16\nrule tos 9 src 192.0.2.1\n";
    let rewritten = Finding::SourceRewritten { line: 8, by: 3 };
    finds(&rt, alloc, nat, &[rewritten]);
    let tunnel =
        "nfp 1\nchain a\nfn e encap\nset entry 192.0.2.1\nset exit 192.0.2.2\nset ttl 64\nfn m marker\nrule tos 8 src 10.1.0.0/16\nrule tos 9 dst 192.0.2.2\n";
    let hidden = Finding::HiddenInTunnel { line: 8, by: 3 };
    finds(&rt, alloc, tunnel, &[hidden]);
    let pattern =
        "nfp 1\nchain a\nfn r redactor\nrule text ab\nrule text xy\nfn s signature\nrule text xy\nrule text ab\n";
    let redacted = Finding::RedactedBefore { line: 8, by: 3 };
    finds(&rt, alloc, pattern, &[redacted]);
}

#[test]
fn limiters_beside_a_nat_are_found(rt: HostRuntime) {
    let alloc = rt.alloc();
    let apart =
        "nfp 1\nchain a match src 10.1.0.0/16\nfn l limiter\nset rate 9\nset burst 9000\nchain b\nfn n nat\nset inside 10.0.0.0/8\nset public 192.0.2.1\nset ports 1-9\n";
    finds(
        &rt,
        alloc,
        apart,
        &[Finding::LimiterApart { line: 2, by: 8 }],
    );
}

#[test]
fn a_finding_is_told(rt: HostRuntime) {
    let taken = Finding::ChainTaken { line: 3, by: 2 };
    assert_eq!(rt; taken.line(), 3);
    assert!(rt; taken.other() == Some(2));
    assert!(rt; taken.text().contains("line {}"));
}
