//! Words that people write and a policy does not have, each with what to write instead.
//!
//! They are compared without regard to case. In a text each `{}` is the place of the word that follows in the line.

use action_profile::Kind;

/// Words, and the text for each.
pub type Texts = &'static [(&'static [u8], &'static str)];

const STATE: &str =
    "rules see single packets, not connections: `rule allow flags ack` lets pass what belongs to a connection of TCP that is open, and `rule deny flags syn !ack` denies what opens one";

const FLAGS: &str =
    "the clause is `flags`, with the names of flags after it, and `!` before those that have to be 0: `rule deny dst 10.1.0.0/16 flags syn !ack` denies what opens a connection to the inside";

const VLAN: &str =
    "the clause for a VLAN id is `tag {}`; a marker and a tagger don't have it: put them into a chain with `match tag {}`";

const DSCP: &str =
    "no clause sees the DSCP; a marker writes it by `rule tos N`, where N is 4 times the DSCP: EF is `rule tos 184`";

const PORT: &str =
    "the destination port is `dport {}`, the source port `sport {}`; for both write a line for each";

const PROTO: &str = "the clause is `proto {}`";

const DPORT: &str = "the clause is `dport {}`";

const SPORT: &str = "the clause is `sport {}`";

const SRC: &str = "the clause is `src {}`";

const DST: &str = "the clause is `dst {}`";

const VERSION: &str = "the clause is `version 4` or `version 6`";

const INTERFACE: &str = "no clause sees interfaces: use `src`, `dst` or `tag`";

const LINK: &str = "no clause sees Ethernet addresses: use `src`, `dst` or `tag`";

const SIGN: &str = "a value follows its word directly, as in `dport 22`";

const WEIGHT: &str =
    "a backend has no weight: if its line is written 3 times, it gets 3 times as many flows";

/// Words in the place of a clause.
pub const CLAUSE_WORDS: Texts = &[
    (b"state", STATE),
    (b"ctstate", STATE),
    (b"conntrack", STATE),
    (b"ct", STATE),
    (b"established", STATE),
    (b"related", STATE),
    (b"tcp-flags", FLAGS),
    (b"--tcp-flags", FLAGS),
    (b"syn", FLAGS),
    (b"--syn", FLAGS),
    (b"ack", FLAGS),
    (b"fin", FLAGS),
    (b"rst", FLAGS),
    (b"vlan", VLAN),
    (b"vlan-id", VLAN),
    (b"vid", VLAN),
    (b"dscp", DSCP),
    (b"tos", DSCP),
    (b"port", PORT),
    (b"ports", PORT),
    (b"protocol", PROTO),
    (b"--protocol", PROTO),
    (b"-p", PROTO),
    (b"dst-port", DPORT),
    (b"dst_port", DPORT),
    (b"dstport", DPORT),
    (b"destination-port", DPORT),
    (b"--dport", DPORT),
    (b"src-port", SPORT),
    (b"src_port", SPORT),
    (b"srcport", SPORT),
    (b"source-port", SPORT),
    (b"--sport", SPORT),
    (b"from", SRC),
    (b"source", SRC),
    (b"saddr", SRC),
    (b"-s", SRC),
    (b"to", DST),
    (b"destination", DST),
    (b"daddr", DST),
    (b"-d", DST),
    (b"tcp", "the clause is `proto tcp`"),
    (b"udp", "the clause is `proto udp`"),
    (b"ip", VERSION),
    (b"ipv4", VERSION),
    (b"ip6", VERSION),
    (b"ipv6", VERSION),
    (b"in", INTERFACE),
    (b"out", INTERFACE),
    (b"interface", INTERFACE),
    (b"-i", INTERFACE),
    (b"-o", INTERFACE),
    (b"mac", LINK),
    (b"ether", LINK),
    (b"eq", SIGN),
    (b"is", SIGN),
    (b"=", SIGN),
    (b"==", SIGN),
    (b"weight", WEIGHT),
];

const DENY: &str = "write `deny`";

const ALLOW: &str = "write `allow`";

/// Words for what a firewall does with a packet.
pub const VERDICTS: Texts = &[
    (b"drop", DENY),
    (b"reject", DENY),
    (b"block", DENY),
    (b"discard", DENY),
    (b"accept", ALLOW),
    (b"pass", ALLOW),
    (b"permit", ALLOW),
];

const INCLUDE: &str =
    "a policy is one file: join the parts by `cat`, and keep `nfp 1` in the first one alone";

const RULE_DENY: &str = "in a firewall write `rule deny CLAUSE ..`";

const RULE_ALLOW: &str = "in a firewall write `rule allow CLAUSE ..`";

const DEFAULT: &str = "in a firewall write `set default allow` or `set default deny`";

const FUNCTION: &str = "a function is declared by `fn NAME KIND`";

const MATCH: &str =
    "the clauses of a chain are in the line that opens it: `chain NAME match CLAUSE ..`";

const SETTING: &str = "a setting begins with `set`, as in `set rate 1250000`";

const CLAUSE: &str =
    "a clause is part of a rule or of the line of a chain, as in `rule deny src 10.1.0.0/16`";

/// Words in the place of the first of a line.
pub const FIRST_WORDS: Texts = &[
    (b"include", INCLUDE),
    (b"import", INCLUDE),
    (b"source", INCLUDE),
    (b"drop", RULE_DENY),
    (b"deny", RULE_DENY),
    (b"reject", RULE_DENY),
    (b"block", RULE_DENY),
    (b"accept", RULE_ALLOW),
    (b"allow", RULE_ALLOW),
    (b"pass", RULE_ALLOW),
    (b"permit", RULE_ALLOW),
    (b"default", DEFAULT),
    (b"policy", DEFAULT),
    (b"function", FUNCTION),
    (b"match", MATCH),
    (b"backend", "in a balancer write `rule backend ADDRESS`"),
    (b"vip", SETTING),
    (b"rate", SETTING),
    (b"burst", SETTING),
    (b"inside", SETTING),
    (b"public", SETTING),
    (b"entry", SETTING),
    (b"exit", SETTING),
    (b"src", CLAUSE),
    (b"dst", CLAUSE),
    (b"sport", CLAUSE),
    (b"dport", CLAUSE),
    (b"proto", CLAUSE),
    (b"tag", CLAUSE),
    (b"version", CLAUSE),
    (b"flags", CLAUSE),
];

/// Other names of kinds.
pub const KIND_WORDS: &[(&[u8], Kind)] = &[
    (b"acl", Kind::Firewall),
    (b"filter", Kind::Firewall),
    (b"fw", Kind::Firewall),
    (b"ids", Kind::Signature),
    (b"ips", Kind::Signature),
    (b"snat", Kind::Nat),
    (b"napt", Kind::Nat),
    (b"masquerade", Kind::Nat),
    (b"loadbalancer", Kind::Balancer),
    (b"load-balancer", Kind::Balancer),
    (b"lb", Kind::Balancer),
    (b"counter", Kind::Monitor),
    (b"log", Kind::Monitor),
    (b"netflow", Kind::Monitor),
    (b"ratelimit", Kind::Limiter),
    (b"rate-limiter", Kind::Limiter),
    (b"policer", Kind::Limiter),
    (b"shaper", Kind::Limiter),
    (b"dscp", Kind::Marker),
    (b"qos", Kind::Marker),
    (b"router", Kind::Nexthop),
    (b"route", Kind::Nexthop),
    (b"ttl", Kind::Hop),
    (b"vlan", Kind::Tagger),
    (b"tunnel", Kind::Encap),
    (b"ipip", Kind::Encap),
];

/// The ports of services.
pub const SERVICES: &[(&[u8], u64)] = &[
    (b"ftp", 21),
    (b"ssh", 22),
    (b"telnet", 23),
    (b"smtp", 25),
    (b"dns", 53),
    (b"domain", 53),
    (b"dhcp", 67),
    (b"bootps", 67),
    (b"bootpc", 68),
    (b"tftp", 69),
    (b"http", 80),
    (b"www", 80),
    (b"pop3", 110),
    (b"ntp", 123),
    (b"imap", 143),
    (b"snmp", 161),
    (b"bgp", 179),
    (b"ldap", 389),
    (b"https", 443),
    (b"smb", 445),
    (b"syslog", 514),
    (b"submission", 587),
    (b"ldaps", 636),
    (b"imaps", 993),
    (b"mysql", 3306),
    (b"rdp", 3389),
    (b"sip", 5060),
    (b"postgresql", 5432),
];

/// The bytes `tos` of the names of DSCPs (RFC 2474, RFC 2597, RFC 3246), with an ECN of 0.
pub const MARKS: &[(&[u8], u64)] = &[
    (b"ef", 184),
    (b"af11", 40),
    (b"af12", 48),
    (b"af13", 56),
    (b"af21", 72),
    (b"af22", 80),
    (b"af23", 88),
    (b"af31", 104),
    (b"af32", 112),
    (b"af33", 120),
    (b"af41", 136),
    (b"af42", 144),
    (b"af43", 152),
    (b"cs0", 0),
    (b"cs1", 32),
    (b"cs2", 64),
    (b"cs3", 96),
    (b"cs4", 128),
    (b"cs5", 160),
    (b"cs6", 192),
    (b"cs7", 224),
];

/// The number of bits in units of a rate.
pub const UNITS: &[(&[u8], u64)] = &[
    (b"bit", 1),
    (b"bit/s", 1),
    (b"kbit", 1_000),
    (b"kbit/s", 1_000),
    (b"mbit", 1_000_000),
    (b"mbit/s", 1_000_000),
    (b"gbit", 1_000_000_000),
    (b"gbit/s", 1_000_000_000),
];

/// The text for a word, or nothing.
pub fn text_for(texts: Texts, word: &[u8]) -> &'static str {
    for (each, text) in texts {
        if word.eq_ignore_ascii_case(each) {
            return *text;
        }
    }
    ""
}

/// The number for a word, if there is one.
pub fn number_for(numbers: &[(&[u8], u64)], word: &[u8]) -> Option<u64> {
    for (each, number) in numbers {
        if word.eq_ignore_ascii_case(each) {
            return Some(*number);
        }
    }
    None
}

/// The kind of function that another name of it means, if there is one.
pub fn kind_meant(word: &[u8]) -> Option<Kind> {
    for (each, kind) in KIND_WORDS {
        if word.eq_ignore_ascii_case(each) {
            return Some(*kind);
        }
    }
    None
}
