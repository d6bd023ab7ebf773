//! The texts of findings.
ghost use Rattle.std.specs.Prelude.{◌≡◌};
ghost use Rattle.policy_lint.specs.Telling.{line_of, other_of};

use crate::finding::Finding;

const CHAIN_TAKEN: &str =
    "no packet reaches this chain: each that meets its clauses meets those of the chain on line {}, which takes it first\n  put this chain before that one, or give that one a clause more";

const RULE_COVERED: &str =
    "this rule never decides: each packet that meets it meets the rule on line {}, which comes before it\n  put this rule before that one, or delete it";

const NEVER_REACHED: &str =
    "no packet reaches this function: the firewall on line {} comes before it in its chain, and drops each\n  let that firewall allow something, or write `order A before B` so that this function comes before it";

const LIMITER_BEHIND: &str =
    "this limiter counts by what the function on line {} wrote as the source, so that machines behind it count as one\n  write `order A before B` so that the limiter comes before it, and counts each machine by itself";

const DENIES_IPV4_ALONE: &str =
    "this firewall denies by addresses of IPv4 alone, and no firewall of its chain names one of IPv6: IPv6 packets meet none of these rules\n  add `rule deny version 6` to drop them, or `rule allow version 6` to say that they pass; if this firewall has 256 rules, say it in a second firewall";

const DENIES_IPV6_ALONE: &str =
    "this firewall denies by addresses of IPv6 alone, and no firewall of its chain names one of IPv4: IPv4 packets meet none of these rules\n  add `rule deny version 4` to drop them, or `rule allow version 4` to say that they pass; if this firewall has 256 rules, say it in a second firewall";

const PUBLIC_INSIDE: &str =
    "this public address is one of those inside, by line {}: a machine that has it can't be distinguished from the nat\n  take an address that isn't inside, or a prefix with more bits";

const SHARED_PORTS: &str =
    "the nat of line {} uses some of these ports of the same public address: a packet that comes back may belong to either\n  part the ports, as 40000-44999 and 45000-49999, or give each nat an address of its own";

const CLAUSES_CLASH: &str =
    "no packet meets this line: two of its clauses exclude each other, such as ports and a protocol without ports, flags and a protocol other than TCP, or one of IPv4 and one of IPv6\n  delete one of the two clauses, or write a line for each";

const BITS_PAST_LENGTH: &str =
    "bits of a prefix on this line past its length aren't 0, and they don't count: 10.1.2.3/8 means 10.0.0.0/8\n  write these bits as 0, or the length that you mean: for one address leave the length out";

const MARKS_IPV6: &str =
    "this rule marks no packet: it asks for an address of IPv6, and a packet of IPv6 has no type of service\n  delete it, or ask for addresses of IPv4";

const QUOTED_PATTERN: &str =
    "the quotes are part of this pattern: it is found only in data that have the quotes too\n  write the word without quotes; for a pattern that has blanks or quotes, use `rule hex ..`";

const COMMA_PATTERN: &str =
    "the comma is part of this pattern: it is found only in data that have the comma too\n  write the word without the comma, and each pattern as a rule of its own; if you mean the comma, use `rule hex ..`";

const CUT_PATTERN: &str =
    "this pattern ends before the `#`: the rest of the line is a comment\n  for a pattern that has `#`, use `rule hex ..`, where `#` is 23; if you mean a comment, put a blank before it";

const GLOB_PATTERN: &str =
    "the `*` is part of this pattern: it is found only in data that have the `*` too\n  write the word without `*`: a pattern is found anywhere in the data; if you mean the `*`, use `rule hex ..`";

const REGEX_PATTERN: &str =
    "this is no regular expression: the pattern is found only in data that have the slashes and signs too\n  write the word without slashes, and a rule for each spelling; if you mean the slashes, use `rule hex ..`";

const DROPS_NONE: &str =
    "this firewall drops no packet: its rules allow, and what meets none of them is allowed too\n  add `set default deny` to drop the rest, or delete the firewall";

const DROPS_EACH: &str =
    "no packet passes this firewall: its rules deny, and what meets none of them is denied too\n  delete `set default deny` to let the rest pass, or add `rule allow ..` for what is meant to pass";

const SMALL_BURST: &str =
    "this limiter drops every packet that is longer than its burst, at any rate: a usual packet has up to 1,500 bytes\n  set a burst of at least 1500";

const MATCH_EXCLUDES: &str =
    "no packet of this chain meets this rule: the `match` on line {} takes none that does\n  delete the rule, or move it to the chain that takes these packets";

const VIP_EXCLUDED: &str =
    "no packet of this chain is sent to this address: the `match` on line {} takes none of them\n  move the balancer to the chain that takes these packets, or let the `match` take the address too";

const SOURCE_REWRITTEN: &str =
    "the nat on line {} comes before this rule and writes its public address over the sources that the rule asks for: no packet that it translates meets the rule\n  write `order A before B` so that this function comes before the nat, or ask for the public address";

const HIDDEN_IN_TUNNEL: &str =
    "the encap on line {} comes before this rule, and a packet in its tunnel shows the tunnel's addresses alone: none meets the rule\n  write `order A before B` so that this function comes before the encap, or ask for the addresses of the tunnel";

const REDACTED_BEFORE: &str =
    "this pattern is never found: the redactor on line {} comes before the signature and overwrites it\n  write `order A before B` so that the signature comes before the redactor, or delete one of the two rules";

const LIMITER_APART: &str =
    "packets that this chain takes miss the nat of line {}, and leave with their source inside: a packet goes through one chain alone\n  put the limiter into the chain of the nat, before it; or give this chain a nat with ports of its own";

impl Finding {
    /// The line that it speaks of.
    pub fn line(self) -> u32
        ensures { result ≡ line_of self }
    {
        match self {
            Finding::ChainTaken { line, .. }
            | Finding::RuleCovered { line, .. }
            | Finding::NeverReached { line, .. }
            | Finding::LimiterBehind { line, .. }
            | Finding::DeniesIpv4Alone { line }
            | Finding::DeniesIpv6Alone { line }
            | Finding::PublicInside { line, .. }
            | Finding::SharedPorts { line, .. }
            | Finding::ClausesClash { line }
            | Finding::BitsPastLength { line }
            | Finding::MarksIpv6 { line }
            | Finding::QuotedPattern { line }
            | Finding::CommaPattern { line }
            | Finding::CutPattern { line }
            | Finding::GlobPattern { line }
            | Finding::RegexPattern { line }
            | Finding::DropsNone { line }
            | Finding::DropsEach { line }
            | Finding::SmallBurst { line }
            | Finding::MatchExcludes { line, .. }
            | Finding::VipExcluded { line, .. }
            | Finding::SourceRewritten { line, .. }
            | Finding::HiddenInTunnel { line, .. }
            | Finding::RedactedBefore { line, .. }
            | Finding::LimiterApart { line, .. } => line,
        }
    }

    /// The line that makes it so, if there is one.
    pub fn other(self) -> Option<u32>
        ensures { result ≡ other_of self }
    {
        match self {
            Finding::ChainTaken { by, .. }
            | Finding::RuleCovered { by, .. }
            | Finding::NeverReached { by, .. }
            | Finding::LimiterBehind { by, .. }
            | Finding::SharedPorts { by, .. }
            | Finding::MatchExcludes { by, .. }
            | Finding::VipExcluded { by, .. }
            | Finding::SourceRewritten { by, .. }
            | Finding::HiddenInTunnel { by, .. }
            | Finding::RedactedBefore { by, .. }
            | Finding::LimiterApart { by, .. } => Some(by),
            Finding::PublicInside { inside, .. } => Some(inside),
            Finding::DeniesIpv4Alone { .. }
            | Finding::DeniesIpv6Alone { .. }
            | Finding::ClausesClash { .. }
            | Finding::BitsPastLength { .. }
            | Finding::MarksIpv6 { .. }
            | Finding::QuotedPattern { .. }
            | Finding::CommaPattern { .. }
            | Finding::CutPattern { .. }
            | Finding::GlobPattern { .. }
            | Finding::RegexPattern { .. }
            | Finding::DropsNone { .. }
            | Finding::DropsEach { .. }
            | Finding::SmallBurst { .. } => None,
        }
    }

    /// What it means, and on a line that begins with two blanks how to say it otherwise. `{}` is the place of the number of the
    /// other line.
    pub fn text(self) -> &'static str {
        match self {
            Finding::ChainTaken { .. } => CHAIN_TAKEN,
            Finding::RuleCovered { .. } => RULE_COVERED,
            Finding::NeverReached { .. } => NEVER_REACHED,
            Finding::LimiterBehind { .. } => LIMITER_BEHIND,
            Finding::DeniesIpv4Alone { .. } => DENIES_IPV4_ALONE,
            Finding::DeniesIpv6Alone { .. } => DENIES_IPV6_ALONE,
            Finding::PublicInside { .. } => PUBLIC_INSIDE,
            Finding::SharedPorts { .. } => SHARED_PORTS,
            Finding::ClausesClash { .. } => CLAUSES_CLASH,
            Finding::BitsPastLength { .. } => BITS_PAST_LENGTH,
            Finding::MarksIpv6 { .. } => MARKS_IPV6,
            Finding::QuotedPattern { .. } => QUOTED_PATTERN,
            Finding::CommaPattern { .. } => COMMA_PATTERN,
            Finding::CutPattern { .. } => CUT_PATTERN,
            Finding::GlobPattern { .. } => GLOB_PATTERN,
            Finding::RegexPattern { .. } => REGEX_PATTERN,
            Finding::DropsNone { .. } => DROPS_NONE,
            Finding::DropsEach { .. } => DROPS_EACH,
            Finding::SmallBurst { .. } => SMALL_BURST,
            Finding::MatchExcludes { .. } => MATCH_EXCLUDES,
            Finding::VipExcluded { .. } => VIP_EXCLUDED,
            Finding::SourceRewritten { .. } => SOURCE_REWRITTEN,
            Finding::HiddenInTunnel { .. } => HIDDEN_IN_TUNNEL,
            Finding::RedactedBefore { .. } => REDACTED_BEFORE,
            Finding::LimiterApart { .. } => LIMITER_APART,
        }
    }
}
