//! What can be odd in a policy.

/// Something odd in a policy without fault, with the lines that it speaks of, which are counted from 1.
#[derive(Clone, Copy, Debug, PartialEq, Eq)]
pub enum Finding {
    /// No packet reaches the chain: each that meets its clauses meets those of a chain before it.
    ChainTaken { line: u32, by: u32 },
    /// The rule never decides: each packet that meets it meets a rule before it.
    RuleCovered { line: u32, by: u32 },
    /// No packet reaches the function: one before it in its chain drops each.
    NeverReached { line: u32, by: u32 },
    /// The limiter counts by sources that another function wrote before.
    LimiterBehind { line: u32, by: u32 },
    /// The firewalls of a chain deny by addresses of IPv4 alone, and let pass the same of IPv6.
    DeniesIpv4Alone { line: u32 },
    /// The firewalls of a chain deny by addresses of IPv6 alone, and let pass the same of IPv4.
    DeniesIpv6Alone { line: u32 },
    /// The public address of a nat lies in its prefix inside.
    PublicInside { line: u32, inside: u32 },
    /// Two nats share a public address, and ports of it.
    SharedPorts { line: u32, by: u32 },
    /// No packet meets the clauses of the line: two of them exclude each other.
    ClausesClash { line: u32 },
    /// A prefix has bits past its length that aren't 0.
    BitsPastLength { line: u32 },
    /// The rule of a marker asks for an address of IPv6, which has no type of service.
    MarksIpv6 { line: u32 },
    /// A pattern in quotes, which are part of it.
    QuotedPattern { line: u32 },
    /// A pattern that ends with a comma, which is part of it.
    CommaPattern { line: u32 },
    /// A pattern that a comment cuts off.
    CutPattern { line: u32 },
    /// A pattern that looks like a glob.
    GlobPattern { line: u32 },
    /// A pattern that looks like a regular expression.
    RegexPattern { line: u32 },
    /// The firewall drops no packet: its rules allow, and so does its default.
    DropsNone { line: u32 },
    /// The firewall drops every packet: its rules deny, and so does its default.
    DropsEach { line: u32 },
    /// The limiter drops each packet of 1,500 bytes: its burst is less.
    SmallBurst { line: u32 },
    /// No packet of the chain, whose line is the other, meets the rule.
    MatchExcludes { line: u32, by: u32 },
    /// No packet of the chain, whose line is the other, is for the virtual address.
    VipExcluded { line: u32, by: u32 },
    /// A nat before the rule rewrites the sources that the rule asks for.
    SourceRewritten { line: u32, by: u32 },
    /// An encap before the rule hides the addresses that the rule asks for.
    HiddenInTunnel { line: u32, by: u32 },
    /// A redactor before the signature overwrites its pattern.
    RedactedBefore { line: u32, by: u32 },
    /// The chain has limiters, and packets that it takes miss the nat whose prefix inside is on the other line.
    LimiterApart { line: u32, by: u32 },
}
