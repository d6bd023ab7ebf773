//! The kinds of network functions.
ghost use Rattle.std.specs.Prelude.{◌≡◌};
ghost use Rattle.action_profile.specs.Kinds.{kind_name, is_name_of, kind_named};

/// A kind of network function.
#[derive(Clone, Copy, Debug, PartialEq, Eq)]
pub enum Kind {
    /// Drops packets by their addresses, ports and tag.
    Firewall,
    /// Drops packets whose data has a pattern.
    Signature,
    /// Translates addresses and ports (RFC 3022).
    Nat,
    /// Sends each flow to one of several servers.
    Balancer,
    /// Counts the packets and bytes of each flow.
    Monitor,
    /// Drops what a source sends beyond a rate.
    Limiter,
    /// Sets the type of service (RFC 791, 3.1).
    Marker,
    /// Sets the link addresses of the next hop.
    Nexthop,
    /// Lowers the time to live, which IPv6 names hop limit, and drops a packet whose time is up (RFC 1812, 5.3.1; RFC 8200, 3).
    Hop,
    /// Overwrites patterns in the data.
    Redactor,
    /// Adds a tag (IEEE 802.1Q).
    Tagger,
    /// Removes a tag (IEEE 802.1Q).
    Untagger,
    /// Puts a packet into a packet at a tunnel's entry (RFC 2003).
    Encap,
    /// Takes the inner packet out at the tunnel's exit (RFC 2003).
    Decap,
}

/// All kinds, in the order of their sections in the operator's manual.
pub const KINDS: [Kind; 14] = [
    Kind::Firewall,
    Kind::Signature,
    Kind::Nat,
    Kind::Balancer,
    Kind::Monitor,
    Kind::Limiter,
    Kind::Marker,
    Kind::Nexthop,
    Kind::Hop,
    Kind::Redactor,
    Kind::Tagger,
    Kind::Untagger,
    Kind::Encap,
    Kind::Decap,
];

impl Kind {
    /// The kind of this name.
    pub fn named(word: &[u8]) -> Option<Kind>
        ensures { result ≡ kind_named word.now }
    {
        KINDS.iter().copied().find(|kind| kind.is_named(word))
    }

    fn is_named(self, word: &[u8]) -> bool
        ensures { result ≡ is_name_of word.now self }
    {
        self.name().as_bytes() == word
    }

    /// The kind's name in policies and printed texts.
    pub fn name(self) -> &'static str
        ensures { result.now ≡ kind_name self }
    {
        match self {
            Kind::Firewall => "firewall",
            Kind::Signature => "signature",
            Kind::Nat => "nat",
            Kind::Balancer => "balancer",
            Kind::Monitor => "monitor",
            Kind::Limiter => "limiter",
            Kind::Marker => "marker",
            Kind::Nexthop => "nexthop",
            Kind::Hop => "hop",
            Kind::Redactor => "redactor",
            Kind::Tagger => "tagger",
            Kind::Untagger => "untagger",
            Kind::Encap => "encap",
            Kind::Decap => "decap",
        }
    }
}
