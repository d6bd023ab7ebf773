//! How the results of the branches of a stage are merged.
ghost use Rattle.std.specs.Prelude.{◌≡◌, ◌≤◌};
ghost use Rattle.burst_walk.specs.Mergers.{number_of};

use chain_service::MergeWay;

/// The greatest number of mergers of a stage: 1 to 16, and no other number can be expressed.
#[derive(Clone, Copy, Debug, PartialEq, Eq)]
pub struct Mergers {
    // The number of mergers besides the first. Only its remainder modulo 16 counts.
    more: u8,
}

impl Mergers {
    /// This number of mergers.
    pub fn new(count: u32) -> Mergers
        requires some { 1 ≤ count }
        requires few { count ≤ 16 }
        ensures { number_of result ≡ count }
    {
        Mergers {
            more: (count - 1) as u8,
        }
    }

    /// The number of mergers.
    pub fn count(self) -> u32
        ensures count { result ≡ number_of self }
        ensures some { 1 ≤ result }
        ensures few { result ≤ 16 }
    {
        u32::from(self.more % 16) + 1
    }
}

/// The number of mergers, and the way, by which the results of the branches of a stage are merged. The fate of a packet
/// depends on neither.
#[derive(Clone, Copy, Debug, PartialEq, Eq)]
pub struct Merging {
    pub mergers: Mergers,
    pub way: MergeWay,
}
