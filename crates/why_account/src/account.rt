//! The account of a capture's packets.
ghost use Rattle.std.specs.Prelude.{◌≡◌, ◌<◌, ◌≤◌, ◌^◌, if◌then◌else◌};
ghost use Rattle.why_report.specs.Report.{is_gone};
ghost use Rattle.why_account.specs.Accounts.{NotesWay};

use crate::chain::ChainAccounts;
use crate::counting::raised;
use capture_items::Totals;
use chain_walk::Fate;
use traced_run::TracedAct;

/// The totals of the packets so far, those that no chain took, and the accounts of the chains.
#[derive(Drop)]
pub struct Account {
    pub totals: Totals,
    pub untaken: u64,
    pub chains: ChainAccounts,
}

impl Account {
    /// Notes one more packet: the chain that took it, counted from 0, where it ended, and what each function did to it.
    /// Allocates nothing.
    pub fn note(&mut self, class: Option<u32>, fate: &Fate, acts: &[TracedAct])
        requires room { self.old.totals.records < 2 ^ 32 }
        requires within { self.old.totals.dropped ≤ self.old.totals.records }
        ensures { NotesWay class fate.now acts.now self.old self.new }
    {
        self.totals.records += 1;
        self.totals.dropped += dropped(fate);
        self.untaken = raised(self.untaken, class.is_none());
        self.chains.note(class, acts);
    }
}

// The number of dropped packets that this is.
fn dropped(fate: &Fate) -> u64
    ensures { result ≡ (if is_gone fate.now then 1 else 0) }
{
    match fate {
        Fate::Out(_) => 0,
        Fate::Gone(_) => 1,
    }
}
