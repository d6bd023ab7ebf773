//! Limiters that drop each packet of the usual length.
ghost use Rattle.std.specs.Prelude.{◌≡◌, ◌++◌, codes, OnOk};
ghost use Rattle.policy_text.specs.Values.{number_of};
ghost use Rattle.policy_lint.specs.Limits.{burst_of, told_burst, told_limiter};
ghost use Rattle.policy_lint.specs.Nats.{value_of};

use crate::asking::push_if;
use crate::behind::is_limiter;
use crate::finding::Finding;
use crate::nats::setting_of;
use crate::rule_line::word_of;
use item_list::Items;
use policy_text::{FunctionDecl, number};
use std::alloc::AllocError;

/// What a frame of Ethernet carries (IEEE 802.3), in bytes.
const CARRIED: u64 = 1500;

/// Adds what is odd in a limiter by itself.
pub fn push_limiter(found: &mut Items<Finding>, decl: &FunctionDecl) -> Result<(), AllocError>
    ensures { OnOk result (found.new ≡ found.old ++ told_limiter decl.now) }
{
    match burst_of(decl) {
        Some((line, burst)) => push_if(found, burst < CARRIED, Finding::SmallBurst { line }),
        None => Ok(()),
    }
}

// The line of a limiter's burst, and the burst in bytes.
fn burst_of(decl: &FunctionDecl) -> Option<(u32, u64)>
    ensures { result ≡ burst_of decl.now }
{
    if is_limiter(decl.kind) {
        burst_in(decl)
    } else {
        None
    }
}

fn burst_in(decl: &FunctionDecl) -> Option<(u32, u64)>
    ensures { result ≡ value_of (number_of 20 4294967295) (codes "burst") decl.now }
{
    let setting = setting_of(decl, b"burst")?;
    let burst = number(word_of(setting.words.as_slice(), 2), 20, 4294967295)?;
    Some((setting.line, burst))
}
