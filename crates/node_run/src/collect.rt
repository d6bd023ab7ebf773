//! Collects what comes out after the last stage.
ghost use Rattle.std.specs.Prelude.{◌≡◌, [], ℕ, suc, List, All, IfOk, OnOk, vec_capacity};
ghost use Rattle.packet_version.specs.Splitting.{PlainApart};
ghost use Rattle.packet_messages.specs.Messages.{PlainMessage};
ghost use Rattle.node_run.specs.Runs.{Collects, fates_behind, is_found};

use chain_walk::Fate;
use stage_nodes::Supply;
use std::alloc::{AllocError, Global};
use std::sync::Wait;

/// The fates of `count` packets, each as it comes from the last stage. Fails if one is short, or if there is no memory
/// for them.
pub(crate) fn collect<S: Supply + Drop, R: Wait>(
    rt: &R,
    alloc: Global,
    source: S,
    count: u32,
) -> Result<Vec<Fate>, AllocError>
    requires { (all : List (PlainMessage PlainApart)) × Collects S.comes count count [] source all }
    ensures fates { (all : List (PlainMessage PlainApart)) → Collects S.comes count count [] source all → IfOk result (λ fates. fates.items ≡ fates_behind all) }
    ensures found { (all : List (PlainMessage PlainApart)) → Collects S.comes count count [] source all → OnOk result (All is_found all) }
{
    let mut source = source;
    let mut fates = Vec::with_capacity(alloc, count as usize)?;
    for _packet in 0..count {
        collect_one(rt, alloc, &mut source, &mut fates)?;
    }
    Ok(fates)
}

/// The fate of the next packet.
fn collect_one<S: Supply, R: Wait>(
    rt: &R,
    alloc: Global,
    source: &mut S,
    fates: &mut Vec<Fate>,
) -> Result<(), AllocError>
    requires { (n : ℕ) × (all : List (PlainMessage PlainApart)) × Collects S.comes (suc n) (vec_capacity fates.old) fates.old.items source.old all }
    ensures { OnOk result ((n : ℕ) (all : List (PlainMessage PlainApart)) → Collects S.comes (suc n) (vec_capacity fates.old) fates.old.items source.old all → Collects S.comes n (vec_capacity fates.new) fates.new.items source.new all) }
{
    let fate = source.next(rt, alloc).into_fate(alloc)?;
    fates.push_reserved(fate);
    Ok(())
}
