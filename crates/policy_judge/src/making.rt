//! Makes the functions of a policy's chains, each once.
ghost use Rattle.std.specs.Prelude.{◌≡◌, IfOk, OnOk, Some};
ghost use Rattle.net_functions.specs.Builds.{refused_line};
ghost use Rattle.policy_judge.specs.Kept.{kept_of, kept_each, MakesAll};
ghost use Rattle.policy_judge.specs.Settings.{lesser_of, least_among};

use item_list::Items;
use net_functions::{Made, make};
use policy_text::{BuildFault, ChainPolicy, FunctionDecl};
use std::alloc::{AllocError, Global};

/// The functions of each chain as they are declared, or the least line that a function of any chain refuses.
pub fn functions_of(
    alloc: Global,
    chains: &[ChainPolicy],
) -> Result<Items<Items<Option<Made>>>, BuildFault>
    ensures { MakesAll chains.now result }
{
    let mut least = None;
    let mut functions = Vec::new(alloc);
    'chains: for chain in chains {
        let made = make_each(alloc, &mut least, chain.functions.as_slice())?;
        functions.push(made)?;
    }
    match least {
        None => Ok(Items::new(functions)),
        Some(line) => Err(BuildFault::BadSetting(line)),
    }
}

// Makes these functions, and combines the lines that they refuse with the least one so far.
fn make_each(
    alloc: Global,
    least: &mut Option<u32>,
    decls: &[FunctionDecl],
) -> Result<Items<Option<Made>>, AllocError>
    ensures functions { IfOk result (λ functions. functions ≡ kept_each decls.now) }
    ensures least { OnOk result (least.new ≡ least_among least.old decls.now) }
{
    let mut functions = Vec::new(alloc);
    'decls: for decl in decls {
        let function = make_one(alloc, least, decl)?;
        functions.push(function)?;
    }
    Ok(Items::new(functions))
}

// Makes a function, and combines the line that it refuses with the least one so far. A refused function is `None`,
// which nobody gets.
#[tactic(auto, using(crate::proofs::NoLineRefused::lesser_of_none))]
fn make_one(
    alloc: Global,
    least: &mut Option<u32>,
    decl: &FunctionDecl,
) -> Result<Option<Made>, AllocError>
    ensures function { IfOk result (λ function. function ≡ kept_of decl.now) }
    ensures least { OnOk result (least.new ≡ lesser_of least.old (refused_line decl.now)) }
{
    match make(alloc, decl) {
        Ok(function) => Ok(Some(function)),
        Err(BuildFault::BadSetting(line)) => {
            *least = Some(lesser_of(*least, line));
            Ok(None)
        }
        Err(BuildFault::OutOfMemory) => Err(AllocError),
    }
}

fn lesser_of(least: Option<u32>, line: u32) -> u32
    ensures { Some result ≡ lesser_of least (Some line) }
{
    match least {
        Some(least) => least.min(line),
        None => line,
    }
}
