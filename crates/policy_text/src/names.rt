//! The names of a chain's functions.
ghost use Rattle.std.specs.Prelude.{◌≡◌, map, IfOk};
ghost use Rattle.policy_text.specs.Names.{name_at, names_at};

use crate::policy::FunctionDecl;
use std::alloc::{AllocError, Global};

/// The names of the functions at these places of a chain, counted from 0 as declared.
pub fn names_at<'a>(
    alloc: Global,
    functions: &'a [FunctionDecl],
    places: &[u32],
) -> Result<Vec<&'a [u8]>, AllocError>
    ensures { IfOk result (λ names. map (λ name. name.now) names.items ≡ names_at functions.now places.now) }
{
    let mut names = Vec::new(alloc);
    'places: for place in places {
        names.push(name_at(functions, *place))?;
    }
    Ok(names)
}

/// The name of the function at a place of a chain, counted from 0 as declared; empty past its end.
pub fn name_at(functions: &[FunctionDecl], place: u32) -> &[u8]
    ensures { result.now ≡ name_at functions.now place }
{
    match functions.get(place as usize) {
        Some(function) => function.name.bytes(),
        None => &[],
    }
}
