//! Calls that allocate memory, run with ample memory.
ghost use Rattle.std.specs.Prelude.{◌≡◌, Ok};

use std::process::Abort;

/// The value of such a call. The test is aborted if the call failed.
pub fn had<T, E: Drop>(rt: &impl Abort, given: Result<T, E>) -> T
    ensures { given ≡ Ok result }
{
    match given {
        Ok(given) => given,
        Err(_) => rt.panic("no memory"),
    }
}
