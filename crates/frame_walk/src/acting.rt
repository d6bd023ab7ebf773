//! A function's whole work on one packet, whether it steps or counts.
ghost use Rattle.std.specs.Prelude.{◌≡◌, true, IfOk, OnOk, OnErr, IsSome};
ghost use Rattle.packet_fields.specs.declared.field.Field.{Field};
ghost use Rattle.packet_version.specs.Views.{seen_parts, viewed, wrote_all, HasTagRoom};

use packet_function::Function;
use packet_version::{Verdict, View, unwritten_stays};
use std::alloc::AllocError;

/// Acts on one packet, which the function sees through a view of its own profile: it steps, or if it counts it notes
/// the packet and settles the note at once, since every function before it let the packet pass. A function that may add
/// a tag has room for it.
pub fn act<F: Function>(function: &mut F, view: &mut View) -> Result<Verdict, AllocError>
    requires profile { view.old.profile ≡ F.behaviour.profile function.old }
    requires room { (F.behaviour.profile function.old).adds ≡ true → IsSome (seen_parts view.old Field.Tag) → HasTagRoom view.old }
    ensures after { OnOk result (function.new ≡ (viewed F.behaviour function.old view.old).after) }
    ensures verdict { IfOk result (λ verdict. verdict ≡ (viewed F.behaviour function.old view.old).verdict) }
    ensures view { OnOk result (view.new ≡ wrote_all (viewed F.behaviour function.old view.old).written view.old) }
    // If memory runs out, nothing has changed.
    ensures function_stays { OnErr result (function.new ≡ function.old) }
    ensures view_stays { OnErr result (view.new ≡ view.old) }
{
    if !function.profile().counts {
        return function.step(view);
    }
    // Nothing is written, so the view is as it was.
    unwritten_stays(view);
    if let Some(note) = function.look(view) {
        function.settle(&note)?;
    }
    Ok(Verdict::Pass)
}
