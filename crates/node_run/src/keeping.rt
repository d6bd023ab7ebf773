//! Keeps together what nodes and crews returned.
ghost use Rattle.std.specs.Prelude.{◌≡◌, ◌++◌, false, OnOk};
ghost use Rattle.packet_fields.specs.declared.field.Field.{Field};
ghost use Rattle.packet_version.specs.Tallies.{count_of, raised};
ghost use Rattle.node_run.specs.Crews.{KeepsMore};

use crate::crew::CrewDone;
use crate::node::Done;
use packet_version::Tally;
use std::alloc::AllocError;

/// Keeps what a node returned. Fails if memory ran out.
pub(crate) fn keep<F: Drop>(
    functions: &mut Vec<F>,
    tally: &mut Tally,
    done: Done<F>,
) -> Result<(), AllocError>
    ensures { OnOk result (KeepsMore done functions.old.items functions.new.items tally.old tally.new) }
{
    if done.short {
        return Err(AllocError);
    }
    tally.add(&done.tally);
    if let Some(function) = done.function {
        functions.push(function)?;
    }
    Ok(())
}

/// Keeps what a crew returned. Fails if memory ran out.
pub(crate) fn keep_crew<F: Drop>(
    functions: &mut Vec<F>,
    tally: &mut Tally,
    done: CrewDone<F>,
) -> Result<(), AllocError>
    ensures short { OnOk result (done.short ≡ false) }
    ensures functions { OnOk result (functions.new.items ≡ functions.old.items ++ done.functions.items) }
    ensures counted { OnOk result ((f : Field) → count_of tally.new f ≡ raised (count_of tally.old f) (count_of done.tally f)) }
{
    if done.short {
        return Err(AllocError);
    }
    tally.add(&done.tally);
    let mut own = done.functions;
    functions.append(&mut own)?;
    Ok(())
}
