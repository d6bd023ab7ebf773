//! Makes a monitor. No line sets it up.

use crate::monitor::Monitor;
use first_sight::FirstSeen;
use function_lines::{FunctionLine, read_lines};
use policy_text::{BuildFault, FunctionDecl, Word};
use std::alloc::{AllocError, Global};

/// A line of a monitor. There are no such lines.
#[derive(Drop)]
pub enum MonitorLine {}

impl FunctionLine for MonitorLine {
    ghost use Rattle.nf_observe.specs.Monitors.{monitor_lines};

    ghost kind_lines = { monitor_lines };

    fn read(_alloc: Global, _words: &[Word]) -> Result<Option<MonitorLine>, AllocError> {
        Ok(None)
    }

    // A monitor has no required line.
    fn lacks_one(_lines: &[MonitorLine]) -> bool {
        false
    }

    // Each line can be beside any others.
    fn clashes(_lines: &[MonitorLine], _line: &Option<MonitorLine>) -> bool {
        false
    }
}

impl Monitor {
    ghost use Rattle.std.specs.Prelude.{◌≡◌};
    ghost use Rattle.action_profile.specs.declared.kind.Kind.{Kind};
    ghost use Rattle.function_lines.specs.Builds.{Builds};
    ghost use Rattle.nf_observe.specs.Monitors.{monitor_lines, monitor_by};

    /// Makes the monitor that is declared, which has seen no flow, or returns the least line of the declaration. Each
    /// line is refused.
    pub fn build(alloc: Global, decl: &FunctionDecl) -> Result<Monitor, BuildFault>
        requires { decl.now.kind ≡ Kind.Monitor }
        ensures { Builds monitor_lines monitor_by decl.now result }
    {
        read_lines::<MonitorLine>(alloc, decl)?;
        Ok(Monitor {
            flows: FirstSeen::new(alloc),
        })
    }
}
