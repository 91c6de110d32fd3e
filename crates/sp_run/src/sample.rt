//! The large sample (docs/RULES.md, "The program" and "The sample").
ghost use Rattle.std.specs.Prelude.{◌≤◌};
ghost use Rattle.spec_session.specs.Runs.{counts_of};
ghost use Rattle.sp_run.specs.Forms.{most_rooms};
ghost use Rattle.sp_run.specs.Ending.{SampleEndsAs};

use crate::{Status, run_sample};
use sp_kit::{Sink, Steps, write_whole};
use std::alloc::Global;

/// Writes the line that tells of the sample of so many rooms, which is made whole first.
pub fn write_sample<O: Sink, S: Steps>(
    alloc: Global,
    rooms: u32,
    output: &mut O,
    steps: &mut S,
) -> Result<(), Status>
    requires { rooms ≤ most_rooms }
    ensures { SampleEndsAs rooms (O.state output.old) (O.state output.new)
        (counts_of (S.reads steps.old) (S.fills steps.old)) (counts_of (S.reads steps.new) (S.fills steps.new)) result }
{
    let line = run_sample(alloc, rooms, steps)?;
    write_whole(output, line.as_slice())?;
    Ok(())
}
