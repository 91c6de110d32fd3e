//! The runs of a row.
ghost use Rattle.std.specs.Prelude.{◌≡◌};
ghost use Rattle.sp_measure.specs.RowRuns.{row_runs};

use spec_script::Run;
use std::slice;

/// The runs of a row, in order, by places of bytes in its line. Most rows have one, which takes no memory of its own.
#[derive(Drop)]
pub enum RowRuns {
    Nothing,
    One(Run),
    Many(Vec<Run>),
}

impl RowRuns {
    /// The runs. Takes no memory.
    pub fn as_slice(&self) -> &[Run]
        ensures { result.now ≡ row_runs self.now }
    {
        match self {
            RowRuns::Nothing => &[],
            RowRuns::One(run) => slice::from_ref(run),
            RowRuns::Many(runs) => runs.as_slice(),
        }
    }
}
