//! The columns of a text, and the rows that a line is wrapped into (docs/RULES.md, "Columns" and "Wrapping").
#![tactic(auto)]

mod clusters;
mod cuts;
mod list;
mod parts;
mod row_runs;
mod rows;
mod shown;

pub use clusters::columns;
pub use row_runs::RowRuns;
pub use rows::{WrapRow, wrap};
pub use spec_script::Run;
