//! Rows of a text before and after a change of its lines: whether they are the same to an edit, and the page records whose rows
//! it changed (docs/RULES.md, "Edits and records").
#![tactic(auto)]

mod both;
mod cells;
mod old_rows;
mod raising;
mod shapes;

pub use both::BothTexts;
pub use old_rows::{OtherRows, RunPlaces};
pub use raising::raises;
