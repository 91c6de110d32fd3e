//! Where pages end (docs/RULES.md, "Pages").
#![tactic(auto)]

mod ends;
mod rows;
mod titles;

pub use ends::fill;
pub use rows::{continues_speech, goes_on, height, is_speech, legal};
pub use spec_pages::{Paper, RowKind, Shape};
pub use titles::title_starts;
