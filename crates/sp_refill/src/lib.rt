//! The rows that an edit exchanges, found by the stanzas and the elements round its window (docs/RULES.md, "Windows").
#![tactic(auto)]

mod blocks;
mod elements;
mod finder;

pub use finder::{RowsAhead, exchanged_rows, rows_ahead};
pub use sp_reflow::ExchangedRows;
