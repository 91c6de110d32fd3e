//! The rows of elements in their columns; rows, their cells and elements as values, and where a sentence ends (docs/RULES.md,
//! "Elements").
#![tactic(auto)]

mod cells;
mod columns;
mod elements;
mod joins;
mod lines;
mod order;
mod pair_speakers;
mod sentences;
mod shaping;
mod speakers;
mod values;

pub use cells::CellList;
pub use columns::width_of;
pub use elements::{dual_rows, is_title, single_rows};
pub use joins::join_rows;
pub use order::in_column_order;
pub use pair_speakers::{goes_on, has_speaker};
pub use sentences::ends_sentence;
pub use shaping::{shape_rows, title_rows};
pub use values::{Cell, Element, Row, begins_heading};
