//! A text laid out: its elements in rows, one behind the other, with what is asked of their rows, and which speakers go on; and kept
//! through its edits, by which only what an edit changes is laid out anew (docs/RULES.md, "Elements", "Pages" and "Windows").
#![tactic(auto)]

mod body;
mod edges;
mod edited;
mod kept;
mod layout;
mod moves;
mod page;
mod relaying;
mod row_facts;
mod runs;
mod search;
mod speakers;
mod speeches;

pub use body::{Body, is_heading_element};
pub use edited::relay_edit;
pub use kept::{
    KeptLayout, LayoutChange, LayoutPart, PartPlaces, SpeechRows, UnchangedLayout, UnswappedLayout,
};
pub use layout::{Layout, lay_out_behind, lay_out_text};
pub use page::Page;
pub use relaying::relay;
pub use search::{count_below, elements_before};
pub use sp_columns::{Cell, Element, Row, begins_heading};
pub use speakers::{Speakers, speaker_name};
pub use spec_pages::{RowKind, Shape};
