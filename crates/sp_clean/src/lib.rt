//! What is left of a script's lines without their boneyards and notes, with their sorts; their forms, whether a line opens a speech,
//! tests of letters and spaces, and parts of a line (docs/RULES.md, "Boneyards", "Sorts of lines", "Notes", "Letter tests", "Blocks"
//! and "Places and parts"). Each line is read by itself, with one bit that the lines before it leave.
//!
//! All places are places of bytes in the line, from 0. A line has at most 4,096 bytes. Parts that a call takes lie in the line, begin
//! and end between characters, and stand in order; those that a call gives do so too. The kept text of a line is what its kept parts
//! have, one after the other.
#![tactic(auto)]

mod boneyards;
mod forms;
pub mod letters;
mod notes;
pub mod parts;
pub mod spaces;
mod speeches;
mod trimmed_forms;

pub use boneyards::{LineScan, scan};
pub use forms::{is_cue, is_forced_heading, is_heading, is_transition};
pub use notes::{NoteScan, note_scan};
pub use spec_script::Sort;
pub use spec_text::Span;
pub use speeches::opens_speech;
pub use trimmed_forms::{
    goes_on, is_centred, is_forced_cue, is_page_break, is_parenthetical, is_section, is_synopsis,
    listed_kind, section_depth,
};
