//! The lines of a text with its stanzas, one value: an edit reads the stanzas of its window anew, and what it displaced is put
//! back without reading.
#![tactic(auto)]

mod text;

pub use text::{Text, UnrestoredText};
