//! What was done and what was undone (docs/RULES.md, "Journal").
#![tactic(auto)]

mod journal;

pub use journal::Journal;
