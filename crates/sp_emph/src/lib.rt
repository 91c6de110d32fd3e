//! Emphasis: the visible parts of a line with their styles (docs/RULES.md, "Emphasis").
//!
//! A line is its cleaned text: what its kept parts have, one after the other. All places are places of bytes, from 0,
//! in the cleaned text where a call takes that, and otherwise in the line's own text.
#![tactic(auto)]

mod joins;
mod looks;
mod markers;
mod marks;
mod pairs;
mod visible;

pub use spec_script::Run;
pub use visible::runs;
