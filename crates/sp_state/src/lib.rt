//! A script: a state with what is made of it, its layout, its pages and its sheets; and the entries of edits, by which they
//! are undone and redone.
#![tactic(auto)]

mod editing;
mod entry;
mod script;
mod turning;

pub use entry::{Entry, Unturned};
pub use script::Script;
