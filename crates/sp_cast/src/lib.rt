//! The sides of a cast (docs/RULES.md, "Cast sides").
#![tactic(auto)]

mod groups;
mod keys;
mod speech;
mod writing;

pub use speech::Said;
pub use writing::sides;
