//! The streams and the files of the system as a source, as sinks and as a shelf.
#![tactic(auto)]

mod files;
mod known;
mod streams;

pub use files::FileShelf;
pub use streams::{Input, Output};
