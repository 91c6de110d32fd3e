//! The outside of the program: where bytes come from and go to, files by name, how failures and steps are counted, and
//! objects in memory that stand for the real ones.
#![tactic(auto)]

mod call;
mod growing_sink;
mod memory_shelf;
mod memory_sink;
mod memory_source;
mod outside;
mod shelf;
mod steps;

pub use call::Call;
pub use growing_sink::GrowingSink;
pub use memory_shelf::MemoryShelf;
pub use memory_sink::MemorySink;
pub use memory_source::MemorySource;
pub use outside::{Failed, Sink, Source, write_whole};
pub use shelf::{Fetched, Shelf, ShelfFault};
pub use steps::{Counter, Steps};
