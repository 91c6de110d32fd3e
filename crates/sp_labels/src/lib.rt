//! Labels: how they are written and read, their order, and the labels between two others.
#![tactic(auto)]

mod fault;
mod insertion;
mod label;
mod reading;
mod width;
mod writing;

pub use fault::LockFault;
pub use insertion::between;
pub use label::{Label, compare};
pub use reading::parse;
pub use width::columns;
pub use writing::{label_text, write};
