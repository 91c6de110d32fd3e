//! A desk: a script with the journal of its edits. It answers commands as the machine of whole states does.
#![tactic(auto)]

mod desk;
mod fault;
mod replies;

pub use desk::Desk;
pub use fault::DeskFault;
