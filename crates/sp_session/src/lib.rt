//! Sessions: command lines cut from a source, each answered and its reply written before the next is read.
#![tactic(auto)]

mod answering;
mod buffer;
mod lines;
mod responder;

pub use answering::session;
pub use lines::{CommandLines, LineStop, NextLine};
pub use responder::Responder;
pub use spec_session::SessionEnd;
