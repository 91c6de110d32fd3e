//! A case as text: what a program is run on, and what has to come of it; and what is told where something else comes of it.
#![tactic(auto)]

mod bytes;
mod compare;
mod faults;
mod lines;
mod packets;
mod ran;
mod turns;

pub use compare::faults_of;
pub use faults::shown;
pub use ran::Program;
