//! The collation of printed sheets: two files of them are read back, and sheets of the one go into the other by their labels; and the
//! revision packet of a script: the facts of its sheets, and the places of those that have to be handed out anew in its round
//! (docs/RULES.md, "Collation" and "Packets").
#![tactic(auto)]

mod collation;
mod cue;
mod facts;
mod fault;
mod fresh;
mod handing;
mod header;
mod sheets;

pub use collation::collate;
pub use cue::Places;
pub use facts::{SheetFacts, sheet_facts};
pub use fault::CollateFault;
pub use handing::{PacketFault, packet};
