//! Runs of lists exchanged for other items, in place, with room that is made before; lists round a gap, for runs that are exchanged
//! near one another; and places that move with runs.
#![tactic(auto)]

mod gap_list;
mod gap_places;
mod places;
mod runs;

pub use gap_list::GapList;
pub use gap_places::GapPlaces;
pub use places::exchange_places;
pub use runs::{exchange, make_room, pour, reserve_more, trade};
