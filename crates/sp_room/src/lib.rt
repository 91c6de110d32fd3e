//! A room: one desk with several seats (docs/RULES.md, "The room"). Each edit is taken where the lines that its seat saw stand now,
//! after what the edits since have changed.
#![tactic(auto)]

mod ask;
mod change;
mod owner;
mod place;
mod room;

pub use change::{Change, change_at, edit_change, is_forgetting, moved_to, turned};
pub use place::{present_place, remember};
pub use room::Room;
