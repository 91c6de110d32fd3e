//! What an edit displaces of a text, of its layout and of its page records, and how that is put back.
#![tactic(auto)]

mod carrying;
mod relaying;
mod text_entry;

pub use relaying::change_in_room;
pub use text_entry::{EditedText, TextEntry, UnturnedText, edit_entry, turn_entry};
