//! What a desk answers that is asked for its sheets, their labels, its blocks or its round; the outline of a script with its cast,
//! and its speeches with their scenes and sheets (docs/RULES.md, "Replies", "Outline" and "Cast sides").
#![tactic(auto)]

mod blocks;
mod entries;
mod gone;
mod heading_sheets;
mod names;
mod placed_speeches;
mod reply;
mod rounds;
mod scene_entries;
mod scenes;
mod sheet_replies;
mod speeches;

pub use blocks::{block_replies, first_text, written_number};
pub use entries::entries_of;
pub use gone::gone_labels;
pub use heading_sheets::{heading_rows, sheet_texts};
pub use names::speaker_names;
pub use placed_speeches::{said_among, speech_sheets};
pub use reply::{outline_reply, outline_text};
pub use rounds::round_name;
pub use scene_entries::{Scenes, are_locked, labels_of};
pub use sheet_replies::{sheet_label, sheet_label_text, sheet_reply};
pub use speeches::said;
