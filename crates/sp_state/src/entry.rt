//! The entry of an edit.
use sp_layout::LayoutChange;
use sp_reflow::SwappedPages;
use sp_text_entry::TextEntry;
use std::marker::Model;

/// What an edit displaced, or what was displaced when that was put back: of the text and of the page records, of the layout, and
/// first rows of pages. `Script::turn` puts it back, and answers the one that leads back.
#[derive(Drop)]
pub struct Entry {
    pub(crate) text: TextEntry,
    pub(crate) layout: LayoutChange,
    pub(crate) pages: SwappedPages,
}

impl Model for Entry {
    ghost use Rattle.sp_state.specs.Entries.{EntryState};

    ghost Value = { EntryState };

    ghost view = { λ e. record { text = e.text; layout = e.layout; pages = e.pages } };
}

/// There was no memory; what was to be put back is handed back.
#[derive(Drop)]
pub struct Unturned {
    pub back: Entry,
}
