//! What is made of a state: its text laid out, the labels of its headings, the stops of its pages, the first rows of its page
//! records, its pages and its sheets; the state lent with these; and what locks and rounds make of it. Scene records are locked and
//! extended by `sp_scenes`, page records by `sp_locks`; here stands what a lock or a round does with both, and what refuses it.
#![tactic(auto)]

mod compared_headings;
mod firsts;
mod heading_labels;
mod heading_rows;
mod headings;
mod laid;
mod locked;
mod locking;
mod made;
mod numbered;
mod parts;
mod stops;
mod title_rows;
mod view;
mod views;

pub use compared_headings::same_headings;
pub use firsts::laid_firsts;
pub use heading_labels::labels_past;
pub use heading_rows::keeps_headings;
pub use headings::{heading_lines, headings_among};
pub use laid::LaidState;
pub use locked::renew_locked;
pub use locking::{lock_pages_made, lock_scenes_made, next_round_made};
pub use made::{Keeps, laid_stops, lay, made_starts, make, make_pages, number, renumber, rows_on};
pub use numbered::{Stale, greatest, page_behind, renew_sheets, stale_places};
pub use parts::{Made, Numbered};
pub use stops::{firsts_stay, merged_stops};
pub use title_rows::leaves_titles;
pub use view::StateView;
pub use views::{made_sheet, made_title, sheet_count, title_count};
