//! Sheets as HTML (docs/RULES.md, "HTML pages").
#![tactic(auto)]

mod escape;
mod marked_text;
mod marks;
mod sheet;

pub use sheet::write_html;
