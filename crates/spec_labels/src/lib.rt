//! What labels, scene numbers and page records are. Definitions and laws about them, no program. The kinds that
//! definitions and code both speak of are declared here.
#![tactic(auto)]

/// The key of a row: its line's id, and its number among the rows of that line (docs/RULES.md, "Page records").
#[derive(Clone, Copy, PartialEq, Eq, Drop)]
pub struct RowKey {
    pub line: u64,
    pub row: u32,
}

/// What a page record had or is to have: the record's index, an anchor, and a round (docs/RULES.md, "Page records").
#[derive(Clone, Copy, PartialEq, Eq, Drop)]
pub struct Moved {
    pub index: u64,
    pub line: u64,
    pub row: u32,
    pub changed: u8,
}
