//! What rows and pages are: clusters and columns, wrapping, leads, page ends. Definitions and laws about them,
//! no program. The kinds that definitions and code both speak of are declared here.
#![tactic(auto)]

/// What a row is to the rules of page ends (docs/RULES.md, "Pages").
#[derive(Clone, Copy, PartialEq, Eq, Drop)]
pub enum RowKind {
    Heading,
    Action,
    Cue,
    Parenthetical,
    Dialogue,
    Sung,
    Dual,
    Lyric,
    Transition,
    Centred,
}

/// A row as page ends see it: the empty rows before it, its kind, whether its text ends a sentence, and how many rows of its
/// element stand before it and after it. The small fields stand together, since fields lie in this order.
#[derive(Clone, Copy, PartialEq, Eq, Drop)]
pub struct Shape {
    pub lead: u8,
    pub kind: RowKind,
    pub sentence_end: bool,
    pub index: u32,
    pub rest: u32,
}

/// A cluster of a line (docs/RULES.md, "Columns"): its place by bytes, its columns, its style, and whether it is a space.
/// A line has at most 4,096 bytes, so 16 bits are enough for places and columns.
#[derive(Clone, Copy, PartialEq, Eq, Drop)]
pub struct Cluster {
    pub from: u16,
    pub to: u16,
    pub width: u16,
    pub style: u8,
    pub space: bool,
}

/// Where a row ends among the clusters that are left (docs/RULES.md, "Wrapping").
#[derive(Clone, Copy, PartialEq, Eq, Drop)]
pub enum Cut {
    /// After all of them.
    Rest,
    /// Before the space at this place.
    AtSpace(usize),
    /// Before this place, where there is no such space.
    Inside(usize),
}

/// Where an element's row stands: by itself, or in a half of dual dialogue (docs/RULES.md, "Elements").
#[derive(Clone, Copy, PartialEq, Eq, Drop)]
pub enum Side {
    Alone,
    Left,
    Right,
}

/// The paper that pages are printed on (docs/RULES.md, "Pages").
#[derive(Clone, Copy, PartialEq, Eq, Drop)]
pub enum Paper {
    Letter,
    A4,
}

/// The column of a scene number before its heading (docs/RULES.md, "Elements").
pub const NUMBER_BEFORE: u32 = 7;

/// The column of a scene number behind its heading (docs/RULES.md, "Elements").
pub const NUMBER_BEHIND: u32 = 76;
