//! What the lines of a script are: boneyards and notes, sorts, blocks, emphasis. Definitions and laws about them,
//! no program. The kinds that definitions and code both speak of are declared here.
#![tactic(auto)]

/// What a line is before notes are looked for (docs/RULES.md, "Sorts of lines").
#[derive(Clone, Copy, PartialEq, Eq, Drop)]
pub enum Sort {
    Empty,
    Held,
    Absent,
    Plain,
}

/// What a block is (docs/RULES.md, "Blocks").
#[derive(Clone, Copy, PartialEq, Eq, Drop)]
pub enum Kind {
    Heading,
    Action,
    Speech,
    Lyric,
    Transition,
    Centred,
    PageBreak,
    Section,
    Synopsis,
    Title,
}

/// What a line of a block is (docs/RULES.md, "Blocks").
#[derive(Clone, Copy, PartialEq, Eq, Drop)]
pub enum Part {
    Text,
    Cue,
    Parenthetical,
    Dialogue,
    Sung,
    Held,
    TitleCentred,
    TitleLeft,
}

/// A visible part of a line, by places of bytes, with its style: the sum of 1 for italic, 2 for bold and 4 for underlined.
#[derive(Clone, Copy, PartialEq, Eq, Drop)]
pub struct Run {
    pub from: u32,
    pub to: u32,
    pub style: u8,
}

/// A layer of emphasis: italic by `*`, bold by `**`, both by `***`, underlined by `_` (docs/RULES.md, "Emphasis").
#[derive(Clone, Copy, PartialEq, Eq, Drop)]
pub enum Layer {
    Italic,
    Bold,
    BoldItalic,
    Underline,
}

/// Two markers of one layer that belong together, by the places of their first bytes in a line's cleaned text.
#[derive(Clone, Copy, PartialEq, Eq, Drop)]
pub struct Pair {
    pub first: u32,
    pub second: u32,
}

/// A part of a line's cleaned text, by places of bytes in that text: its first byte, and the byte after its last.
#[derive(Clone, Copy, PartialEq, Eq, Drop)]
pub struct Cut {
    pub from: usize,
    pub to: usize,
}

/// What a line of a title page is, with the place of its value's first byte, or of the text's end where it has no
/// value (docs/RULES.md, "Title page").
#[derive(Clone, Copy, PartialEq, Eq, Drop)]
pub enum TitleLine {
    Opens { from: u32, centred: bool },
    Value { from: u32 },
    Nothing,
}
