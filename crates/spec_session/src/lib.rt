//! What a session is: the command lines of an input, what answers them in order, and how it may end. Definitions and laws
//! about them, no program. The kind that definitions and code both speak of is declared here.
#![tactic(auto)]

/// How a session ended (docs/RULES.md, "Sessions").
#[derive(Clone, Copy, PartialEq, Eq, Drop)]
pub enum SessionEnd {
    /// The source was read to its end, and the replies to all its lines were written.
    Done,
    /// The source failed. The replies to all whole lines that were read were written.
    ReadFault,
    /// The sink failed. It took the whole replies to the lines before the last one answered, and a part of that one's, and
    /// not all of it.
    WriteFault,
    /// There is no memory. The whole replies to the first lines were written.
    NoMemory,
    /// The line with this number, from 0, is the first that is too long. The replies to the lines before it were written.
    CommandLong(u64),
    /// A byte came behind the last line that a session may have. The replies to all lines before it were written.
    InputFull,
}
