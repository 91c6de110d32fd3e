//! The lines of a case.
//!
//! A case says what the program is run on, and what has to come of it, in lines of text. What a line is its first character says:
//!
//! - `$` words, between spaces; without it the words are `print`;
//! - `|` a line of the script, which stands under `f`, and is what the source has where no line says that; `-` where nothing stands
//!   under `f`;
//! - `(` a line of the script, `)` one of the source, of a text so many times, as `3*a`;
//! - `^` bytes of the script, `"` of the source, `'` of the file under `g`, without an end of a line; each character is the byte of its
//!   number;
//! - `@` a line of the file under `f.desk`; `&` one of the file under `g`;
//! - `>` a line of the source;
//! - `!` a call that fails, from 0: of the source, as `i0`, of the sink, as `o0`, of the shelf, as `s0`;
//! - `%` how many bytes the source gives and the sink takes in a call, where that isn't all;
//! - `<` a line that is written; `+` bytes that are, without an end of a line;
//! - `#` the label of a sheet that is written, none for a title sheet; `:` a row of it;
//! - `?` the number of the status, and its line, where it isn't 0;
//! - `;` how many stanzas were read and how many pages filled, where that is asked for;
//! - `=` a line of what stands under `f` at the end, `~` one of what stands under `f.desk`, where that is asked for;
//! - `*` calls that fail in turn, as `*o 6 20`: of the source, the sink or the shelf, each with this status, and so many at least;
//! - `/` the number of a status and its line, which tell of the script that is left beside its record file, cut anywhere but at the
//!   last line feed;
//! - `.` a command that is done over the files that are left, before a save and `packet`: `<` are then the last lines of that
//!   session, and the packet has to bring the sheets up to date; status, counts and files are not compared.
//!
//! Any other line is a remark. Of the lines of `$`, `%`, `?`, `;`, `/` and `.` the first holds. A number with `*` before a line stands for
//! so many of it, from 1. In what is written `[n]` stands for n spaces, but `[0]` for itself. In any line `\u{n}` stands for the character
//! of the hexadecimal number n.
use std::alloc::{AllocError, Global};

/// A line of a case: how often it stands there, its kind, and what stands behind that.
#[derive(Clone, Copy)]
pub struct CaseLine<'a> {
    pub count: usize,
    pub kind: u8,
    pub rest: &'a str,
}

/// How often a line stands there, and the line.
pub fn repeated(line: &str) -> (usize, &str) {
    match line.split_once('*') {
        Some((count, rest)) => match count.parse() {
            Ok(count) => (count, rest),
            Err(_) => (1, line),
        },
        None => (1, line),
    }
}

/// A line of a text; an empty one has no kind.
pub fn line_of(line: &str) -> CaseLine<'_> {
    let (count, line) = repeated(line);
    let kind = line.as_bytes().first().copied().unwrap_or(0);
    let rest = line.get(1..).unwrap_or("");
    CaseLine { count, kind, rest }
}

/// What the first line of a kind says; nothing where there is none.
pub fn first_of(text: &str, kind: u8) -> &str {
    for line in text.split('\n') {
        let it = line_of(line);
        if it.kind == kind {
            return it.rest;
        }
    }
    ""
}

/// Whether a text has a line of one of some kinds.
pub fn has(text: &str, kinds: &[u8]) -> bool {
    for line in text.split('\n') {
        if kinds.contains(&line_of(line).kind) {
            return true;
        }
    }
    false
}

/// The character of the number before the first brace, and what stands behind that.
fn escaped(text: &str) -> Option<(char, &str)> {
    let (digits, rest) = text.split_once('}')?;
    let number = u32::from_str_radix(digits, 16).ok()?;
    Some((char::from_u32(number)?, rest))
}

/// The text with the characters that stand in it by their numbers.
pub fn plain(alloc: Global, text: &str) -> Result<String, AllocError> {
    let mut pieces = text.split("\\u{");
    let mut plain = String::from_str(alloc, pieces.next().unwrap_or(""))?;
    for piece in pieces {
        match escaped(piece) {
            Some((char, rest)) => {
                plain.push(char)?;
                plain.push_str(rest)?;
            }
            None => {
                plain.push_str("\\u{")?;
                plain.push_str(piece)?;
            }
        }
    }
    Ok(plain)
}

/// A status as it is told: with a line it has an end, and where none is said it is 0.
pub fn status_of(alloc: Global, said: &str) -> Result<String, AllocError> {
    let status = if said.is_empty() { "0" } else { said };
    let end = if said.contains(' ') { "\n" } else { "" };
    format!(in alloc; "{status}{end}")
}
