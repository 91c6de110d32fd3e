//! A case that is run.
use crate::bytes::{said, written_of};
use crate::faults::Faults;
use crate::lines::{first_of, has, line_of, status_of};
use sp_kit::{Counter, Fetched, MemoryShelf, MemorySink, MemorySource, Shelf};
use std::alloc::{AllocError, Global};

/// More than any call asks for.
const MOST: usize = 1 << 30;

/// The kinds of lines that say what stands under `f`.
const SCRIPT: &[u8] = b"|(^";

/// Those that say what stands under `f.desk`.
const RECORDS: &[u8] = b"@";

/// Those that say what stands under `g`.
const OTHER: &[u8] = b"&'";

/// Those that say what the source has.
const COMMANDS: &[u8] = b">)\"";

/// What is run on cases.
pub trait Program {
    /// Runs by words over objects in memory, which are then as the run left them. Answers the number of the status, and behind a space its
    /// line, where it has one. The error is want of memory for this answer; that of the run is a status.
    fn run(
        &self,
        alloc: Global,
        words: &[String],
        input: &mut MemorySource,
        output: &mut MemorySink,
        shelf: &mut MemoryShelf,
        steps: &mut Counter,
    ) -> Result<String, AllocError>;
}

/// Stores bytes that a run may ask for.
pub fn store(shelf: &mut MemoryShelf, name: &str, bytes: &[u8]) -> Result<(), AllocError> {
    match shelf.store(name, bytes) {
        Ok(()) => Ok(()),
        Err(_) => Err(AllocError),
    }
}

/// How many files a case begins with.
fn file_count(text: &str) -> u64 {
    let mut count: u64 = 0;
    if !has(text, b"-") {
        count = count.saturating_add(1);
    }
    if has(text, RECORDS) {
        count = count.saturating_add(1);
    }
    if has(text, OTHER) {
        count = count.saturating_add(1);
    }
    count
}

/// What a call that fails is of: `i` of the source, `o` of the sink, else `s` of the shelf.
fn letter_of(rest: &str) -> u8 {
    match rest.as_bytes().first() {
        Some(b'i') => b'i',
        Some(b'o') => b'o',
        _ => b's',
    }
}

/// The calls that fail of the source, the sink or the shelf, by its letter. So many calls come before the run as `before`.
fn fails_of(alloc: Global, text: &str, letter: u8, before: u64) -> Result<Vec<u64>, AllocError> {
    let mut fails = Vec::new(alloc);
    for line in text.split('\n') {
        let it = line_of(line);
        if it.kind == b'!' && letter_of(it.rest) == letter {
            let call = it.rest.get(1..).unwrap_or("").parse().unwrap_or(0);
            fails.push(before.saturating_add(call))?;
        }
    }
    Ok(fails)
}

/// A shelf with the files of a case, whose calls fail as the case says.
pub fn shelf_of(alloc: Global, text: &str) -> Result<MemoryShelf, AllocError> {
    let fails = fails_of(alloc, text, b's', file_count(text))?;
    let mut shelf = MemoryShelf::new(alloc, fails);
    if !has(text, b"-") {
        store(&mut shelf, "f", &said(alloc, text, SCRIPT)?)?;
    }
    if has(text, RECORDS) {
        store(&mut shelf, "f.desk", &said(alloc, text, RECORDS)?)?;
    }
    if has(text, OTHER) {
        store(&mut shelf, "g", &said(alloc, text, OTHER)?)?;
    }
    Ok(shelf)
}

/// The words of a case.
fn words_of(alloc: Global, text: &str) -> Result<Vec<String>, AllocError> {
    let line = if has(text, b"$") {
        first_of(text, b'$')
    } else {
        "print"
    };
    let mut words = Vec::new(alloc);
    for word in line.split(' ') {
        words.push(String::from_str(alloc, word)?)?;
    }
    Ok(words)
}

/// How many bytes a call of the source gives, or one of the sink takes.
fn piece_of(text: &str) -> usize {
    first_of(text, b'%').parse().unwrap_or(MOST)
}

/// The source of a case: its commands, or its script where it has none.
fn source_of(alloc: Global, text: &str) -> Result<MemorySource, AllocError> {
    let kinds = if has(text, COMMANDS) {
        COMMANDS
    } else {
        SCRIPT
    };
    let bytes = said(alloc, text, kinds)?;
    let fails = fails_of(alloc, text, b'i', 0)?;
    Ok(MemorySource::new(bytes, piece_of(text).max(1), fails))
}

/// The sink of a case.
fn sink_of(alloc: Global, text: &str) -> Result<MemorySink, AllocError> {
    let fails = fails_of(alloc, text, b'o', 0)?;
    MemorySink::new(alloc, 1 << 25, piece_of(text).max(1), fails)
}

/// What a run told, wrote and counted.
pub struct Outcome {
    pub told: String,
    pub written: Vec<u8>,
    pub counts: String,
}

/// One call wherever it is dropped, so that no proof there follows each of its fields.
impl Drop for Outcome {
    fn drop(self) {
        let Outcome {
            told: _told,
            written: _written,
            counts: _counts,
        } = self;
    }
}

/// What came of a run that told this.
fn outcome_of(
    alloc: Global,
    told: String,
    output: &MemorySink,
    steps: &Counter,
) -> Result<Outcome, AllocError> {
    let counts = format!(in alloc; "{} {}", steps.reads(), steps.fills())?;
    let written = output.taken().to_vec(alloc)?;
    Ok(Outcome {
        told,
        written,
        counts,
    })
}

/// Runs the program on a case, over a shelf that stands already.
pub fn ran_over<P: Program>(
    program: &P,
    alloc: Global,
    text: &str,
    shelf: &mut MemoryShelf,
) -> Result<Outcome, AllocError> {
    let words = words_of(alloc, text)?;
    let mut input = source_of(alloc, text)?;
    let mut output = sink_of(alloc, text)?;
    let mut steps = Counter::new();
    let told = program.run(alloc, &words, &mut input, &mut output, shelf, &mut steps)?;
    outcome_of(alloc, told, &output, &steps)
}

/// Runs the program on a case.
pub fn ran<P: Program>(program: &P, alloc: Global, text: &str) -> Result<Outcome, AllocError> {
    let mut shelf = shelf_of(alloc, text)?;
    ran_over(program, alloc, text, &mut shelf)
}

/// What a run writes over a shelf that stands already.
pub fn written<P: Program>(
    program: &P,
    alloc: Global,
    text: &str,
    shelf: &mut MemoryShelf,
) -> Result<Vec<u8>, AllocError> {
    ran_over(program, alloc, text, shelf)?.written.to_vec(alloc)
}

/// What the shelf has under a name; nothing where it has none.
pub fn kept(alloc: Global, shelf: &mut MemoryShelf, name: &str) -> Result<Vec<u8>, AllocError> {
    match shelf.fetch(name, MOST) {
        Ok(Fetched::Bytes(bytes)) => Ok(bytes),
        _ => Ok(Vec::new(alloc)),
    }
}

/// Compares what the shelf has under a name with what the lines of a kind say, where there are any.
fn compare_kept(
    alloc: Global,
    text: &str,
    kinds: &[u8],
    shelf: &mut MemoryShelf,
    name: &str,
    faults: &mut Faults,
) -> Result<(), AllocError> {
    if has(text, kinds) {
        let bytes = said(alloc, text, kinds)?;
        faults.compare(name, &kept(alloc, shelf, name)?, &bytes)?;
    }
    Ok(())
}

/// Compares what a run told, counted and wrote with what it has to.
fn compare_outcome(
    alloc: Global,
    text: &str,
    it: &Outcome,
    faults: &mut Faults,
) -> Result<(), AllocError> {
    let status = status_of(alloc, first_of(text, b'?'))?;
    if !it.told.starts_with(status.as_str()) {
        faults.tell("told", it.told.as_bytes(), status.as_bytes())?;
    }
    if has(text, b";") {
        faults.compare(
            "counted",
            it.counts.as_bytes(),
            first_of(text, b';').as_bytes(),
        )?;
    }
    faults.compare("wrote", &it.written, &written_of(alloc, text)?)
}

/// Runs the program on a case, and compares what comes of it with what has to.
pub fn compare_run<P: Program>(
    program: &P,
    alloc: Global,
    text: &str,
    faults: &mut Faults,
) -> Result<(), AllocError> {
    let mut shelf = shelf_of(alloc, text)?;
    let it = ran_over(program, alloc, text, &mut shelf)?;
    compare_outcome(alloc, text, &it, faults)?;
    compare_kept(alloc, text, b"=", &mut shelf, "f", faults)?;
    compare_kept(alloc, text, b"~", &mut shelf, "f.desk", faults)
}
