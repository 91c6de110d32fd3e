//! Cases that are run again and again: with each call failing in turn, and over record files that are cut.
use crate::bytes::written_of;
use crate::faults::Faults;
use crate::lines::{first_of, has, line_of, status_of};
use crate::ran::{Outcome, Program, kept, ran, ran_over, shelf_of, store, written};
use sp_kit::MemoryShelf;
use std::alloc::{AllocError, Global};

/// Compares what a run told and wrote in which a call failed: it has to end with the status, and to write what begins what the case
/// says.
fn compare_broken_off(
    it: &Outcome,
    status: &str,
    whole: &[u8],
    faults: &mut Faults,
) -> Result<(), AllocError> {
    if !it.told.starts_with(status) {
        faults.tell("told", it.told.as_bytes(), status.as_bytes())?;
    }
    if !whole.starts_with(&it.written) {
        faults.tell("wrote", &it.written, whole)?;
    }
    Ok(())
}

/// Runs a case with each call of a kind failing in turn, until it comes out as if none had. Each run before has to end with the
/// status, and to write what begins what the case says. Answers how many there were.
fn fail_in_turn<P: Program>(
    program: &P,
    alloc: Global,
    text: &str,
    kind: &str,
    status: &str,
    faults: &mut Faults,
) -> Result<u64, AllocError> {
    let whole = written_of(alloc, text)?;
    let ended = status_of(alloc, first_of(text, b'?'))?;
    for call in 0..1000 {
        let failing = format!(in alloc; "{text}\n!{kind}{call}")?;
        let it = ran(program, alloc, failing.as_str())?;
        if it.told == ended {
            faults.compare("wrote", &it.written, &whole)?;
            return Ok(call);
        }
        compare_broken_off(&it, status, &whole, faults)?;
    }
    Ok(1000)
}

/// Tells that fewer calls failed than there have to be.
fn tell_few(alloc: Global, calls: u64, least: &str, faults: &mut Faults) -> Result<(), AllocError> {
    let calls = format!(in alloc; "{calls}")?;
    faults.tell("calls that fail", calls.as_bytes(), least.as_bytes())
}

/// Lets calls of a case fail in turn, where it says so.
pub fn compare_turns<P: Program>(
    program: &P,
    alloc: Global,
    text: &str,
    faults: &mut Faults,
) -> Result<(), AllocError> {
    for line in text.split('\n') {
        let it = line_of(line);
        if it.kind != b'*' {
            continue;
        }
        let (kind, rest) = it.rest.split_once(' ').unwrap_or((it.rest, ""));
        let (status, least) = rest.split_once(' ').unwrap_or((rest, ""));
        let calls = fail_in_turn(program, alloc, text, kind, status, faults)?;
        if calls < least.parse().unwrap_or(u64::MAX) {
            tell_few(alloc, calls, least, faults)?;
        }
    }
    Ok(())
}

/// Prints the script of a shelf beside a record file, and compares what comes of it.
fn compare_print<P: Program>(
    program: &P,
    alloc: Global,
    shelf: &mut MemoryShelf,
    records: &[u8],
    told: &str,
    written: &[u8],
    faults: &mut Faults,
) -> Result<(), AllocError> {
    store(shelf, "f.desk", records)?;
    let it = ran_over(program, alloc, "$print f", shelf)?;
    faults.compare("told", it.told.as_bytes(), told.as_bytes())?;
    faults.compare("wrote", &it.written, written)
}

/// Prints the script of a shelf beside each shorter record file than its own. Without the end of its line the file says what the
/// whole one does.
fn compare_shorter<P: Program>(
    program: &P,
    alloc: Global,
    shelf: &mut MemoryShelf,
    told: &str,
    faults: &mut Faults,
) -> Result<(), AllocError> {
    let records = kept(alloc, shelf, "f.desk")?;
    if records.is_empty() {
        faults.tell("f.desk", b"", b"a record file")?;
    }
    let whole = written(program, alloc, "$print f", shelf)?;
    let end = records.len().saturating_sub(1);
    for place in 1..end {
        compare_print(program, alloc, shelf, &records[..place], told, b"", faults)?;
    }
    compare_print(program, alloc, shelf, &records[..end], "0", &whole, faults)?;
    compare_print(program, alloc, shelf, &records, "0", &whole, faults)
}

/// Compares what is told over each shorter record file than the one that a case leaves, where it says so.
pub fn compare_cuts<P: Program>(
    program: &P,
    alloc: Global,
    text: &str,
    faults: &mut Faults,
) -> Result<(), AllocError> {
    if !has(text, b"/") {
        return Ok(());
    }
    let mut shelf = shelf_of(alloc, text)?;
    ran_over(program, alloc, text, &mut shelf)?;
    let told = status_of(alloc, first_of(text, b'/'))?;
    compare_shorter(program, alloc, &mut shelf, told.as_str(), faults)
}
