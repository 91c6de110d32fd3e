//! The program run on cases that stand in files: what it is run on, and what has to come of it. The words name the files, as
//! `labels` for `labels.txt`. Of each file it tells how many cases came out as they say; where one did not it tells what came of
//! that one, and ends with status 1.
#![tactic(auto)]

use sp_case::{Program, faults_of, shown};
use sp_kit::{Counter, MemoryShelf, MemorySink, MemorySource};
use sp_run::{Status, fault_line, run};
use std::alloc::{AllocError, Global};
use std::process::ExitCode;
use std::rt::{Env, Files};
use std::{env, fs, io};

/// The program.
struct Fountain;

/// The number of a status and its line.
fn told(alloc: Global, status: &Status) -> Result<String, AllocError> {
    let mut sink = MemorySink::new(alloc, 4096, 4096, Vec::new(alloc))?;
    if fault_line(status, &mut sink).is_err() {
        return String::from_str(alloc, "its line fails");
    }
    let line = shown(alloc, sink.taken())?;
    let code = status.code();
    if line.is_empty() {
        return format!(in alloc; "{code}");
    }
    format!(in alloc; "{code} {line}")
}

impl Program for Fountain {
    fn run(
        &self,
        alloc: Global,
        words: &[String],
        input: &mut MemorySource,
        output: &mut MemorySink,
        shelf: &mut MemoryShelf,
        steps: &mut Counter,
    ) -> Result<String, AllocError> {
        told(alloc, &run(alloc, words, input, output, shelf, steps))
    }
}

/// Runs cases between which stand empty lines, and tells of them. Answers whether each came out.
fn come_out<R: Print + AllocGlobal>(rt: &R, name: &str, cases: &str) -> io::Result<bool> {
    let mut count: u64 = 0;
    let mut failed = false;
    for text in cases.split("\n\n") {
        let faults = faults_of(&Fountain, rt.alloc(), text)?;
        if faults.is_empty() {
            count = count.saturating_add(1);
        } else {
            failed = true;
            println!(rt; "{name}:\n{text}\n{faults}")?;
        }
    }
    println!(rt; "{name}: {count} cases")?;
    Ok(!failed)
}

/// Tells of the cases of each file that the words name. Answers whether each file is there and each case came out.
fn files_come_out<R: Env + Files + Print + AllocGlobal>(rt: &R) -> io::Result<bool> {
    let mut all_came_out = true;
    for name in env::args(rt)?.skip(1) {
        let path = format!(in rt.alloc(); "{name}.txt")?;
        let came_out = match fs::read_to_string(rt, path.as_str()) {
            Ok(cases) if !cases.trim().is_empty() => come_out(rt, name.as_str(), cases.as_str())?,
            _ => {
                println!(rt; "{name}: no cases")?;
                false
            }
        };
        all_came_out = all_came_out && came_out;
    }
    Ok(all_came_out)
}

fn main(rt: HostRuntime) -> ExitCode {
    match files_come_out(&rt) {
        Ok(true) => ExitCode::SUCCESS,
        Ok(false) | Err(_) => ExitCode::FAILURE,
    }
}
