//! `fountain`: the program over the standard streams and the files of the system.
#![tactic(auto)]

ghost use Rattle.std.specs.Prelude.{◌≡◌};
ghost use Rattle.std.specs.declared.result.Result.{Result};
ghost use Rattle.std.specs.Process.{exit_status};
ghost use Rattle.sp_kit.specs.Outside.{Writes};
ghost use Rattle.sp_kit.specs.declared.outside.Failed.{Failed};
ghost use Rattle.sp_run.specs.Statuses.{code_of, line_of};

use sp_kit::{Counter, Sink};
use sp_run::{Status, fault_line, run};
use sp_system::{FileShelf, Input, Output};
use std::process::ExitCode;
use std::{env, io};

/// The words after the program's name.
fn words(rt: &HostRuntime) -> io::Result<Vec<String>> {
    let mut words = Vec::new(rt.alloc());
    for word in env::args(rt)?.skip(1) {
        words.push(word)?;
    }
    Ok(words)
}

/// The status of words that can't be had: there is no memory, or one isn't UTF-8 and so is of no form.
fn refused(error: &io::Error) -> Status {
    if error.kind() == io::ErrorKind::OutOfMemory {
        Status::NoMemory
    } else {
        Status::Usage
    }
}

/// Tells how a run ended: its line to a sink, its number as the exit status. Where the sink fails, the number alone tells.
fn tell<O: Sink>(status: &Status, errors: &mut O) -> ExitCode
    ensures code { exit_status result ≡ code_of status.now }
    ensures line { (told : Result (Unit {0}) Failed)
        × Writes (O.state errors.old) (O.state errors.new) (line_of status.now) told }
{
    let _ = fault_line(status, errors);
    ExitCode::from(status.code())
}

/// Whether files are saved in the form of these words.
fn saves(words: &[String]) -> bool {
    match words.first() {
        Some(word) => word.as_str() == "desk" || word.as_str() == "room",
        None => false,
    }
}

fn main(rt: HostRuntime) -> ExitCode {
    let status = match words(&rt) {
        Ok(words) => {
            let mut input = Input::new(rt.stdin());
            let mut output = Output::new(rt.stdout());
            let mut shelf = FileShelf::new(rt.alloc(), &rt, saves(&words));
            let mut steps = Counter::new();
            run(
                rt.alloc(),
                &words,
                &mut input,
                &mut output,
                &mut shelf,
                &mut steps,
            )
        }
        Err(error) => refused(&error),
    };
    tell(&status, &mut Output::new(rt.stderr()))
}
