//! A case run, and compared with what it says.
use crate::faults::Faults;
use crate::lines::{has, plain};
use crate::packets::compare_packet;
use crate::ran::{Program, compare_run};
use crate::turns::{compare_cuts, compare_turns};
use std::alloc::{AllocError, Global};

/// What came of a case in place of what its text says; nothing where it came out. The error is want of memory alone.
pub fn faults_of<P: Program>(program: &P, alloc: Global, text: &str) -> Result<String, AllocError> {
    let mut faults = Faults::new(alloc);
    let text = plain(alloc, text)?;
    let text = text.as_str();
    if has(text, b".") {
        compare_packet(program, alloc, text, &mut faults)?;
    } else {
        compare_run(program, alloc, text, &mut faults)?;
    }
    compare_turns(program, alloc, text, &mut faults)?;
    compare_cuts(program, alloc, text, &mut faults)?;
    Ok(faults.told)
}
