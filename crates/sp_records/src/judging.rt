//! Whose text a file is of, and whether it may stand for it.
ghost use Rattle.std.specs.Prelude.{◌≡◌, string_bytes};
ghost use Rattle.spec_records.specs.RecordFile.{digest_of};
ghost use Rattle.sp_records.specs.Judging.{IsJudgedFile};

use crate::RecordsFault;
use crate::kept::{File, Kept};
use crate::rules::keep_rules;
use sp_text::Lines;
use std::alloc::Global;

/// What a file keeps for the text of these lines, whose digest is found (docs/RULES.md, "Record file"). It refuses, in this
/// order: Mismatch where the file has another digest; BadForm for the first of rules 4 to 6 that is broken. NoMemory may come
/// in place of any answer.
pub fn judge(alloc: Global, file: File, found: String, lines: &Lines) -> Result<Kept, RecordsFault>
    requires { string_bytes found ≡ digest_of lines.now.lines }
    ensures { IsJudgedFile lines.now.lines file result }
{
    let File { digest, kept } = file;
    if digest != found {
        return Err(RecordsFault::Mismatch {
            kept: digest,
            found,
        });
    }
    keep_rules(alloc, &kept, lines)?;
    Ok(kept)
}
