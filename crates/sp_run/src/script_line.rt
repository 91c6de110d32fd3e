//! The line that tells of a script.
ghost use Rattle.std.specs.Prelude.{◌≡◌, IfOk, string_bytes};
ghost use Rattle.std.specs.Str.{IsUtf8};
ghost use Rattle.hex.specs.Hex.{encode_lower};
ghost use Rattle.sha2.specs.Sha256.{sha256};
ghost use Rattle.spec_sheets.specs.Sheets.{sheet_bytes};
ghost use Rattle.spec_state.specs.Printing.{printed_state};
ghost use Rattle.spec_sample.specs.Sample.{state_line};

use crate::told_line;
use sha2::{Digest, Sha256};
use sp_contents::sheet_reply;
use sp_print::PageView;
use sp_state::Script;
use sp_wire::Reply;
use std::alloc::{AllocError, Global};

/// The line that tells of the script behind the session of a sample of so many rooms.
pub(crate) fn state_line(alloc: Global, rooms: u32, script: &Script) -> Result<Vec<u8>, AllocError>
    ensures { IfOk result (λ line. line.items ≡ state_line rooms script.now) }
{
    let digest = sheets_digest(alloc, script)?;
    told_line(
        alloc,
        rooms,
        script.lines().len(),
        script.sheets(),
        script.records().round,
        digest.as_str(),
    )
}

/// The digest of all sheets of a script, in hexadecimal. They are printed one after another, and none is kept.
fn sheets_digest(alloc: Global, script: &Script) -> Result<String, AllocError>
    ensures { IfOk result (λ text. string_bytes text ≡ encode_lower (sha256 (printed_state script.now))) }
{
    let _sheets = script.body_sheets();
    let mut hasher = Sha256::new();
    for i in 0..script.sheets() {
        let Some(page) = script.sheet(i) else {
            unreachable!();
        };
        let text = sheet_text(alloc, &page)?;
        hasher.update(text.as_bytes());
    }
    let sum = hasher.finalize();
    hex::encode(alloc, sum.as_slice())
}

/// The bytes of a sheet, as the reply that tells it has them.
fn sheet_text(alloc: Global, page: &PageView<'_>) -> Result<String, AllocError>
    requires { IsUtf8 (sheet_bytes page.now) }
    ensures { IfOk result (λ text. string_bytes text ≡ sheet_bytes page.now) }
{
    match sheet_reply(alloc, page)? {
        Reply::Sheet { text, .. } => Ok(text),
        _ => unreachable!(),
    }
}
