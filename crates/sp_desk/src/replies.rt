//! What is told of a script.
ghost use Rattle.std.specs.Prelude.{◌≡◌, map, string_bytes, IfOk};
ghost use Rattle.spec_text.specs.Lines.{IsText};
ghost use Rattle.spec_state.specs.State.{text_of};
ghost use Rattle.spec_state.specs.StateSheets.{sheets_of_state};
ghost use Rattle.spec_machine.specs.Answers.{edited_reply, label_of_sheet, record_count};
ghost use Rattle.sp_wire.specs.Values.{reply_of};

use sp_contents::sheet_label;
use sp_records::Records;
use sp_state::Script;
use sp_wire::Reply;
use std::alloc::{AllocError, Global};

/// What is answered to an edit, an undo or a redo that led to this script.
pub fn edited_reply(script: &Script) -> Reply
    ensures reply { reply_of result ≡ edited_reply script.now }
    ensures text { IsText (text_of script.now) }
{
    Reply::Edited {
        lines: script.lines().len() as u64,
        sheets: script.sheets() as u64,
    }
}

/// How many scene records there are.
pub fn scene_count(records: &Records) -> u64
    ensures { result ≡ record_count records.now.scenes }
{
    match &records.scenes {
        None => 0,
        Some(scenes) => scenes.len() as u64,
    }
}

/// How many page records there are.
pub fn page_count(records: &Records) -> u64
    ensures { result ≡ record_count records.now.pages }
{
    match &records.pages {
        None => 0,
        Some(pages) => pages.len() as u64,
    }
}

/// The labels of its sheets.
pub fn sheet_labels(alloc: Global, script: &Script) -> Result<Vec<String>, AllocError>
    ensures { IfOk result (λ texts. map string_bytes texts.items ≡ map label_of_sheet (sheets_of_state script.now)) }
{
    let mut texts = Vec::new(alloc);
    while let Some(page) = script.sheet(texts.len()) {
        texts.push(sheet_label(alloc, &page)?)?;
    }
    Ok(texts)
}
