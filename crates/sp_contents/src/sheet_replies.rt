//! A sheet and its label, as replies tell them.
ghost use Rattle.std.specs.Prelude.{◌≡◌, string_bytes, IfOk};
ghost use Rattle.std.specs.Str.{IsUtf8};
ghost use Rattle.spec_sheets.specs.Sheets.{sheet_bytes, sheet_label_text};
ghost use Rattle.spec_machine.specs.Answers.{label_of_sheet, sheet_reply};
ghost use Rattle.sp_print.specs.Views.{label_of};
ghost use Rattle.sp_wire.specs.Values.{reply_of};

use sp_kit::GrowingSink;
use sp_print::{PageView, SheetLabel, print_sheet, write_sheet_label};
use sp_wire::Reply;
use std::alloc::{AllocError, Global};

/// The label of a sheet as it is written, without its full stop (docs/RULES.md, "Sheets"). `AllocError` comes for want of
/// memory alone.
pub fn sheet_label_text(alloc: Global, label: SheetLabel<'_>) -> Result<String, AllocError>
    ensures { IfOk result (λ text. string_bytes text ≡ sheet_label_text (label_of label.entry)) }
{
    let mut sink = GrowingSink::new(alloc);
    match write_sheet_label(label, &mut sink) {
        Ok(()) => Ok(sink.into_text()),
        Err(_) => Err(AllocError),
    }
}

/// The bytes of a sheet.
fn sheet_text(alloc: Global, page: &PageView<'_>) -> Result<String, AllocError>
    requires { IsUtf8 (sheet_bytes page.now) }
    ensures { IfOk result (λ text. string_bytes text ≡ sheet_bytes page.now) }
{
    let mut sink = GrowingSink::new(alloc);
    match print_sheet(page, &mut sink) {
        Ok(()) => Ok(sink.into_text()),
        Err(_) => Err(AllocError),
    }
}

/// The label of a sheet as it is written, without its full stop; that of a title sheet is empty (docs/RULES.md,
/// "Replies"). `AllocError` comes for want of memory alone.
pub fn sheet_label(alloc: Global, page: &PageView<'_>) -> Result<String, AllocError>
    ensures { IfOk result (λ text. string_bytes text ≡ label_of_sheet page.now) }
{
    match page.label() {
        Some(label) => sheet_label_text(alloc, label),
        None => Ok(String::new(alloc)),
    }
}

/// The reply that tells a sheet: its label, its round and its bytes, which are UTF-8 for each sheet of a script
/// (docs/RULES.md, "Replies"). `AllocError` comes for want of memory alone.
pub fn sheet_reply(alloc: Global, page: &PageView<'_>) -> Result<Reply, AllocError>
    requires utf8 { IsUtf8 (sheet_bytes page.now) }
    ensures { IfOk result (λ reply. reply_of reply ≡ sheet_reply page.now) }
{
    Ok(Reply::Sheet {
        label: sheet_label(alloc, page)?,
        round: page.round(),
        text: sheet_text(alloc, page)?,
    })
}
