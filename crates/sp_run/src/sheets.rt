//! The sheets of a script, written one by one.
ghost use Rattle.std.specs.Prelude.{◌≡◌, ℕ, ◌<◌, ◌++◌, [], true, All, OnOk, is_some, length};
ghost use Rattle.std.specs.List.{flat_map};
ghost use Rattle.sp_kit.specs.Outside.{Writes};
ghost use Rattle.spec_sheets.specs.Sheets.{sheet_bytes};
ghost use Rattle.spec_packet.specs.StatePackets.{packet_bytes, sheets_at};
ghost use Rattle.spec_html.specs.HtmlReading.{styled_text};
ghost use Rattle.spec_html.specs.HtmlSheets.{pages_html};
ghost use Rattle.spec_html.specs.StyledSheets.{sheet_styled};
ghost use Rattle.spec_state.specs.Printing.{printed_state};
ghost use Rattle.spec_state.specs.StateSheets.{sheets_of_state};
ghost use Rattle.sp_run.specs.SheetForms.{sheet_in};
ghost use Rattle.sp_run.specs.Written.{IsWritten};

use crate::Status;
use sp_html::write_html;
use sp_kit::{Failed, GrowingSink, Sink, write_whole};
use sp_packet::{PacketFault, packet};
use sp_print::{PageView, print_sheet};
use sp_state::Script;
use std::alloc::{AllocError, Global};

/// What stands before the sheets of a page for a browser, and behind them.
const BEFORE_SHEETS: &str = "<!DOCTYPE html><html><head><meta charset=\"utf-8\"></head><body>";

const BEHIND_SHEETS: &str = "</body></html>";

/// How a sheet is written.
#[derive(Clone, Copy)]
enum SheetForm {
    Printed,
    Html,
}

fn write_in<O: Sink>(form: SheetForm, page: &PageView<'_>, sink: &mut O) -> Result<(), Failed>
    ensures { Writes (O.state sink.old) (O.state sink.new) (sheet_in form page.now) result }
{
    match form {
        SheetForm::Printed => print_sheet(page, sink),
        SheetForm::Html => write_html(page, sink),
    }
}

/// Puts the bytes of a sheet behind those that the buffer has.
fn add_sheet(
    form: SheetForm,
    buffer: &mut GrowingSink,
    page: &PageView<'_>,
) -> Result<(), AllocError>
    ensures { OnOk result (buffer.new.taken ≡ buffer.old.taken ++ sheet_in form page.now) }
{
    match write_in(form, page, buffer) {
        Ok(()) => Ok(()),
        Err(_) => Err(AllocError),
    }
}

/// Writes a sheet, which is made whole in an empty buffer first, and leaves the buffer empty.
fn write_sheet<O: Sink>(
    form: SheetForm,
    buffer: &mut GrowingSink,
    page: &PageView<'_>,
    output: &mut O,
) -> Result<(), Status>
    requires { buffer.old.taken ≡ [] }
    ensures written { IsWritten (O.state output.old) (O.state output.new) (sheet_in form page.now) result }
    ensures empty { OnOk result (buffer.new.taken ≡ []) }
{
    add_sheet(form, buffer, page)?;
    write_whole(output, buffer.taken())?;
    buffer.clear();
    Ok(())
}

/// Writes all sheets of a script, each made whole in one buffer first.
fn write_all<O: Sink>(
    alloc: Global,
    form: SheetForm,
    script: &Script,
    output: &mut O,
) -> Result<(), Status>
    ensures { IsWritten (O.state output.old) (O.state output.new)
        (flat_map (sheet_in form) (sheets_of_state script.now)) result }
{
    let mut buffer = GrowingSink::new(alloc);
    for i in 0..script.sheets() {
        let Some(page) = script.sheet(i) else {
            unreachable!();
        };
        write_sheet(form, &mut buffer, &page, output)?;
    }
    Ok(())
}

/// Writes all sheets of a script.
pub fn write_sheets<O: Sink>(alloc: Global, script: &Script, output: &mut O) -> Result<(), Status>
    ensures { IsWritten (O.state output.old) (O.state output.new) (printed_state script.now) result }
{
    write_all(alloc, SheetForm::Printed, script, output)
}

/// Writes the sheets of a script at these places, each made whole in one buffer first.
fn write_places<O: Sink>(
    alloc: Global,
    script: &Script,
    places: &[u64],
    output: &mut O,
) -> Result<(), Status>
    requires { All (λ (place : ℕ). place < length (sheets_of_state script.now)) places.now }
    ensures { IsWritten (O.state output.old) (O.state output.new)
        (flat_map sheet_bytes (sheets_at (sheets_of_state script.now) places.now)) result }
{
    let mut buffer = GrowingSink::new(alloc);
    for place in places {
        let Some(page) = script.sheet(*place as usize) else {
            unreachable!();
        };
        write_sheet(SheetForm::Printed, &mut buffer, &page, output)?;
    }
    Ok(())
}

/// Writes the sheets of the packet of a script whose pages are locked (docs/RULES.md, "Packets").
pub fn write_packet<O: Sink>(alloc: Global, script: &Script, output: &mut O) -> Result<(), Status>
    requires { is_some (script.now).pages ≡ true }
    ensures { IsWritten (O.state output.old) (O.state output.new) (packet_bytes script.now) result }
{
    match packet(alloc, script) {
        Ok(places) => write_places(alloc, script, &places, output),
        Err(PacketFault::PagesNotLocked) => Err(Status::NotLocked),
        Err(PacketFault::NoMemory) => Err(Status::NoMemory),
    }
}

fn write_text<O: Sink>(text: &str, output: &mut O) -> Result<(), Status>
    ensures { IsWritten (O.state output.old) (O.state output.new) text.now result }
{
    write_whole(output, text.as_bytes())?;
    Ok(())
}

/// Writes all sheets of a script as a page for a browser.
pub fn write_pages<O: Sink>(alloc: Global, script: &Script, output: &mut O) -> Result<(), Status>
    ensures written { IsWritten (O.state output.old) (O.state output.new)
        (pages_html (sheets_of_state script.now)) result }
    ensures shows { styled_text (pages_html (sheets_of_state script.now))
        ≡ flat_map sheet_styled (sheets_of_state script.now) }
{
    write_text(BEFORE_SHEETS, output)?;
    write_all(alloc, SheetForm::Html, script, output)?;
    write_text(BEHIND_SHEETS, output)
}
