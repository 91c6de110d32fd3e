//! Writing a script: its sheets, its outline, its page for a browser, the sides of its cast or its packet to the sink (docs/RULES.md, "The program").
ghost use Rattle.std.specs.Prelude.{◌≡◌, ◌+◌, true, false};
ghost use Rattle.spec_text.specs.Limits.{raw_limit};
ghost use Rattle.spec_session.specs.Runs.{counts_of};
ghost use Rattle.spec_state.specs.Keeping.{IsWhole, state_of};
ghost use Rattle.spec_machine.specs.Outlines.{outline_of};
ghost use Rattle.spec_cast.specs.Said.{said_of};
ghost use Rattle.spec_cast.specs.Sides.{sides_of};
ghost use Rattle.sp_run.specs.Views.{HasView, LacksView, view_bytes};
ghost use Rattle.sp_text.specs.Gap.{text_of};
ghost use Rattle.sp_run.specs.Forms.{origin_of};
ghost use Rattle.sp_run.specs.Opening.{LeavesSource, LeavesShelf};
ghost use Rattle.sp_run.specs.Showing.{EndsAs};
ghost use Rattle.sp_run.specs.Asking.{OriginAsks};
ghost use Rattle.sp_run.specs.ShowCounted.{ShowCountsAs, ShowsState};
ghost use Rattle.sp_run.specs.Unopened.{ReadsUpTo, outside};
ghost use Rattle.sp_run.specs.Written.{IsWritten};

use crate::sheets::{write_packet, write_pages, write_sheets};
use crate::{Opened, Origin, Status, View, open_state};
use sp_cast::sides;
use sp_contents::{outline_text, said};
use sp_kit::{Shelf, Sink, Source, Steps, write_whole};
use sp_sheets::StateView;
use sp_state::Script;
use std::alloc::Global;
use std::mem;

/// Writes a view of a script. Each stanza of it is read once and each page of its body filled once where it is opened, and
/// nothing else is counted. An error is the status that the form ends with (docs/RULES.md, "The program"): with WriteFault or
/// NoMemory a prefix of the view was written, with the others nothing. What the shelf holds stays.
pub fn show_script<I: Source, O: Sink, F: Shelf, S: Steps>(
    alloc: Global,
    view: View,
    origin: Origin<'_>,
    input: &mut I,
    output: &mut O,
    shelf: &mut F,
    steps: &mut S,
) -> Result<(), Status>
    ensures ends { EndsAs view (origin_of origin.entry)
        (outside (I.state input.old) (O.state output.old) (F.state shelf.old))
        (outside (I.state input.new) (O.state output.new) (F.state shelf.new)) result }
    ensures budget { ReadsUpTo (I.state input.old).unread (I.state input.new).unread (raw_limit + 1) }
    ensures source_kept { LeavesSource (origin_of origin.entry) input.old input.new }
    ensures shelf_kept { LeavesShelf (origin_of origin.entry) shelf.old shelf.new }
    ensures files_kept { (F.state shelf.new).files ≡ (F.state shelf.old).files }
    ensures asks { OriginAsks (origin_of origin.entry) (F.state shelf.old) (F.state shelf.new) result }
    ensures counts { ShowCountsAs view (origin_of origin.entry)
        (outside (I.state input.old) (O.state output.old) (F.state shelf.old))
        (outside (I.state input.new) (O.state output.new) (F.state shelf.new))
        (counts_of (S.reads steps.old) (S.fills steps.old)) (counts_of (S.reads steps.new) (S.fills steps.new)) result }
{
    let opened = open_state(alloc, origin, input, shelf)?;
    show_opened(alloc, view, opened, output, steps)
}

/// Writes a view of a script that was had whole.
fn show_opened<O: Sink, S: Steps>(
    alloc: Global,
    view: View,
    opened: Opened,
    output: &mut O,
    steps: &mut S,
) -> Result<(), Status>
    requires { IsWhole (state_of (text_of opened.lines) opened.records) }
    ensures { ShowsState view (state_of (text_of opened.lines) opened.records) (O.state output.old) (O.state output.new)
        (counts_of (S.reads steps.old) (S.fills steps.old)) (counts_of (S.reads steps.new) (S.fills steps.new)) result }
{
    let script = Script::open(alloc, opened.lines, opened.records, steps)?;
    if lacks_view(view, &script) {
        return Err(Status::NotLocked);
    }
    let shown = write_view(alloc, view, &script, output);
    // The program ends here: nothing needs its memory back.
    mem::forget(script);
    shown
}

/// Whether a script hasn't this view: a packet where its pages aren't locked, and no other.
fn lacks_view(view: View, script: &Script) -> bool
    ensures lacks { result ≡ true → LacksView view script.now }
    ensures has { result ≡ false → HasView view script.now }
{
    match view {
        View::Packet => script.records().pages.is_none(),
        _ => false,
    }
}

/// Writes a view of a script that was opened.
fn write_view<O: Sink>(
    alloc: Global,
    view: View,
    script: &Script,
    output: &mut O,
) -> Result<(), Status>
    requires { HasView view script.now }
    ensures { IsWritten (O.state output.old) (O.state output.new) (view_bytes view script.now) result }
{
    match view {
        View::Sheets => write_sheets(alloc, script, output),
        View::Outline => write_outline(alloc, &script.view(), output),
        View::Html => write_pages(alloc, script, output),
        View::Cast => write_cast(alloc, &script.view(), output),
        View::Packet => write_packet(alloc, script, output),
    }
}

/// Writes the outline of a script, which is made whole first.
fn write_outline<O: Sink>(
    alloc: Global,
    state: &StateView<'_>,
    output: &mut O,
) -> Result<(), Status>
    ensures { IsWritten (O.state output.old) (O.state output.new) (outline_of state.now) result }
{
    let text = outline_text(alloc, state)?;
    write_whole(output, text.as_bytes())?;
    Ok(())
}

/// Writes the sides of a script's cast, which are made whole first.
fn write_cast<O: Sink>(alloc: Global, state: &StateView<'_>, output: &mut O) -> Result<(), Status>
    ensures { IsWritten (O.state output.old) (O.state output.new) (sides_of (said_of state.now)) result }
{
    let said = said(alloc, state)?;
    let bytes = sides(alloc, &said)?;
    write_whole(output, bytes.as_slice())?;
    Ok(())
}
