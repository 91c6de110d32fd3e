//! A layout kept through an edit.
ghost use Rattle.std.specs.Prelude.{◌≡◌, ◌≤◌, ◌+◌, ◌-◌, true, false, length, slice_range, IfOk, OnErr, OnOk};
ghost use Rattle.std.specs.List.{list_any};
ghost use Rattle.spec_text.specs.Lines.{line_texts};
ghost use Rattle.spec_script.specs.Stanzas.{stanzas_of};
ghost use Rattle.spec_script.specs.Elements.{is_speech_block};
ghost use Rattle.spec_sheets.specs.Speakers.{text_elements};
ghost use Rattle.spec_edit.specs.Settling.{stanza_settles};
ghost use Rattle.spec_edit.specs.Windows.{stanza_lines_in};
ghost use Rattle.sp_layout.specs.LaidOut.{keyed};
ghost use Rattle.sp_layout.specs.Edges.{edge_places};
ghost use Rattle.sp_layout.specs.Changes.{CanChange, HasChangeRoom, with_change};
ghost use Rattle.sp_layout.specs.Edited.{AreAlikeAt, AreLastBehind, IsEditPart, IsEdited, IsSaidBehind, KeepsToWindow, LeavesOutside, WasLaid, old_speakers, speakers_to, windows_settle};
ghost use Rattle.sp_layout.specs.Kept.{KeepsRoom, laid_of};

use crate::edges::{PartEdge, part_begin, part_end};
use crate::kept::exchange_speech;
use crate::speeches::{LastSpeakers, SaidRows, placed_speech, said_anew};
use crate::{KeptLayout, LayoutChange, PartPlaces, Speakers, relay};
use sp_blocks::{PlacedBlock, Stanza, is_speech_block};
use sp_reread::{Stanzas, Swapped, placed_blocks_between, placed_blocks_of, stanza_settles};
use sp_text::{Lines, OldLines};
use std::alloc::{AllocError, Global};

/// How many lines stanzas have.
fn lines_in(stanzas: &[Stanza]) -> usize
    requires { stanza_lines_in stanzas.now ≤ 9223372036854775807 }
    ensures { result ≡ stanza_lines_in stanzas.now }
{
    let mut count = 0;
    for stanza in stanzas {
        count += stanza.lines as usize;
    }
    count
}

/// Whether one of these stanzas has a heading or a speech.
fn any_settles(stanzas: &[Stanza]) -> bool
    ensures { result ≡ list_any stanza_settles stanzas.now }
{
    stanzas.iter().any(|stanza| stanza_settles(stanza))
}

/// The same of the stanzas from one place of a list to before another.
fn settles_between(stanzas: &Stanzas, from: usize, to: usize) -> bool
    requires order { from ≤ to }
    requires within { to ≤ length stanzas.now.stanzas }
    ensures { result ≡ list_any stanza_settles (slice_range stanzas.now.stanzas from to) }
{
    for place in from..to {
        if stanza_settles(stanzas.stanza(place)) {
            return true;
        }
    }
    false
}

/// Whether a stanza of the window, or one that stood there before the edit, has a heading or a speech.
fn windows_settle(stanzas: &Stanzas, swapped: &Swapped) -> bool
    requires { swapped.now.at + swapped.now.stands ≤ length stanzas.now.stanzas }
    ensures { result ≡ windows_settle stanzas.now.stanzas swapped.now }
{
    let _len = stanzas.len();
    let at = swapped.at();
    any_settles(swapped.stanzas()) || settles_between(stanzas, at, at + swapped.stands())
}

/// Who spoke last before a stanza. Of those before it, only the last one with a heading or a speech tells it. The error is want
/// of memory alone.
fn speakers_before(
    alloc: Global,
    lines: &Lines,
    stanzas: &Stanzas,
    to: usize,
    speakers: bool,
) -> Result<Speakers, AllocError>
    requires list { stanzas.now.stanzas ≡ stanzas_of (line_texts lines.now.lines) }
    requires within { to ≤ length stanzas.now.stanzas }
    ensures { IfOk result (λ it. it ≡ speakers_to lines.now.lines stanzas.now.stanzas speakers to) }
{
    let _count = lines.len();
    let past = stanzas.settled_before(to);
    let blocks = placed_blocks_between(alloc, stanzas, past.saturating_sub(1), past)?;
    Speakers::behind(alloc, lines, &blocks, speakers)
}

/// Who spoke last behind the window of an edit in the text before it. The error is want of memory alone.
fn old_speakers(
    alloc: Global,
    lines: &Lines,
    old: &OldLines<'_>,
    stanzas: &Stanzas,
    swapped: &Swapped,
    speakers: bool,
) -> Result<Speakers, AllocError>
    requires list { stanzas.now.stanzas ≡ stanzas_of (line_texts lines.now.lines) }
    requires edit { IsEdited old.now lines.now.lines stanzas.now.stanzas swapped.now }
    ensures { IfOk result (λ it. it ≡ old_speakers (line_texts old.now) stanzas.now.stanzas swapped.now speakers) }
{
    let _len = stanzas.len();
    let at = swapped.at();
    if any_settles(swapped.stanzas()) {
        let first = stanzas.lines_before(at);
        let blocks = placed_blocks_of(alloc, first, swapped.stanzas())?;
        Speakers::behind_old(alloc, old, &blocks, speakers)
    } else {
        speakers_before(alloc, lines, stanzas, at, speakers)
    }
}

/// Who spoke last before a stanza behind the window of an edit, in the texts before and after it; none where it is the same one, or
/// speakers who go on aren't told. Only the last heading or speech of each window is looked at, and the last one before it where a
/// window has none. The error is want of memory alone.
fn last_speakers(
    alloc: Global,
    lines: &Lines,
    old: &OldLines<'_>,
    stanzas: &Stanzas,
    swapped: &Swapped,
    speakers: bool,
    from: usize,
) -> Result<Option<LastSpeakers>, AllocError>
    requires list { stanzas.now.stanzas ≡ stanzas_of (line_texts lines.now.lines) }
    requires edit { IsEdited old.now lines.now.lines stanzas.now.stanzas swapped.now }
    requires low { swapped.now.at + swapped.now.stands ≤ from }
    requires within { from ≤ length stanzas.now.stanzas }
    ensures { IfOk result (AreLastBehind old.now lines.now.lines stanzas.now.stanzas swapped.now speakers from) }
{
    let _len = stanzas.len();
    let to = swapped.at() + swapped.stands();
    if !speakers || !windows_settle(stanzas, swapped) || settles_between(stanzas, to, from) {
        return Ok(None);
    }
    let before = old_speakers(alloc, lines, old, stanzas, swapped, speakers)?;
    let after = speakers_before(alloc, lines, stanzas, to, speakers)?;
    if after.are_same(&before) {
        return Ok(None);
    }
    Ok(Some(LastSpeakers { before, after }))
}

/// The speech behind a stanza's place behind the window of an edit whose `(CONT'D)` comes or goes, with the rows that it has then.
/// The error is want of memory alone.
fn speech_behind(
    alloc: Global,
    lines: &Lines,
    old: &OldLines<'_>,
    stanzas: &Stanzas,
    swapped: &Swapped,
    speakers: bool,
    from: usize,
) -> Result<Option<SaidRows>, AllocError>
    requires list { stanzas.now.stanzas ≡ stanzas_of (line_texts lines.now.lines) }
    requires edit { IsEdited old.now lines.now.lines stanzas.now.stanzas swapped.now }
    requires low { swapped.now.at + swapped.now.stands ≤ from }
    requires within { from ≤ length stanzas.now.stanzas }
    ensures { IfOk result (IsSaidBehind old.now lines.now.lines stanzas.now.stanzas swapped.now speakers from) }
{
    match last_speakers(alloc, lines, old, stanzas, swapped, speakers, from)? {
        Some(last) => said_anew(alloc, lines, stanzas, from, last),
        None => Ok(None),
    }
}

fn has_speech(blocks: &[PlacedBlock<'_>]) -> bool
    ensures { result ≡ list_any is_speech_block blocks.now }
{
    blocks.iter().any(|placed| is_speech_block(placed))
}

/// Speakers behind whom these blocks, which begin with a stanza, are the same elements as behind those who spoke before it.
/// Where none of them is a speech, it doesn't matter who spoke. The error is want of memory alone.
fn speakers_for(
    alloc: Global,
    lines: &Lines,
    stanzas: &Stanzas,
    to: usize,
    blocks: &[PlacedBlock<'_>],
    speakers: bool,
) -> Result<Speakers, AllocError>
    requires list { stanzas.now.stanzas ≡ stanzas_of (line_texts lines.now.lines) }
    requires within { to ≤ length stanzas.now.stanzas }
    ensures { IfOk result (AreAlikeAt lines.now.lines stanzas.now.stanzas speakers to blocks.now) }
{
    if speakers && has_speech(blocks) {
        speakers_before(alloc, lines, stanzas, to, speakers)
    } else {
        Ok(Speakers::new(speakers))
    }
}

/// The places of a part between two edges, behind which lines from `was` on stand from `end` on.
fn places_between(start: PartEdge, stop: PartEdge, was: usize, end: usize) -> PartPlaces
    ensures { result ≡ edge_places start stop was end }
{
    PartPlaces {
        title_from: start.titles,
        title_to: stop.titles,
        from: start.body,
        to: stop.body,
        break_from: start.breaks,
        break_to: stop.breaks,
        less: was as u64,
        more: end as u64,
    }
}

/// Makes a kept layout that of the text after an edit (docs/RULES.md, "Windows"), by the text's stanzas, what their update
/// displaced, and the lines of the text before. It lays out the stanzas of the edit's window and those round it that may be joined
/// with them, and moves what stands behind; and where another one spoke last behind this part than before, the speech that comes
/// first behind it, if no heading stands between, gets the rows with or without `(CONT'D)`. The part has at most one element more in
/// front of the window and one behind it. Each row outside the part stands on the lines, with their ids and marks, that it stood on
/// before the edit. What it answers leads back when it is made in its turn. The error is want of memory alone; the layout is then as
/// it was.
pub fn relay_edit(
    alloc: Global,
    lines: &Lines,
    old: &OldLines<'_>,
    stanzas: &Stanzas,
    swapped: &Swapped,
    speakers: bool,
    kept: &mut KeptLayout,
) -> Result<LayoutChange, AllocError>
    requires list { stanzas.now.stanzas ≡ stanzas_of (line_texts lines.now.lines) }
    requires was { WasLaid old.now lines.now.lines stanzas.now.stanzas swapped.now speakers (laid_of kept.old) }
    ensures layout { OnOk result (laid_of kept.new ≡ keyed lines.now.lines (text_elements speakers lines.now.lines)) }
    ensures part { IfOk result (λ it. IsEditPart stanzas.now.stanzas swapped.now (laid_of kept.old) it.part.places) }
    ensures few { IfOk result (KeepsToWindow stanzas.now.stanzas swapped.now) }
    ensures outside { IfOk result (LeavesOutside old.now lines.now.lines kept.new) }
    ensures back { IfOk result (λ it. with_change (laid_of kept.new) it ≡ laid_of kept.old) }
    ensures again { IfOk result (CanChange (laid_of kept.new)) }
    ensures returns { IfOk result (HasChangeRoom kept.new) }
    ensures room { KeepsRoom kept.old kept.new }
    ensures same { OnErr result (laid_of kept.new ≡ laid_of kept.old) }
{
    let _count = lines.len();
    let _len = stanzas.len();
    let at = swapped.at();
    let to = at + swapped.stands();
    let end = stanzas.lines_before(to);
    let was = stanzas.lines_before(at) + lines_in(swapped.stanzas());
    let start = part_begin(stanzas, swapped, kept);
    let stop = part_end(stanzas, to, was, end, kept);
    let blocks = placed_blocks_between(alloc, stanzas, start.stanza, stop.stanza)?;
    let last = speakers_for(alloc, lines, stanzas, start.stanza, &blocks, speakers)?;
    let said = speech_behind(alloc, lines, old, stanzas, swapped, speakers, stop.stanza)?;
    let places = places_between(start, stop, was, end);
    let part = relay(alloc, lines, &blocks, last, places, kept)?;
    let speech = placed_speech(stanzas, kept, said);
    let speech = exchange_speech(kept, speech);
    Ok(LayoutChange { speech, part })
}
