//! Where the part of a layout that an edit changes begins and ends.
ghost use Rattle.std.specs.Prelude.{◌≡◌, ◌≤◌, ◌+◌, length, take};
ghost use Rattle.spec_edit.specs.Windows.{stanza_lines_in};
ghost use Rattle.spec_edit.specs.RelaidStanzas.{first_apart, last_apart};
ghost use Rattle.sp_layout.specs.Edges.{CanBegin, CanBeginWindow, CanEnd, CanPart, IsEdge, IsNearestBegin, IsNearestEnd, IsNearestStart, IsPartBegin, IsPartEnd, IsPartStart, opens_first, windows_open};
ghost use Rattle.sp_layout.specs.Kept.{laid_of};

use crate::{KeptLayout, count_below, elements_before};
use sp_blocks::{Stanza, is_speech_kind};
use sp_reread::{Stanzas, Swapped};

/// Where a part of a layout begins or ends: before which stanza, before which element of the title page and which of the
/// body, and before which page break.
#[derive(Clone, Copy)]
pub struct PartEdge {
    pub stanza: usize,
    pub titles: usize,
    pub body: usize,
    pub breaks: usize,
}

/// Whether the first block of a stanza has no caret, so that it is joined with none before it.
fn opens_apart(stanza: &Stanza) -> bool
    ensures { result ≡ first_apart stanza.now.blocks }
{
    match stanza.blocks.first() {
        Some(block) => !block.caret,
        None => false,
    }
}

/// Whether the last block of a stanza is no speech without a caret, so that it is joined with none behind it.
fn closes_apart(stanza: &Stanza) -> bool
    ensures { result ≡ last_apart stanza.now.blocks }
{
    match stanza.blocks.last() {
        Some(block) => !is_speech_kind(block.kind) || block.caret,
        None => false,
    }
}

/// The edge before a stanza that begins at a line of the layout's text.
fn edge_at(kept: &KeptLayout, stanza: usize, line: usize) -> PartEdge
    requires { CanPart (laid_of kept.now) line }
    ensures is { IsEdge (laid_of kept.now) line result }
    ensures stanza { result.stanza ≡ stanza }
{
    let titles = elements_before(kept.titles.elements(), line);
    let body = elements_before(kept.body.elements(), line);
    PartEdge {
        stanza,
        titles,
        body,
        breaks: count_below(&kept.breaks, body),
    }
}

/// The same of the first of these stanzas; not where there is none.
fn first_opens_apart(stanzas: &[Stanza]) -> bool
    ensures { result ≡ opens_first stanzas.now }
{
    match stanzas.first() {
        Some(stanza) => opens_apart(stanza),
        None => false,
    }
}

/// Whether the window of an edit begins with a block without a caret in the text after the edit, and in that before.
fn windows_open(stanzas: &Stanzas, swapped: &Swapped) -> bool
    requires { swapped.now.at + swapped.now.stands ≤ length stanzas.now.stanzas }
    ensures { result ≡ windows_open stanzas.now.stanzas swapped.now }
{
    swapped.stands() > 0
        && opens_apart(stanzas.stanza(swapped.at()))
        && first_opens_apart(swapped.stanzas())
}

/// Where the part begins: with the window, where that begins with a block without a caret in both texts, and else in front of it.
pub fn part_begin(stanzas: &Stanzas, swapped: &Swapped, kept: &KeptLayout) -> PartEdge
    requires within { swapped.now.at + swapped.now.stands ≤ length stanzas.now.stanzas }
    requires can { CanBegin stanzas.now.stanzas swapped.now.at (laid_of kept.now) }
    requires window { CanBeginWindow stanzas.now.stanzas swapped.now (laid_of kept.now) }
    ensures is { IsPartBegin stanzas.now.stanzas swapped.now (laid_of kept.now) result }
    ensures nearest { IsNearestBegin stanzas.now.stanzas swapped.now result.stanza }
{
    let at = swapped.at();
    if windows_open(stanzas, swapped) {
        return edge_at(kept, at, stanzas.lines_before(at));
    }
    part_start(stanzas, at, kept)
}

/// Where the part begins in front of the window that begins before the stanza `at`: before the last stanza there that begins with a
/// block without a caret or behind the last one that ends with a block that is joined with none behind it, or before all.
fn part_start(stanzas: &Stanzas, at: usize, kept: &KeptLayout) -> PartEdge
    requires within { at ≤ length stanzas.now.stanzas }
    requires can { CanBegin stanzas.now.stanzas at (laid_of kept.now) }
    ensures is { IsPartStart stanzas.now.stanzas at (laid_of kept.now) result }
    ensures nearest { IsNearestStart stanzas.now.stanzas at result.stanza }
{
    let mut place = at;
    while place > 0 {
        if closes_apart(stanzas.stanza(place - 1)) {
            return edge_at(kept, place, stanzas.lines_before(place));
        }
        place -= 1;
        if opens_apart(stanzas.stanza(place)) {
            return edge_at(kept, place, stanzas.lines_before(place));
        }
    }
    PartEdge {
        stanza: 0,
        titles: 0,
        body: 0,
        breaks: 0,
    }
}

/// Where the part ends, behind the window that ends before the stanza `to`, with the line `end`, which was the line `was`: before the
/// first stanza there that begins with a block without a caret or behind the first one that ends with a block that is joined with none
/// behind it, or behind all.
pub fn part_end(stanzas: &Stanzas, to: usize, was: usize, end: usize, kept: &KeptLayout) -> PartEdge
    requires within { to ≤ length stanzas.now.stanzas }
    requires end { end ≡ stanza_lines_in (take to stanzas.now.stanzas) }
    requires low { was + stanza_lines_in stanzas.now.stanzas ≤ 9223372036854775807 }
    requires can { CanEnd stanzas.now.stanzas to was end (laid_of kept.now) }
    ensures is { IsPartEnd stanzas.now.stanzas to was end (laid_of kept.now) result }
    ensures nearest { IsNearestEnd stanzas.now.stanzas to result.stanza }
{
    for place in to..stanzas.len() {
        if opens_apart(stanzas.stanza(place)) {
            let line = stanzas.lines_before(place) - end + was;
            return edge_at(kept, place, line);
        }
        if closes_apart(stanzas.stanza(place)) {
            let line = stanzas.lines_before(place + 1) - end + was;
            return edge_at(kept, place + 1, line);
        }
    }
    PartEdge {
        stanza: stanzas.len(),
        titles: kept.titles.len(),
        body: kept.body.len(),
        breaks: kept.breaks.len(),
    }
}
