//! The speech behind the part of a layout that an edit changes whose `(CONT'D)` comes or goes (docs/RULES.md, "Windows").
ghost use Rattle.std.specs.Prelude.{◌≡◌, ◌⊎◌, ℕ, ◌<◌, ◌≤◌, false, true, length, take, drop, slice_get, slice_range, Some, All, IfNone, IfOk, IfSome};
ghost use Rattle.std.specs.List.{list_any};
ghost use Rattle.spec_text.specs.Lines.{line_texts};
ghost use Rattle.spec_script.specs.BlockValues.{BlockOf, StanzaOf};
ghost use Rattle.spec_script.specs.Elements.{PlacedLies};
ghost use Rattle.spec_script.specs.Stanzas.{blocks_from, stanzas_of};
ghost use Rattle.spec_edit.specs.Windows.{stanza_lines_in};
ghost use Rattle.spec_edit.specs.Settling.{IsNextSettling, block_settles};
ghost use Rattle.sp_layout.specs.Exchanges.{rows_at};
ghost use Rattle.sp_layout.specs.Places.{ArePartedAt};
ghost use Rattle.sp_layout.specs.Kept.{laid_of};
ghost use Rattle.sp_layout.specs.Speeches.{CanStandIn, GoesAlike, IsFirstSpeech, IsPlacedIn, IsSaidAnew, IsSpeechElement, Speaks, SpeaksNone, body_blocks};

use crate::{KeptLayout, Layout, Row, Speakers, SpeechRows, elements_before, lay_out_behind};
use sp_blocks::{Block, PlacedBlock, is_speech_kind};
use sp_columns::is_title;
use sp_reread::{Stanzas, block_settles, placed_blocks_between};
use sp_text::Lines;
use std::alloc::{AllocError, Global};
use std::marker::Model;

/// A block of a text: its stanza, and which of that stanza's blocks it is.
#[derive(Clone, Copy)]
pub struct BlockPlace {
    pub stanza: usize,
    pub block: usize,
}

/// Who spoke last before a stanza, in the text before an edit and in that after it.
#[derive(Drop)]
pub struct LastSpeakers {
    pub before: Speakers,
    pub after: Speakers,
}

impl Model for LastSpeakers {
    ghost use Rattle.sp_layout.specs.Speeches.{LastOf};

    ghost Value = { LastOf };

    ghost view = { λ l. record { before = l.before; after = l.after } };
}

/// The rows of a speech, and which block of the text it is.
#[derive(Drop)]
pub struct SaidRows {
    pub place: BlockPlace,
    pub rows: Vec<Row>,
}

impl Model for SaidRows {
    ghost use Rattle.sp_layout.specs.Speeches.{SaidOf};

    ghost Value = { SaidOf };

    ghost view = { λ s. record { place = s.place; rows = s.rows.items } };
}

/// Which of these blocks is the first heading or speech, or how many there are.
fn first_settling(blocks: &[Block]) -> usize
    ensures within { result ≤ length blocks.now }
    ensures first { list_any block_settles (take result blocks.now) ≡ false }
    ensures settles { (b : BlockOf) → slice_get blocks.now result ≡ Some b → block_settles b ≡ true }
{
    for place in 0..blocks.len() {
        if block_settles(&blocks[place]) {
            return place;
        }
    }
    blocks.len()
}

/// The first heading or speech from a stanza on, where it is a speech.
pub fn first_speech(stanzas: &Stanzas, from: usize) -> Option<BlockPlace>
    requires { from ≤ length stanzas.now.stanzas }
    ensures some { IfSome result (IsFirstSpeech stanzas.now.stanzas from) }
    ensures none { IfNone result (SpeaksNone stanzas.now.stanzas from) }
{
    match stanzas.next_settling(from) {
        Some(stanza) => speech_in(stanzas, from, stanza),
        None => None,
    }
}

/// The same where this stanza is the first with a heading or a speech.
fn speech_in(stanzas: &Stanzas, from: usize, stanza: usize) -> Option<BlockPlace>
    requires { IsNextSettling stanzas.now.stanzas from stanza }
    ensures some { IfSome result (IsFirstSpeech stanzas.now.stanzas from) }
    ensures none { IfNone result (SpeaksNone stanzas.now.stanzas from) }
{
    let own = stanzas.stanza(stanza);
    let block = first_settling(&own.blocks);
    if block < own.blocks.len() && is_speech_kind(own.blocks[block].kind) {
        Some(BlockPlace { stanza, block })
    } else {
        None
    }
}

/// The place behind the first stanza from one on that has a block, or behind all.
fn next_filled(stanzas: &Stanzas, from: usize) -> usize
    requires { from ≤ length stanzas.now.stanzas }
    ensures low { from ≤ result }
    ensures within { result ≤ length stanzas.now.stanzas }
    ensures filled { (result ≡ length stanzas.now.stanzas)
        ⊎ ((p : ℕ) → 0 < length (blocks_from p (slice_range stanzas.now.stanzas from result))) }
{
    for place in from..stanzas.len() {
        let stanza = stanzas.stanza(place);
        if stanza.blocks.len() > 0 {
            return place + 1;
        }
    }
    stanzas.len()
}

/// A speech, and the block behind it where there is one.
fn two_from<'a, 'b>(blocks: &'b [PlacedBlock<'a>], place: usize) -> &'b [PlacedBlock<'a>]
    requires { place ≤ length blocks.now }
    ensures { result.now ≡ take 2 (drop place blocks.now) }
{
    if place + 2 < blocks.len() {
        &blocks[place..place + 2]
    } else {
        &blocks[place..]
    }
}

/// Whether one of both who spoke last before a speech speaks in it; else it goes on behind neither. The error is want of memory
/// alone.
fn either_speaks(
    alloc: Global,
    lines: &Lines,
    speech: &[PlacedBlock<'_>],
    last: &LastSpeakers,
) -> Result<bool, AllocError>
    requires says { Speaks speech.now }
    requires some { 0 < length speech.now }
    requires lie { All (PlacedLies (line_texts lines.now.lines)) speech.now }
    ensures { IfOk result (λ it. it ≡ false → GoesAlike lines.now.lines last.now speech.now) }
{
    let own = Speakers::behind(alloc, lines, &speech[..1], true)?;
    Ok(own.are_same(&last.before) || own.are_same(&last.after))
}

/// The rows of the first element of a layout's body.
fn first_rows(alloc: Global, layout: Layout) -> Vec<Row>
    ensures { result.items ≡ rows_at layout.body.elements 0 }
{
    let Layout {
        titles: _titles,
        body,
        breaks: _breaks,
    } = layout;
    match body.into_elements().into_iter().next() {
        Some(element) => element.rows,
        None => Vec::new(alloc),
    }
}

/// The speech behind a stanza's place whose `(CONT'D)` comes or goes, with the rows that it has then, by who spoke last before that
/// stanza. The error is want of memory alone.
pub fn said_anew(
    alloc: Global,
    lines: &Lines,
    stanzas: &Stanzas,
    from: usize,
    last: LastSpeakers,
) -> Result<Option<SaidRows>, AllocError>
    requires list { stanzas.now.stanzas ≡ stanzas_of (line_texts lines.now.lines) }
    requires within { from ≤ length stanzas.now.stanzas }
    ensures { IfOk result (IsSaidAnew lines.now.lines stanzas.now.stanzas from last) }
{
    match first_speech(stanzas, from) {
        Some(place) => said_at(alloc, lines, stanzas, from, place, last),
        None => Ok(None),
    }
}

/// The same where this is the speech.
fn said_at(
    alloc: Global,
    lines: &Lines,
    stanzas: &Stanzas,
    from: usize,
    place: BlockPlace,
    last: LastSpeakers,
) -> Result<Option<SaidRows>, AllocError>
    requires list { stanzas.now.stanzas ≡ stanzas_of (line_texts lines.now.lines) }
    requires first { IsFirstSpeech stanzas.now.stanzas from place }
    ensures { IfOk result (IsSaidAnew lines.now.lines stanzas.now.stanzas from last) }
{
    let _count = lines.len();
    let _len = stanzas.len();
    let until = next_filled(stanzas, place.stanza + 1);
    let blocks = placed_blocks_between(alloc, stanzas, place.stanza, until)?;
    let speech = two_from(&blocks, place.block);
    if !either_speaks(alloc, lines, speech, &last)? {
        return Ok(None);
    }
    let layout = lay_out_behind(alloc, lines, speech, last.after)?;
    Ok(Some(SaidRows {
        place,
        rows: first_rows(alloc, layout),
    }))
}

/// How many of these blocks don't stand on a title page.
fn body_blocks(blocks: &[Block]) -> usize
    ensures value { result ≡ body_blocks blocks.now }
    ensures few { result ≤ length blocks.now }
{
    let mut count = 0;
    for block in blocks {
        if !is_title(block.kind) {
            count += 1;
        }
    }
    count
}

/// Which element of a body a speech is, before which none is joined with another in its stanza.
fn speech_element(stanzas: &Stanzas, kept: &KeptLayout, place: BlockPlace) -> usize
    requires inside { place.stanza < length stanzas.now.stanzas }
    requires block { (s : StanzaOf) → slice_get stanzas.now.stanzas place.stanza ≡ Some s
        → place.block ≤ length s.blocks }
    requires parted { ArePartedAt (laid_of kept.now).body.elements
        (stanza_lines_in (take place.stanza stanzas.now.stanzas)) }
    ensures { IsSpeechElement stanzas.now.stanzas (laid_of kept.now).body.elements place result }
{
    let _len = stanzas.len();
    let _elements = kept.body.len();
    let own = stanzas.stanza(place.stanza);
    let count = elements_before(kept.body.elements(), stanzas.lines_before(place.stanza));
    count + body_blocks(&own.blocks[..place.block])
}

/// The rows of a speech, and which element of a body it is.
pub fn placed_speech(
    stanzas: &Stanzas,
    kept: &KeptLayout,
    said: Option<SaidRows>,
) -> Option<SpeechRows>
    requires { CanStandIn stanzas.now.stanzas (laid_of kept.now).body.elements said }
    ensures { IsPlacedIn stanzas.now.stanzas (laid_of kept.now).body.elements said result }
{
    match said {
        Some(SaidRows { place, rows }) => Some(SpeechRows {
            element: speech_element(stanzas, kept, place),
            rows,
        }),
        None => None,
    }
}
