//! Which speakers go on.
ghost use Rattle.std.specs.Prelude.{◌≡◌, ℕ, ◌+◌, ◌≤◌, ◌&&◌, ◌↔◌, IsTrue, List, None, length, nat_eq, string_bytes, option_map, All, IfNone, IfOk, IfSome, OnOk};
ghost use Rattle.std.specs.List.{ends_with};
ghost use Rattle.spec_text.specs.Limits.{line_count_limit};
ghost use Rattle.spec_text.specs.Lines.{line_texts};
ghost use Rattle.spec_script.specs.BlockParts.{LineLies};
ghost use Rattle.spec_script.specs.Elements.{PlacedLies, is_speech_kind};
ghost use Rattle.spec_script.specs.Runs.{RunParts};
ghost use Rattle.spec_sheets.specs.Cells.{continued};
ghost use Rattle.spec_sheets.specs.Speakers.{block_text, cue_ends_continued, cue_text, is_last_speaker, last_row_continued, name_in, named_block, settled, shown_text, speaker_after};
ghost use Rattle.sp_layout.specs.Speaking.{SpeaksLast, last_speaker, speakers_after, speakers_before, speakers_behind};

use sp_blocks::{BlockLine, Kind, PlacedBlock, shown_text};
use sp_clean::letters::ends;
use sp_clean::spaces::trim;
use sp_columns::width_of;
use sp_measure::{WrapRow, wrap};
use sp_text::{Lines, OldLines};
use spec_pages::Side;
use spec_script::Run;
use std::alloc::{AllocError, Global};
use std::marker::Model;

/// The text of a line of a block.
fn block_text<'a>(lines: &'a Lines, first: usize, line: &BlockLine) -> &'a str
    requires lies { LineLies (line_texts lines.now.lines) first line.now }
    requires low { length lines.now.lines ≤ line_count_limit }
    ensures text { result.now ≡ block_text (line_texts lines.now.lines) first line.now }
    ensures short { length result.now ≤ 4096 }
{
    lines.line(first + line.offset as usize).text
}

/// The text of a line of a block, before a change.
fn old_block_text<'a>(old: &OldLines<'a>, first: usize, line: &BlockLine) -> &'a str
    requires { LineLies (line_texts old.now) first line.now }
    ensures { result.now ≡ block_text (line_texts old.now) first line.now }
{
    old.text(first as u64, line.offset)
}

/// The visible text of a speech's cue, which is the first of its lines.
fn cue_text(alloc: Global, lines: &Lines, placed: &PlacedBlock<'_>) -> Result<String, AllocError>
    requires { PlacedLies (line_texts lines.now.lines) placed.now }
    ensures { IfOk result (λ cue. string_bytes cue ≡ cue_text (line_texts lines.now.lines) placed.now) }
{
    let block = placed.block;
    match block.lines.first() {
        Some(cue) => shown_text(alloc, block_text(lines, placed.first, cue), &cue.runs),
        None => Ok(String::new(alloc)),
    }
}

/// The same before a change.
fn old_cue_text(
    alloc: Global,
    old: &OldLines<'_>,
    placed: &PlacedBlock<'_>,
) -> Result<String, AllocError>
    requires { PlacedLies (line_texts old.now) placed.now }
    ensures { IfOk result (λ cue. string_bytes cue ≡ cue_text (line_texts old.now) placed.now) }
{
    let block = placed.block;
    match block.lines.first() {
        Some(cue) => shown_text(alloc, old_block_text(old, placed.first, cue), &cue.runs),
        None => Ok(String::new(alloc)),
    }
}

/// The name in a cue: where that ends in `)`, what stands before its first `(`, without spaces at its ends.
fn name_in(cue: &str) -> &str
    ensures { result.now ≡ name_in cue.now }
{
    if !ends(cue, b')') {
        return cue;
    }
    match cue.split_once('(') {
        Some((name, _)) => trim(name),
        None => trim(cue),
    }
}

/// The name of the one who speaks in a speech that lies in the lines (docs/RULES.md, "Elements"). The error is want of
/// memory alone.
pub fn speaker_name(
    alloc: Global,
    lines: &Lines,
    speech: &PlacedBlock<'_>,
) -> Result<String, AllocError>
    requires { PlacedLies (line_texts lines.now.lines) speech.now }
    ensures { IfOk result (λ name. string_bytes name ≡ name_in (cue_text (line_texts lines.now.lines) speech.now)) }
{
    let cue = cue_text(alloc, lines, speech)?;
    String::from_str(alloc, name_in(&cue))
}

/// The name of the one who spoke in a speech before a change.
fn old_speaker_name(
    alloc: Global,
    old: &OldLines<'_>,
    speech: &PlacedBlock<'_>,
) -> Result<String, AllocError>
    requires { PlacedLies (line_texts old.now) speech.now }
    ensures { IfOk result (λ name. string_bytes name ≡ name_in (cue_text (line_texts old.now) speech.now)) }
{
    let cue = old_cue_text(alloc, old, speech)?;
    String::from_str(alloc, name_in(&cue))
}

/// Whether a name isn't empty and is that of the last speaker.
fn is_last_speaker(last: &Option<String>, name: &str) -> bool
    ensures { result ≡ is_last_speaker (option_map string_bytes last.now) name.now }
{
    match last {
        Some(last) => !name.is_empty() && last.as_str() == name,
        None => false,
    }
}

/// Passes a block, and tells whether its speaker is the one who spoke last.
fn pass_block(
    alloc: Global,
    last: &mut Option<String>,
    lines: &Lines,
    placed: &PlacedBlock<'_>,
) -> Result<bool, AllocError>
    requires { PlacedLies (line_texts lines.now.lines) placed.now }
    ensures same { IfOk result (λ same. same ≡ is_speech_kind placed.now.block.kind
        && is_last_speaker (option_map string_bytes last.old)
        (name_in (cue_text (line_texts lines.now.lines) placed.now))) }
    ensures last { OnOk result (option_map string_bytes last.new ≡ speaker_after (line_texts lines.now.lines)
        (option_map string_bytes last.old) placed.now) }
{
    let block = placed.block;
    match block.kind {
        Kind::Heading => {
            *last = None;
            Ok(false)
        }
        Kind::Speech => {
            let name = speaker_name(alloc, lines, placed)?;
            let same = is_last_speaker(last, &name);
            *last = Some(name);
            Ok(same)
        }
        _ => Ok(false),
    }
}

/// Whether what runs show of a text ends in `(CONT'D)`.
fn ends_continued(alloc: Global, text: &str, runs: &[Run]) -> Result<bool, AllocError>
    requires { RunParts text.now runs.now }
    ensures { IfOk result (λ ends. ends ≡ ends_with nat_eq (shown_text text.now runs.now) continued) }
{
    let shown = shown_text(alloc, text, runs)?;
    Ok(shown.as_bytes().ends_with(b"(CONT'D)".as_slice()))
}

/// Whether the last of a line's rows ends so.
fn last_row_continued(alloc: Global, text: &str, rows: &[WrapRow]) -> Result<bool, AllocError>
    requires { All (λ row. RunParts text.now row.runs) rows.now }
    ensures { IfOk result (λ ends. ends ≡ last_row_continued text.now rows.now) }
{
    match rows.last() {
        Some(row) => ends_continued(alloc, text, row.runs.as_slice()),
        None => Ok(false),
    }
}

/// Whether the last row of a speech's cue, at its side, ends so.
fn cue_ends_continued(
    alloc: Global,
    lines: &Lines,
    side: Side,
    placed: &PlacedBlock<'_>,
) -> Result<bool, AllocError>
    requires { PlacedLies (line_texts lines.now.lines) placed.now }
    ensures { IfOk result (λ ends. ends ≡ cue_ends_continued (line_texts lines.now.lines) side placed.now) }
{
    let block = placed.block;
    match block.lines.first() {
        Some(cue) => {
            let text = block_text(lines, placed.first, cue);
            let width = width_of(side, block.kind, cue.part);
            let rows = wrap(alloc, text, &cue.runs, width)?;
            last_row_continued(alloc, text, &rows)
        }
        None => Ok(false),
    }
}

/// The place of the speech of the one who spoke last in blocks; none where there is no speech, or a heading stands behind it.
fn last_speech(blocks: &[PlacedBlock<'_>]) -> Option<usize>
    ensures none { IfNone result ((texts : List (List ℕ)) → last_speaker texts blocks.now ≡ None) }
    ensures some { IfSome result (SpeaksLast blocks.now) }
{
    let mut count = blocks.len();
    while count > 0 {
        count -= 1;
        let placed = &blocks[count];
        let block = placed.block;
        match block.kind {
            Kind::Heading => return None,
            Kind::Speech => return Some(count),
            _ => {}
        }
    }
    None
}

/// Who spoke last in blocks: in the last speech, unless a heading stands behind it.
fn last_speaker(
    alloc: Global,
    lines: &Lines,
    blocks: &[PlacedBlock<'_>],
) -> Result<Option<String>, AllocError>
    requires { All (PlacedLies (line_texts lines.now.lines)) blocks.now }
    ensures { IfOk result (λ last.
        option_map string_bytes last ≡ last_speaker (line_texts lines.now.lines) blocks.now) }
{
    match last_speech(blocks) {
        Some(place) => Ok(Some(speaker_name(alloc, lines, &blocks[place])?)),
        None => Ok(None),
    }
}

/// The same of blocks of a text before a change.
fn old_last_speaker(
    alloc: Global,
    old: &OldLines<'_>,
    blocks: &[PlacedBlock<'_>],
) -> Result<Option<String>, AllocError>
    requires { All (PlacedLies (line_texts old.now)) blocks.now }
    ensures { IfOk result (λ last. option_map string_bytes last ≡ last_speaker (line_texts old.now) blocks.now) }
{
    match last_speech(blocks) {
        Some(place) => Ok(Some(old_speaker_name(alloc, old, &blocks[place])?)),
        None => Ok(None),
    }
}

/// Who spoke last before a place of a text (docs/RULES.md, "Elements"). Where speakers who go on aren't told, nobody is
/// remembered.
#[derive(Drop)]
pub struct Speakers {
    on: bool,
    last: Option<String>,
}

impl Model for Speakers {
    ghost use Rattle.std.specs.Prelude.{option_map, string_bytes};
    ghost use Rattle.sp_layout.specs.Speaking.{SpeakersOf};

    ghost Value = { SpeakersOf };

    ghost view = { λ s. record { on = s.on; last = option_map string_bytes s.last } };
}

impl Speakers {
    /// At the beginning of a text, by whether speakers who go on are told.
    pub fn new(on: bool) -> Speakers
        ensures { result ≡ speakers_before on }
    {
        Speakers { on, last: None }
    }

    /// Behind blocks of a text, from its first one on, that lie in the lines, by whether speakers who go on are told. Only the
    /// last speech is read. The error is want of memory alone.
    pub fn behind(
        alloc: Global,
        lines: &Lines,
        blocks: &[PlacedBlock<'_>],
        on: bool,
    ) -> Result<Speakers, AllocError>
        requires { All (PlacedLies (line_texts lines.now.lines)) blocks.now }
        ensures { IfOk result (λ speakers. speakers ≡ speakers_after (line_texts lines.now.lines) on blocks.now) }
    {
        let last = if on {
            last_speaker(alloc, lines, blocks)?
        } else {
            None
        };
        Ok(Speakers { on, last })
    }

    /// The same behind blocks of a text before a change.
    pub fn behind_old(
        alloc: Global,
        old: &OldLines<'_>,
        blocks: &[PlacedBlock<'_>],
        on: bool,
    ) -> Result<Speakers, AllocError>
        requires { All (PlacedLies (line_texts old.now)) blocks.now }
        ensures { IfOk result (λ speakers. speakers ≡ speakers_after (line_texts old.now) on blocks.now) }
    {
        let last = if on {
            old_last_speaker(alloc, old, blocks)?
        } else {
            None
        };
        Ok(Speakers { on, last })
    }

    /// Whether the same one spoke last. Takes no memory.
    pub fn are_same(&self, other: &Speakers) -> bool
        ensures { IsTrue result ↔ self.now.last ≡ other.now.last }
    {
        match (&self.last, &other.last) {
            (None, None) => true,
            (Some(one), Some(other)) => one.as_str() == other.as_str(),
            _ => false,
        }
    }

    /// Passes a block that lies in the lines, and tells whether its speaker goes on, where it stands at this side.
    pub(crate) fn pass(
        &mut self,
        alloc: Global,
        lines: &Lines,
        side: Side,
        placed: &PlacedBlock<'_>,
    ) -> Result<bool, AllocError>
        requires { PlacedLies (line_texts lines.now.lines) placed.now }
        ensures goes_on { IfOk result (λ goes_on. goes_on ≡ (settled lines.now.lines side
            (named_block self.old.on (line_texts lines.now.lines) self.old.last placed.now)).continued) }
        ensures behind { OnOk result (self.new ≡ speakers_behind (line_texts lines.now.lines) self.old placed.now) }
    {
        if !self.on || !pass_block(alloc, &mut self.last, lines, placed)? {
            return Ok(false);
        }
        Ok(!cue_ends_continued(alloc, lines, side, placed)?)
    }
}
