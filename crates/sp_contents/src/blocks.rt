//! The blocks of a text, as a reply tells them.
ghost use Rattle.std.specs.Prelude.{◌≡◌, ◌≤◌, length, map, option_map, string_bytes, All, IfOk};
ghost use Rattle.spec_text.specs.Limits.{line_count_limit};
ghost use Rattle.spec_script.specs.BlockParts.{LineLies};
ghost use Rattle.spec_script.specs.Elements.{PlacedLies};
ghost use Rattle.spec_script.specs.Stanzas.{stanzas_of};
ghost use Rattle.spec_sheets.specs.Speakers.{visible_text};
ghost use Rattle.spec_machine.specs.Blocks.{block_reply, block_replies, kind_name, written_number};
ghost use Rattle.sp_contents.specs.Pairs.{is_second, opens_pair};
ghost use Rattle.sp_reread.specs.Cache.{texts_in};
ghost use Rattle.sp_contents.specs.Texts.{placed_text, visible_texts, replies_in};

use sp_blocks::{BlockLine, Kind, PlacedBlock, is_speech_kind, parts_text, shown_text};
use sp_reread::{Stanzas, placed_blocks};
use sp_text::Lines;
use sp_wire::BlockReply;
use std::alloc::{AllocError, Global};

/// The name of a kind of blocks.
fn kind_name(kind: Kind) -> &'static str
    ensures { result.now ≡ kind_name kind }
{
    match kind {
        Kind::Heading => "heading",
        Kind::Action => "action",
        Kind::Speech => "speech",
        Kind::Lyric => "lyric",
        Kind::Transition => "transition",
        Kind::Centred => "centred",
        Kind::PageBreak => "page_break",
        Kind::Section => "section",
        Kind::Synopsis => "synopsis",
        Kind::Title => "title",
    }
}

/// Whether a block may be the first speech of a pair.
fn opens_pair(placed: &PlacedBlock<'_>) -> bool
    ensures { result ≡ opens_pair placed.now }
{
    let block = placed.block;
    is_speech_kind(block.kind) && !block.caret
}

/// Whether a block is the second speech of a pair, by whether the block before it may be the first.
fn is_second(opened: bool, placed: &PlacedBlock<'_>) -> bool
    ensures { result ≡ is_second opened placed.now }
{
    let block = placed.block;
    opened && is_speech_kind(block.kind) && block.caret
}

/// The number that is written in the line of a block that lies in the lines; None where there is none. `AllocError` comes
/// for want of memory alone.
pub fn written_number(
    alloc: Global,
    lines: &Lines,
    placed: &PlacedBlock<'_>,
) -> Result<Option<String>, AllocError>
    requires { PlacedLies (texts_in lines.now) placed.now }
    ensures { IfOk result (λ number. option_map string_bytes number ≡ written_number (texts_in lines.now) placed.now) }
{
    let block = placed.block;
    let parts = block.number.as_slice();
    if parts.is_empty() {
        return Ok(None);
    }
    let line = lines.line(placed.first + block.first as usize);
    Ok(Some(parts_text(alloc, line.text, parts)?))
}

/// The visible text of a line of a block whose stanza begins at a place.
fn visible_text(
    alloc: Global,
    lines: &Lines,
    first: usize,
    line: &BlockLine,
) -> Result<String, AllocError>
    requires lies { LineLies (texts_in lines.now) first line.now }
    requires low { length lines.now.lines ≤ line_count_limit }
    ensures { IfOk result (λ text. string_bytes text ≡ visible_text (texts_in lines.now) first line.now) }
{
    let text = lines.line(first + line.offset as usize).text;
    shown_text(alloc, text, &line.runs)
}

/// The visible text of the first line of a block that lies in the lines; empty where it has none. `AllocError` comes for
/// want of memory alone.
pub fn first_text(
    alloc: Global,
    lines: &Lines,
    placed: &PlacedBlock<'_>,
) -> Result<String, AllocError>
    requires { PlacedLies (texts_in lines.now) placed.now }
    ensures { IfOk result (λ text. string_bytes text ≡ placed_text (texts_in lines.now) placed.now) }
{
    let block = placed.block;
    match block.lines.first() {
        Some(line) => visible_text(alloc, lines, placed.first, line),
        None => Ok(String::new(alloc)),
    }
}

/// The visible texts of lines of a block.
fn visible_texts(
    alloc: Global,
    lines: &Lines,
    first: usize,
    own: &[BlockLine],
) -> Result<Vec<String>, AllocError>
    requires lie { All (LineLies (texts_in lines.now) first) own.now }
    requires low { length lines.now.lines ≤ line_count_limit }
    ensures { IfOk result (λ texts. map string_bytes texts.items ≡ visible_texts (texts_in lines.now) first own.now) }
{
    let mut texts = Vec::with_capacity(alloc, own.len())?;
    for line in own {
        texts.push(visible_text(alloc, lines, first, line)?)?;
    }
    Ok(texts)
}

/// A block as a reply tells it, by whether it is the second speech of a pair.
fn block_reply(
    alloc: Global,
    lines: &Lines,
    dual: bool,
    placed: &PlacedBlock<'_>,
) -> Result<BlockReply, AllocError>
    requires { PlacedLies (texts_in lines.now) placed.now }
    ensures { IfOk result (λ reply. reply ≡ block_reply (texts_in lines.now) dual placed.now) }
{
    let block = placed.block;
    let first = placed.first as u64;
    Ok(BlockReply {
        kind: String::from_str(alloc, kind_name(block.kind))?,
        first: first + block.first as u64,
        last: first + block.last as u64,
        dual,
        number: written_number(alloc, lines, placed)?,
        lines: visible_texts(alloc, lines, placed.first, &block.lines)?,
    })
}

/// Blocks in order as a reply tells them.
fn replies_of(
    alloc: Global,
    lines: &Lines,
    blocks: &[PlacedBlock<'_>],
) -> Result<Vec<BlockReply>, AllocError>
    requires { All (PlacedLies (texts_in lines.now)) blocks.now }
    ensures { IfOk result (λ replies. replies.items ≡ replies_in (texts_in lines.now) blocks.now) }
{
    let mut replies = Vec::with_capacity(alloc, blocks.len())?;
    let mut opened = false;
    for placed in blocks {
        let dual = is_second(opened, placed);
        replies.push(block_reply(alloc, lines, dual, placed)?)?;
        opened = opens_pair(placed);
    }
    Ok(replies)
}

/// The blocks of a text as a reply tells them, in order, by its stanzas (docs/RULES.md, "Replies"). `AllocError` comes for
/// want of memory alone.
pub fn block_replies(
    alloc: Global,
    lines: &Lines,
    stanzas: &Stanzas,
) -> Result<Vec<BlockReply>, AllocError>
    requires { stanzas.now.stanzas ≡ stanzas_of (texts_in lines.now) }
    ensures { IfOk result (λ its. its.items ≡ block_replies (texts_in lines.now)) }
{
    let _count = lines.len();
    let blocks = placed_blocks(alloc, stanzas)?;
    replies_of(alloc, lines, &blocks)
}
