//! The entries of an outline.
ghost use Rattle.std.specs.Prelude.{◌≡◌, ◌<◌, ◌≤◌, ◌+◌, ◌++◌, [], true, length, map, filter, drop, slice_range, slice_index_or, string_bytes, AllPairs, All, IfOk, OnOk};
ghost use Rattle.std.specs.Ordering.{is_lt};
ghost use Rattle.spec_text.specs.Lines.{line_texts};
ghost use Rattle.spec_script.specs.Elements.{PlacedLies};
ghost use Rattle.spec_labels.specs.Labels.{Below, label_cmp};
ghost use Rattle.spec_state.specs.Headings.{is_heading_block};
ghost use Rattle.spec_machine.specs.Outlines.{entries_of, scene_entry, scene_number};
ghost use Rattle.sp_outline.specs.Entries.{entry_of};
ghost use Rattle.sp_contents.specs.Walks.{AddsBlock, IsAbove, IsWalked, label_at, omitted_of};

use crate::scene_entries::Scenes;
use crate::{first_text, written_number};
use sp_blocks::{Kind, PlacedBlock};
use sp_labels::{Label, compare, label_text};
use sp_outline::Entry;
use sp_text::Lines;
use std::alloc::{AllocError, Global};

/// How many headings stand before a block, and how many of the scenes that are gone.
#[derive(Clone, Copy)]
struct Walk {
    headings: usize,
    gone: usize,
}

fn is_above(gone: &Label, label: &Label) -> bool
    ensures { result ≡ is_lt (label_cmp gone.now label.now) }
{
    compare(gone, label).is_lt()
}

/// The place of the first of the scenes that are gone, from a place on, to which a label isn't above.
fn gone_below(gone: &[Label], from: usize, label: &Label) -> usize
    requires { from ≤ length gone.now }
    ensures { IsAbove label.now gone.now from result }
{
    for place in from..gone.len() {
        if !is_above(&gone[place], label) {
            return place;
        }
    }
    gone.len()
}

/// The scenes that are gone.
fn gone_in(scenes: &Scenes) -> &[Label]
    ensures { result.now ≡ scenes.now.gone }
{
    &scenes.gone
}

/// The label of the heading behind so many others.
fn label_of(scenes: &Scenes, i: usize) -> &Label
    requires { i < length scenes.now.labels }
    ensures label { result.now ≡ label_at scenes.now.labels i }
    ensures few { i + 1 ≤ usize.MAX }
{
    &scenes.labels[i]
}

fn gone_part(gone: &[Label], from: usize, to: usize) -> &[Label]
    requires order { from ≤ to }
    requires within { to ≤ length gone.now }
    ensures { result.now ≡ slice_range gone.now from to }
{
    &gone[from..to]
}

fn gone_from(gone: &[Label], from: usize) -> &[Label]
    requires { from ≤ length gone.now }
    ensures { result.now ≡ drop from gone.now }
{
    &gone[from..]
}

/// Adds scenes that are gone.
fn add_gone(alloc: Global, entries: &mut Vec<Entry>, gone: &[Label]) -> Result<(), AllocError>
    ensures { OnOk result (map entry_of entries.new.items ≡ map entry_of entries.old.items ++ map omitted_of gone.now) }
{
    for gone_label in gone {
        let label = label_text(alloc, gone_label)?;
        entries.push(Entry::Omitted { label })?;
    }
    Ok(())
}

/// The number of a heading: the written one where scenes aren't locked, or else its label.
fn scene_number(
    alloc: Global,
    lines: &Lines,
    scenes: &Scenes,
    i: usize,
    placed: &PlacedBlock<'_>,
) -> Result<String, AllocError>
    requires lies { PlacedLies (line_texts lines.now.lines) placed.now }
    requires inside { i < length scenes.now.labels }
    ensures { IfOk result (λ number.
        string_bytes number ≡ scene_number scenes.now (line_texts lines.now.lines) i placed.now) }
{
    if !scenes.locked {
        if let Some(number) = written_number(alloc, lines, placed)? {
            return Ok(number);
        }
    }
    label_text(alloc, &scenes.labels[i])
}

/// A copy of the text at a place; an empty one where there is none.
fn text_at(alloc: Global, texts: &[String], i: usize) -> Result<String, AllocError>
    ensures { IfOk result (λ text. string_bytes text ≡ slice_index_or (map string_bytes texts.now) i []) }
{
    match texts.get(i) {
        Some(text) => text.clone(),
        None => Ok(String::new(alloc)),
    }
}

/// The entry of a heading behind so many others.
fn scene_entry(
    alloc: Global,
    lines: &Lines,
    scenes: &Scenes,
    i: usize,
    placed: &PlacedBlock<'_>,
) -> Result<Entry, AllocError>
    requires lies { PlacedLies (line_texts lines.now.lines) placed.now }
    requires inside { i < length scenes.now.labels }
    ensures { IfOk result (λ entry. entry_of entry ≡ scene_entry scenes.now (line_texts lines.now.lines) i placed.now) }
{
    Ok(Entry::Scene {
        number: scene_number(alloc, lines, scenes, i, placed)?,
        sheet: text_at(alloc, &scenes.sheets, i)?,
        text: first_text(alloc, lines, placed)?,
    })
}

/// Adds a heading, behind the scenes that are gone to which its label is the first above.
fn add_heading(
    alloc: Global,
    entries: &mut Vec<Entry>,
    lines: &Lines,
    scenes: &Scenes,
    walk: Walk,
    placed: &PlacedBlock<'_>,
) -> Result<Walk, AllocError>
    requires lies { PlacedLies (line_texts lines.now.lines) placed.now }
    requires heading { is_heading_block placed.now ≡ true }
    requires inside { walk.headings < length scenes.now.labels }
    requires rising { AllPairs Below scenes.now.gone }
    requires walked { IsWalked scenes.now.labels scenes.now.gone walk.headings walk.gone }
    ensures { IfOk result (λ next. AddsBlock scenes.now (line_texts lines.now.lines)
        placed.now entries.old.items entries.new.items walk.headings next.headings next.gone) }
{
    let i = walk.headings;
    let gone = gone_in(scenes);
    let to = gone_below(gone, walk.gone, label_of(scenes, i));
    add_gone(alloc, entries, gone_part(gone, walk.gone, to))?;
    entries.push(scene_entry(alloc, lines, scenes, i, placed)?)?;
    Ok(Walk {
        headings: i + 1,
        gone: to,
    })
}

/// Adds the entries at a block.
fn add_block(
    alloc: Global,
    entries: &mut Vec<Entry>,
    lines: &Lines,
    scenes: &Scenes,
    walk: Walk,
    placed: &PlacedBlock<'_>,
) -> Result<Walk, AllocError>
    requires lies { PlacedLies (line_texts lines.now.lines) placed.now }
    requires inside { is_heading_block placed.now ≡ true → walk.headings < length scenes.now.labels }
    requires rising { AllPairs Below scenes.now.gone }
    requires walked { IsWalked scenes.now.labels scenes.now.gone walk.headings walk.gone }
    ensures { IfOk result (λ next. AddsBlock scenes.now (line_texts lines.now.lines)
        placed.now entries.old.items entries.new.items walk.headings next.headings next.gone) }
{
    let block = placed.block;
    match block.kind {
        Kind::Section => {
            let depth = block.depth;
            let text = first_text(alloc, lines, placed)?;
            entries.push(Entry::Section { depth, text })?;
            Ok(walk)
        }
        Kind::Synopsis => {
            let text = first_text(alloc, lines, placed)?;
            entries.push(Entry::Synopsis { text })?;
            Ok(walk)
        }
        Kind::Heading => add_heading(alloc, entries, lines, scenes, walk, placed),
        _ => Ok(walk),
    }
}

/// The entries of blocks of these lines, with what is told of their headings, as many as there are labels.
pub fn entries_of(
    alloc: Global,
    lines: &Lines,
    scenes: &Scenes,
    blocks: &[PlacedBlock<'_>],
) -> Result<Vec<Entry>, AllocError>
    requires lie { All (PlacedLies (line_texts lines.now.lines)) blocks.now }
    requires labels { length scenes.now.labels ≡ length (filter is_heading_block blocks.now) }
    requires rising { AllPairs Below scenes.now.gone }
    ensures { IfOk result (λ entries.
        map entry_of entries.items ≡ entries_of scenes.now (line_texts lines.now.lines) blocks.now) }
{
    let mut entries = Vec::new(alloc);
    let mut walk = Walk {
        headings: 0,
        gone: 0,
    };
    for placed in blocks {
        walk = add_block(alloc, &mut entries, lines, scenes, walk, placed)?;
    }
    add_gone(alloc, &mut entries, gone_from(gone_in(scenes), walk.gone))?;
    Ok(entries)
}
