//! The sides, written.
ghost use Rattle.std.specs.Prelude.{◌≡◌, ◌++◌, length, map, string_bytes, IfOk, OnOk};
ghost use Rattle.std.specs.List.{flat_map};
ghost use Rattle.spec_labels.specs.Labels.{label_text};
ghost use Rattle.spec_cast.specs.Groups.{scene_of_group, side_of_group};
ghost use Rattle.spec_cast.specs.Sides.{joined_labels, scene_text, sheets_in, sides_count, sides_of};

use crate::groups::{Group, by_name, by_scene};
use crate::keys::label_key;
use crate::speech::Said;
use indexmap::IndexSet;
use sp_labels::{Label, label_text};
use std::alloc::{AllocError, Global};

/// The sides: for each name, in order of first speech, the name and the scenes in which it speaks, each with the number of
/// its speeches there and the labels of their sheets (docs/RULES.md, "Cast sides"). These numbers add up to the number of
/// speeches. Time grows with the text of the speeches' names and labels. `AllocError` comes for want of memory alone.
pub fn sides(alloc: Global, said: &[Said]) -> Result<Vec<u8>, AllocError>
    ensures sides { IfOk result (λ bytes. bytes.items ≡ sides_of said.now) }
    ensures total { sides_count said.now ≡ length said.now }
{
    sides_bytes(alloc, said)
}

fn sides_bytes(alloc: Global, said: &[Said]) -> Result<Vec<u8>, AllocError>
    ensures { IfOk result (λ bytes. bytes.items ≡ sides_of said.now) }
{
    Ok(sides_text(alloc, said)?.into_bytes())
}

fn sides_text(alloc: Global, said: &[Said]) -> Result<String, AllocError>
    ensures { IfOk result (λ text. string_bytes text ≡ sides_of said.now) }
{
    let groups = by_name(alloc, said)?;
    let mut text = String::new(alloc);
    write_sides(alloc, &mut text, &groups)?;
    Ok(text)
}

fn write_sides(alloc: Global, out: &mut String, groups: &[Group<'_>]) -> Result<(), AllocError>
    ensures { OnOk result (string_bytes out.new ≡ string_bytes out.old ++ flat_map side_of_group groups.now) }
{
    for group in groups {
        write_side(alloc, out, group)?;
    }
    Ok(())
}

/// Writes the side of a name by its speeches.
fn write_side(alloc: Global, out: &mut String, group: &Group<'_>) -> Result<(), AllocError>
    ensures { OnOk result (string_bytes out.new ≡ string_bytes out.old ++ side_of_group group.now) }
{
    let Some(first) = group.spoken.first() else {
        return Ok(());
    };
    let said = first.said;
    let scenes = by_scene(alloc, group)?;
    write!(out, "{}\n", said.name)?;
    write_scenes(alloc, out, &scenes)
}

fn write_scenes(alloc: Global, out: &mut String, groups: &[Group<'_>]) -> Result<(), AllocError>
    ensures { OnOk result (string_bytes out.new ≡ string_bytes out.old ++ flat_map scene_of_group groups.now) }
{
    for group in groups {
        write_scene(alloc, out, group)?;
    }
    Ok(())
}

/// Writes a scene of a side by the speeches there.
fn write_scene(alloc: Global, out: &mut String, group: &Group<'_>) -> Result<(), AllocError>
    ensures { OnOk result (string_bytes out.new ≡ string_bytes out.old ++ scene_of_group group.now) }
{
    let Some(first) = group.spoken.first() else {
        return Ok(());
    };
    let said = first.said;
    let scene = scene_text(alloc, &said.scene)?;
    let count = group.spoken.len();
    let sheets = sheets_text(alloc, group)?;
    write!(out, "\t{scene}\t{count}\t{sheets}\n")
}

fn scene_text(alloc: Global, scene: &Option<Label>) -> Result<String, AllocError>
    ensures { IfOk result (λ text. string_bytes text ≡ scene_text scene.now) }
{
    match scene {
        Some(label) => label_text(alloc, label),
        None => String::from_str(alloc, "-"),
    }
}

/// The labels of the sheets of speeches, each once, as texts.
fn sheet_texts(alloc: Global, group: &Group<'_>) -> Result<Vec<String>, AllocError>
    ensures { IfOk result (λ texts. map string_bytes texts.items ≡ map label_text (sheets_in group.now)) }
{
    let mut sheets = IndexSet::new(alloc);
    let mut texts = Vec::new(alloc);
    for spoken in &group.spoken {
        let said = spoken.said;
        if sheets.insert(label_key(&said.sheet))? {
            texts.push(label_text(alloc, &said.sheet)?)?;
        }
    }
    Ok(texts)
}

fn sheets_text(alloc: Global, group: &Group<'_>) -> Result<String, AllocError>
    ensures { IfOk result (λ text. string_bytes text ≡ joined_labels (sheets_in group.now)) }
{
    let texts = sheet_texts(alloc, group)?;
    texts.join(alloc, ", ")
}
