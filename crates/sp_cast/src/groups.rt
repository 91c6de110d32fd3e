//! Speeches gathered by their names or by their scenes, in order of the first of each.
ghost use Rattle.std.specs.Prelude.{◌≡◌, ◌≤◌, ◌∷◌, ◌++◌, [], length, bytes_eq, IfOk, OnOk};
ghost use Rattle.spec_cast.specs.Groups.{add_at, grouped};
ghost use Rattle.spec_cast.specs.Sides.{name_of, scene_eq, scene_of};
ghost use Rattle.sp_cast.specs.Keys.{lent_text, scene_of_key, IsAdded};

use crate::keys::{LabelKey, scene_key};
use crate::speech::Said;
use indexmap::IndexSet;
use std::alloc::{AllocError, Global};
use std::marker::Model;

/// A speech, lent.
#[derive(Drop)]
pub(crate) struct Spoken<'a> {
    pub said: &'a Said,
}

impl<'a> Model for Spoken<'a> {
    ghost use Rattle.spec_cast.specs.Sides.{SaidOf};

    ghost Value = { SaidOf };

    ghost view = { λ s. s.said.now };
}

/// Speeches with a name or a scene in common, in order.
#[derive(Drop)]
pub(crate) struct Group<'a> {
    pub spoken: Vec<Spoken<'a>>,
}

impl<'a> Model for Group<'a> {
    ghost use Rattle.std.specs.Prelude.{List};
    ghost use Rattle.spec_cast.specs.Sides.{SaidOf};

    ghost Value = { List SaidOf };

    ghost view = { λ g. g.spoken.items };
}

fn add<'a>(group: &mut Group<'a>, said: &'a Said) -> Result<(), AllocError>
    ensures { OnOk result (group.new ≡ group.old ++ said.now ∷ []) }
{
    group.spoken.push(Spoken { said })?;
    Ok(())
}

/// A group of one speech.
fn alone<'a>(alloc: Global, said: &'a Said) -> Result<Group<'a>, AllocError>
    ensures { IfOk result (λ group. group ≡ said.now ∷ []) }
{
    let mut group = Group {
        spoken: Vec::new(alloc),
    };
    add(&mut group, said)?;
    Ok(group)
}

/// Adds a speech to the group at a place, or behind all as a group of its own.
fn add_at<'a>(
    alloc: Global,
    groups: &mut Vec<Group<'a>>,
    place: usize,
    said: &'a Said,
) -> Result<(), AllocError>
    requires { place ≤ length groups.old.items }
    ensures { OnOk result (groups.new.items ≡ add_at groups.old.items place said.now) }
{
    match groups.get_mut(place) {
        Some(group) => add(group, said),
        None => {
            groups.push(alone(alloc, said)?)?;
            Ok(())
        }
    }
}

/// The speeches of each name.
pub(crate) fn by_name(alloc: Global, all: &[Said]) -> Result<Vec<Group<'_>>, AllocError>
    ensures { IfOk result (λ groups. groups.items ≡ grouped bytes_eq name_of all.now) }
{
    let mut names = IndexSet::new(alloc);
    let mut groups = Vec::new(alloc);
    for said in all {
        add_by_name(alloc, &mut names, &mut groups, said)?;
    }
    Ok(groups)
}

fn add_by_name<'a>(
    alloc: Global,
    names: &mut IndexSet<&'a str>,
    groups: &mut Vec<Group<'a>>,
    said: &'a Said,
) -> Result<(), AllocError>
    requires { length names.old.keys ≡ length groups.old.items }
    ensures { OnOk result
        (IsAdded lent_text bytes_eq name_of names.old.keys names.new.keys groups.old.items groups.new.items said.now) }
{
    let (place, _) = names.insert_full(said.name.as_str())?;
    add_at(alloc, groups, place, said)
}

/// Those of each scene among the speeches of a group.
pub(crate) fn by_scene<'a>(alloc: Global, group: &Group<'a>) -> Result<Vec<Group<'a>>, AllocError>
    ensures { IfOk result (λ groups. groups.items ≡ grouped scene_eq scene_of group.now) }
{
    let mut scenes = IndexSet::new(alloc);
    let mut groups = Vec::new(alloc);
    for spoken in &group.spoken {
        add_by_scene(alloc, &mut scenes, &mut groups, spoken.said)?;
    }
    Ok(groups)
}

fn add_by_scene<'a>(
    alloc: Global,
    scenes: &mut IndexSet<Option<LabelKey<'a>>>,
    groups: &mut Vec<Group<'a>>,
    said: &'a Said,
) -> Result<(), AllocError>
    requires { length scenes.old.keys ≡ length groups.old.items }
    ensures { OnOk result (IsAdded scene_of_key scene_eq scene_of scenes.old.keys scenes.new.keys groups.old.items
        groups.new.items said.now) }
{
    let (place, _) = scenes.insert_full(scene_key(said))?;
    add_at(alloc, groups, place, said)
}
