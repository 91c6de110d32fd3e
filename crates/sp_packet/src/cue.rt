//! The records that the cue above a page comes from.
ghost use Rattle.std.specs.Prelude.{◌≡◌, ◌^◌, ◌<◌, ◌≤◌, AllPairs, drop, length, take};
ghost use Rattle.std.specs.List.{prefix_len};
ghost use Rattle.sp_packet.specs.Cues.{is_cue_shape, place_with, places_by, reach, reach_row, speech_row};

use sp_fill::continues_speech;
use sp_gap::GapList;
use spec_pages::{RowKind, Shape};
use std::marker::Model;

/// Records from one place, from 0, to another, both included.
#[derive(Drop)]
pub struct Places {
    pub first: usize,
    pub last: usize,
}

impl Model for Places {
    ghost use Rattle.spec_packet.specs.SheetFacts.{PlacesOf};

    ghost Value = { PlacesOf };

    ghost view = { λ p. record { first = p.first; last = p.last } };
}

/// Whether the row is a cue's.
fn is_cue(shape: &Shape) -> bool
    ensures { result ≡ is_cue_shape shape.now }
{
    matches!(shape.kind, RowKind::Cue)
}

/// How many of the rows from one on are a cue's, or so many.
fn cue_rows(shapes: &GapList<Shape>, from: usize, most: usize) -> usize
    requires { from ≤ length shapes.now.items }
    ensures { result ≡ prefix_len is_cue_shape (take most (drop from shapes.now.items)) }
{
    let rows = most.min(shapes.len() - from);
    for count in 0..rows {
        if !is_cue(shapes.at(from + count)) {
            return count;
        }
    }
    rows
}

/// How far the cue of a speech reaches that begins with a row: to the first row behind it, or to the speech's last row.
fn reach(shapes: &GapList<Shape>, from: usize) -> usize
    requires { from ≤ length shapes.now.items }
    ensures value { result ≡ reach (drop from shapes.now.items) }
    ensures low { result < 2 ^ 32 }
{
    if from == shapes.len() {
        return 0;
    }
    let rest = shapes.at(from).rest as usize;
    cue_rows(shapes, from, rest + 1).min(rest)
}

/// The first row of the speech that a row goes on with.
fn speech_row(shapes: &GapList<Shape>, row: usize) -> usize
    requires { row < length shapes.now.items }
    ensures value { result ≡ speech_row shapes.now.items row }
    ensures low { result ≤ row }
{
    row.saturating_sub(shapes.at(row).index as usize)
}

/// The row to which the cue of that speech reaches, or the row itself, if that is behind.
fn reach_row(shapes: &GapList<Shape>, row: usize) -> usize
    requires { row < length shapes.now.items }
    ensures { result ≡ reach_row shapes.now.items row }
{
    let _rows = shapes.len();
    let from = speech_row(shapes, row);
    row.max(from + reach(shapes, from))
}

/// The place of the last record that begins at a row or before it, by halves.
fn place_with(starts: &[usize], row: usize) -> usize
    requires { AllPairs (λ one other. one ≤ other) starts.now }
    ensures { result ≡ place_with starts.now row }
{
    starts
        .partition_point(|start| *start <= row)
        .saturating_sub(1)
}

/// Where the row goes on with a speech, the records that the speech's cue comes from.
pub(crate) fn cue_places(starts: &[usize], shapes: &GapList<Shape>, row: usize) -> Option<Places>
    requires order { AllPairs (λ one other. one ≤ other) starts.now }
    requires inside { row < length shapes.now.items }
    ensures { result ≡ places_by starts.now shapes.now.items row }
{
    if !continues_speech(shapes.at(row)) {
        return None;
    }
    Some(Places {
        first: place_with(starts, speech_row(shapes, row)),
        last: place_with(starts, reach_row(shapes, row)),
    })
}
