//! The markers of all layers.
ghost use Rattle.std.specs.Prelude.{◌≡◌, ◌+◌, ◌^◌, ◌<◌, ◌≤◌, List, ℕ, false, length, IfOk, OnOk};
ghost use Rattle.sp_emph.specs.Markers.{AreBelow, HasOneMore, begins_run, has_mark, layer_at, star_layer};

use crate::marks::is_mark;
use memchr::memchr2;
use spec_script::Layer;
use std::alloc::{AllocError, Global};

/// Whether a longest run of a layer's marks begins at a place.
fn begins_run(layer: Layer, line: &[u8], place: usize) -> bool
    ensures { result ≡ begins_run layer line.now place }
{
    is_mark(layer, line, place) && !(place > 0 && is_mark(layer, line, place - 1))
}

/// The layer of a longest run of `*` that begins at a place, by its length.
fn star_layer(line: &[u8], place: usize) -> Option<Layer>
    requires { place < 2 ^ 62 }
    ensures { result ≡ star_layer line.now place }
{
    if !is_mark(Layer::Italic, line, place + 1) {
        Some(Layer::Italic)
    } else if !is_mark(Layer::Italic, line, place + 2) {
        Some(Layer::Bold)
    } else if !is_mark(Layer::Italic, line, place + 3) {
        Some(Layer::BoldItalic)
    } else {
        None
    }
}

/// The layer that has a marker at a place.
fn layer_at(line: &[u8], place: usize) -> Option<Layer>
    requires { place < 2 ^ 62 }
    ensures { result ≡ layer_at line.now place }
{
    if begins_run(Layer::Italic, line, place) {
        star_layer(line, place)
    } else if begins_run(Layer::Underline, line, place)
        && !is_mark(Layer::Underline, line, place + 1)
    {
        Some(Layer::Underline)
    } else {
        None
    }
}

/// The first place, from one on, at which `*` or `_` stands, or else the end of the line.
fn next_mark(line: &[u8], from: usize) -> usize
    requires { from ≤ length line.now }
    ensures order { from ≤ result }
    ensures within { result ≤ length line.now }
    ensures bare { (k : ℕ) → from ≤ k → k < result → has_mark line.now k ≡ false }
{
    match memchr2(b'*', b'_', &line[from..]) {
        Some(next) => from + next,
        None => line.len(),
    }
}

/// The markers of each layer by their places, from left to right.
#[derive(Drop)]
pub struct Markers {
    pub italic: Vec<u32>,
    pub bold: Vec<u32>,
    pub bold_italic: Vec<u32>,
    pub underline: Vec<u32>,
}

impl Markers {
    fn new(alloc: Global) -> Self
        ensures { (line : List ℕ) → AreBelow line 0 result }
    {
        Markers {
            italic: Vec::new(alloc),
            bold: Vec::new(alloc),
            bold_italic: Vec::new(alloc),
            underline: Vec::new(alloc),
        }
    }

    fn push(&mut self, layer: Layer, place: u32) -> Result<(), AllocError>
        ensures { OnOk result (HasOneMore layer place self.old self.new) }
    {
        match layer {
            Layer::Italic => self.italic.push(place)?,
            Layer::Bold => self.bold.push(place)?,
            Layer::BoldItalic => self.bold_italic.push(place)?,
            Layer::Underline => self.underline.push(place)?,
        }
        Ok(())
    }

    /// Adds the marker at a place, if one begins there.
    fn add(&mut self, line: &[u8], place: usize) -> Result<(), AllocError>
        requires short { place < 4096 }
        requires below { AreBelow line.now place self.old }
        ensures { OnOk result (AreBelow line.now (place + 1) self.new) }
    {
        match layer_at(line, place) {
            Some(layer) => self.push(layer, place as u32),
            None => Ok(()),
        }
    }
}

/// The markers of a line.
pub fn markers_of(alloc: Global, line: &[u8]) -> Result<Markers, AllocError>
    requires { length line.now ≤ 4096 }
    ensures { IfOk result (AreBelow line.now (length line.now)) }
{
    let mut markers = Markers::new(alloc);
    let mut place = next_mark(line, 0);
    while place < line.len() {
        markers.add(line, place)?;
        place = next_mark(line, place + 1);
    }
    Ok(markers)
}
