//! What is seen of each byte of a line: its style, or nothing where it is removed.
ghost use Rattle.std.specs.Prelude.{◌≡◌, ◌<◌, ◌≤◌, ◌+◌, ◌^◌, length, map, IfOk, OnOk};
ghost use Rattle.std.specs.List.{range_with_len};
ghost use Rattle.spec_script.specs.Emphasis.{looks_of, markers_of, pairs_of, size_of};
ghost use Rattle.sp_emph.specs.Layering.{AreWithin, Changes, styled_between, hidden_between, styled_inside, hidden_spent, plain_look, add_layer, add_layers};

use crate::markers::markers_of;
use crate::marks::{is_escape, size_of, style_of};
use crate::pairs::pairs_of;
use spec_script::{Layer, Pair};
use std::alloc::{AllocError, Global};

/// Adds a layer's style to what is seen between two places.
fn add_style(looks: &mut [Option<u8>], layer: Layer, from: usize, to: usize)
    requires order { from ≤ to }
    requires within { to ≤ length looks.old }
    ensures { Changes (styled_between layer from to) looks.old looks.new }
{
    for place in from..to {
        looks[place] = looks[place].map(|style| style | style_of(layer));
    }
}

/// Hides a marker of a layer.
fn hide_marker(looks: &mut [Option<u8>], layer: Layer, marker: usize)
    requires { marker + size_of layer ≤ length looks.old }
    ensures { Changes (hidden_between marker (marker + size_of layer)) looks.old looks.new }
{
    looks[marker] = None;
    match layer {
        Layer::Italic | Layer::Underline => {}
        Layer::Bold => looks[marker + 1] = None,
        Layer::BoldItalic => {
            looks[marker + 1] = None;
            looks[marker + 2] = None;
        }
    }
}

/// Adds a layer's style to what is seen inside its pairs. Pairs may overlap, and each place is written once.
fn add_styles(looks: &mut [Option<u8>], layer: Layer, pairs: &[Pair])
    requires { AreWithin layer pairs.now (length looks.old) }
    ensures { Changes (styled_inside layer pairs.now) looks.old looks.new }
{
    let size = size_of(layer);
    let mut done = 0;
    for pair in pairs {
        let from = done.max(pair.first as usize + size);
        let to = pair.second as usize;
        if to <= from {
            continue;
        }
        add_style(looks, layer, from, to);
        done = to;
    }
}

/// Hides the used markers of a layer.
fn hide_markers(looks: &mut [Option<u8>], layer: Layer, pairs: &[Pair])
    requires { AreWithin layer pairs.now (length looks.old) }
    ensures { Changes (hidden_spent layer pairs.now) looks.old looks.new }
{
    for pair in pairs {
        hide_marker(looks, layer, pair.first as usize);
        hide_marker(looks, layer, pair.second as usize);
    }
}

/// Adds a layer to what is seen of a line: its style inside its pairs, and nothing on their markers.
fn add_layer(
    alloc: Global,
    looks: &mut [Option<u8>],
    layer: Layer,
    line: &[u8],
    markers: &[u32],
) -> Result<(), AllocError>
    requires short { length line.now ≤ 4096 }
    requires looks { length looks.old ≡ length line.now }
    requires all { markers.now ≡ markers_of layer line.now }
    ensures { OnOk result (Changes (add_layer layer (pairs_of layer line.now)) looks.old looks.new) }
{
    let pairs = pairs_of(alloc, layer, line, markers)?;
    add_styles(looks, layer, &pairs);
    hide_markers(looks, layer, &pairs);
    Ok(())
}

/// Adds all layers to what is seen of a line.
fn add_layers(alloc: Global, looks: &mut [Option<u8>], line: &[u8]) -> Result<(), AllocError>
    requires short { length line.now ≤ 4096 }
    requires looks { length looks.old ≡ length line.now }
    ensures { OnOk result (Changes (add_layers line.now) looks.old looks.new) }
{
    let markers = markers_of(alloc, line)?;
    add_layer(alloc, looks, Layer::Italic, line, &markers.italic)?;
    add_layer(alloc, looks, Layer::Bold, line, &markers.bold)?;
    add_layer(alloc, looks, Layer::BoldItalic, line, &markers.bold_italic)?;
    add_layer(alloc, looks, Layer::Underline, line, &markers.underline)?;
    Ok(())
}

/// What is seen of a byte without any layer: nothing, where it is a `\` that is removed.
fn plain_look(line: &[u8], place: usize) -> Option<u8>
    requires { place < 2 ^ 63 }
    ensures { result ≡ plain_look line.now place }
{
    if is_escape(line, place) {
        None
    } else {
        Some(0)
    }
}

fn plain_looks(alloc: Global, line: &[u8]) -> Result<Vec<Option<u8>>, AllocError>
    requires { length line.now ≤ 4096 }
    ensures { IfOk result (λ v. v.items ≡ map (plain_look line.now) (range_with_len 0 (length line.now))) }
{
    if !line.contains(&b'\\') {
        let mut looks = Vec::new(alloc);
        looks.resize(line.len(), Some(0))?;
        return Ok(looks);
    }
    (0..line.len())
        .map(|place| plain_look(line, place))
        .collect(alloc)
}

/// What is seen of each byte of a line.
pub fn looks_of(alloc: Global, line: &[u8]) -> Result<Vec<Option<u8>>, AllocError>
    requires { length line.now ≤ 4096 }
    ensures { IfOk result (λ v. v.items ≡ looks_of line.now) }
{
    let mut looks = plain_looks(alloc, line)?;
    add_layers(alloc, &mut looks, line)?;
    Ok(looks)
}
