//! Clusters of a line: where they stand, and how wide they are.
ghost use Rattle.std.specs.Prelude.{◌≡◌, ◌≢◌, ◌+◌, ◌*◌, ◌^◌, ◌<◌, ◌≤◌, [], ◌∷◌, ◌++◌, true, length, slice_index, IfOk, MatchOption, OnOk};
ghost use Rattle.std.specs.List.{list_all};
ghost use Rattle.unicode_segmentation.specs.Grapheme.{graphemes};
ghost use Rattle.spec_script.specs.Runs.{RunParts};
ghost use Rattle.spec_pages.specs.Clusters.{is_printable, is_space, width_of, columns_of, clusters_at, byte_clusters, clusters_of};
ghost use Rattle.spec_pages.specs.Wrapping.{total_width};
ghost use Rattle.sp_measure.specs.Plain.{plain_length};

use crate::parts::{part_end, plain_length};
use spec_pages::Cluster;
use spec_script::Run;
use std::alloc::{AllocError, Global};
use unicode_segmentation::UnicodeSegmentation;
use unicode_width::UnicodeWidthStr;

/// The byte that a text has alone.
fn lone_byte(piece: &str) -> Option<u8>
    ensures { MatchOption result (length piece.now ≢ 1) (λ byte. piece.now ≡ byte ∷ []) }
{
    match piece.as_bytes() {
        [byte] => Some(*byte),
        _ => None,
    }
}

/// Whether a cluster is one space or one tab alone.
fn is_space(piece: &str) -> bool
    ensures { result ≡ is_space piece.now }
{
    match lone_byte(piece) {
        Some(byte) => byte == b' ' || byte == b'\t',
        None => false,
    }
}

/// Whether a byte is printable ASCII.
fn is_printable_byte(byte: u8) -> bool
    ensures { result ≡ is_printable byte }
{
    (0x20..=0x7E).contains(&byte)
}

/// The columns of a cluster.
fn width_of(piece: &str) -> u16
    requires { length piece.now ≤ 4096 }
    ensures value { result ≡ width_of piece.now }
    ensures bound { result ≤ 4 * length piece.now }
{
    match lone_byte(piece) {
        Some(b'\t') => 4,
        Some(byte) if is_printable_byte(byte) => 1,
        _ => piece.width() as u16,
    }
}

/// Whether bytes are printable ASCII alone.
pub fn all_printable(bytes: &[u8]) -> bool
    ensures { result ≡ list_all is_printable bytes.now }
{
    let mut printable = true;
    for byte in bytes {
        printable &= is_printable_byte(*byte);
    }
    printable
}

/// Whether a text is printable ASCII alone, of which each byte is a cluster of one column.
pub fn is_printable(text: &str) -> bool
    ensures { result ≡ list_all is_printable text.now }
{
    all_printable(text.as_bytes())
}

/// The columns that a text of at most 4,096 bytes takes: the sum of the widths of its clusters, the text as one run
/// (docs/RULES.md, "Columns"). It is at most four columns a byte.
pub fn columns(text: &str) -> u64
    requires { length text.now ≤ 4096 }
    ensures value { result ≡ columns_of text.now }
    ensures bound { result ≤ 4 * length text.now }
{
    if is_printable(text) {
        return text.len() as u64;
    }
    let mut total = 0;
    for piece in text.graphemes(true) {
        total += width_of(piece) as u64;
    }
    total
}

/// Adds a cluster for each of these printable bytes, the first of which stands at the place `from` of its line.
fn add_bytes(out: &mut Vec<Cluster>, bytes: &[u8], style: u8, from: u16) -> Result<(), AllocError>
    requires { from + length bytes.now ≤ 4096 }
    ensures items { OnOk result (out.new.items ≡ out.old.items ++ byte_clusters style from bytes.now) }
    ensures wide { OnOk result (total_width out.new.items ≡ total_width out.old.items + length bytes.now) }
{
    let mut at = from;
    for byte in bytes {
        out.push(Cluster {
            from: at,
            to: at + 1,
            width: 1,
            style,
            space: *byte == b' ',
        })?;
        at += 1;
    }
    Ok(())
}

/// The cluster of a character that begins at the place `from` of its line, and that is printable ASCII or a letter from U+00C0 to
/// U+02FF.
fn plain_cluster(part: &str, style: u8, from: u16) -> Cluster
    requires small { from + length part.now ≤ 4096 }
    requires some { 0 < length part.now }
    requires plain { length part.now ≡ plain_length (slice_index part.now 0) }
    ensures value { result ∷ [] ≡ clusters_at style from (graphemes true part.now) }
    ensures wide { result.width ≤ 1 }
{
    Cluster {
        from,
        to: from + part.len() as u16,
        width: 1,
        style,
        space: part.as_bytes()[0] == b' ',
    }
}

/// Adds the clusters of a part of a text, which begins at the place `from` of its line.
fn add_pieces(out: &mut Vec<Cluster>, part: &str, style: u8, from: u16) -> Result<(), AllocError>
    requires { from + length part.now ≤ 4096 }
    ensures items { OnOk result (out.new.items ≡ out.old.items ++ clusters_at style from (graphemes true part.now)) }
    ensures wide { OnOk result (total_width out.new.items ≤ total_width out.old.items + 4 * length part.now) }
{
    let mut at = from;
    for piece in part.graphemes(true) {
        let to = at + piece.len() as u16;
        out.push(Cluster {
            from: at,
            to,
            width: width_of(piece),
            style,
            space: is_space(piece),
        })?;
        at = to;
    }
    Ok(())
}

/// The same of a part that is one such character, or of any other.
fn add_part(out: &mut Vec<Cluster>, part: &str, style: u8, from: u16) -> Result<(), AllocError>
    requires small { from + length part.now ≤ 4096 }
    requires some { 0 < length part.now }
    ensures items { OnOk result (out.new.items ≡ out.old.items ++ clusters_at style from (graphemes true part.now)) }
    ensures wide { OnOk result (total_width out.new.items ≤ total_width out.old.items + 4 * length part.now) }
{
    if part.len() != plain_length(part.as_bytes()[0]) {
        return add_pieces(out, part, style, from);
    }
    out.push(plain_cluster(part, style, from))?;
    Ok(())
}

/// Adds the clusters of a run's text, which begins at the place `from` of its line.
fn add_clusters(out: &mut Vec<Cluster>, text: &str, style: u8, from: u16) -> Result<(), AllocError>
    requires { from + length text.now ≤ 4096 }
    ensures items { OnOk result (out.new.items ≡ out.old.items ++ clusters_at style from (graphemes true text.now)) }
    ensures wide { OnOk result (total_width out.new.items ≤ total_width out.old.items + 4 * length text.now) }
{
    if is_printable(text) {
        return add_bytes(out, text.as_bytes(), style, from);
    }
    let mut at = 0;
    while at < text.len() {
        let end = part_end(text, at);
        add_part(out, &text[at..end], style, from + at as u16)?;
        at = end;
    }
    Ok(())
}

/// The clusters of a line, run after run.
pub fn clusters_of(alloc: Global, text: &str, runs: &[Run]) -> Result<Vec<Cluster>, AllocError>
    requires small { length text.now ≤ 4096 }
    requires parts { RunParts text.now runs.now }
    ensures items { IfOk result (λ v. v.items ≡ clusters_of text.now runs.now) }
    ensures wide { IfOk result (λ v. total_width v.items < 2 ^ 32) }
{
    let mut out = Vec::with_capacity(alloc, text.len())?;
    for run in runs {
        let part = &text[run.from as usize..run.to as usize];
        add_clusters(&mut out, part, run.style, run.from as u16)?;
    }
    Ok(out)
}
