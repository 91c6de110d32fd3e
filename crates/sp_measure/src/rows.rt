//! The rows of a line.
ghost use Rattle.std.specs.Prelude.{◌≡◌, ◌^◌, ◌<◌, ◌≤◌, length, map, max, All, IfOk, IfSome};
ghost use Rattle.spec_script.specs.Runs.{RunParts};
ghost use Rattle.spec_pages.specs.Clusters.{clusters_of};
ghost use Rattle.spec_pages.specs.Wrapping.{wrapped, total_width, row_of, rows_of};
ghost use Rattle.sp_measure.specs.Shown.{shown_bytes};

use crate::clusters::{all_printable, clusters_of, is_printable};
use crate::cuts::{first_cut, rest_after, row_before};
use crate::list::{ClusterList, Printable};
use crate::row_runs::RowRuns;
use crate::shown::{PrintableRuns, shown_bytes};
use spec_script::Run;
use std::alloc::{AllocError, Global};
use std::marker::Model;

/// Lines of more runs have clusters made of them, since each row goes over all runs of its line.
const FEW_RUNS: usize = 16;

/// A row of a line (docs/RULES.md, "Wrapping"): its runs, by places of bytes in the line, and its width in columns.
#[derive(Drop)]
pub struct WrapRow {
    pub runs: RowRuns,
    pub width: u32,
}

impl Model for WrapRow {
    ghost use Rattle.spec_pages.specs.Wrapping.{WrappedRow};
    ghost use Rattle.sp_measure.specs.RowRuns.{row_runs};

    ghost Value = { WrappedRow };

    ghost view = { λ r. record { runs = row_runs r.runs; width = r.width } };
}

/// The clusters of a line that shows one run of printable text; of another they have to be made.
fn printable_of<'a>(text: &'a str, runs: &[Run]) -> Option<Printable<'a>>
    requires small { length text.now ≤ 4096 }
    requires parts { RunParts text.now runs.now }
    ensures value { IfSome result (λ clusters. clusters ≡ clusters_of text.now runs.now) }
    ensures wide { IfSome result (λ clusters. total_width clusters < 2 ^ 32) }
{
    let [run] = runs else {
        return None;
    };
    let part = &text[run.from as usize..run.to as usize];
    if !is_printable(part) {
        return None;
    }
    Some(Printable {
        bytes: part.as_bytes(),
        style: run.style,
        from: run.from,
    })
}

/// The clusters of a line whose runs show these bytes, where they are printable.
fn printable_runs<'a>(text: &'a str, runs: &'a [Run], bytes: &'a [u8]) -> Option<PrintableRuns<'a>>
    requires parts { RunParts text.now runs.now }
    requires bytes { bytes.now ≡ shown_bytes text.now runs.now }
    requires few { length bytes.now ≤ 16384 }
    ensures value { IfSome result (λ clusters. clusters ≡ clusters_of text.now runs.now) }
    ensures wide { IfSome result (λ clusters. total_width clusters < 2 ^ 32) }
{
    if !all_printable(bytes) {
        return None;
    }
    Some(PrintableRuns {
        text,
        runs,
        skip: 0,
        bytes,
    })
}

/// The rows of a line's clusters.
fn rows_of<C: ClusterList>(
    alloc: Global,
    clusters: C,
    width: u32,
) -> Result<Vec<WrapRow>, AllocError>
    requires { total_width (C.clusters clusters) < 2 ^ 32 }
    ensures { IfOk result (λ v. v.items ≡ map row_of (rows_of width (C.clusters clusters))) }
{
    let mut rows = Vec::new(alloc);
    let mut rest = clusters;
    loop {
        let cut = first_cut(&rest, width);
        rows.push(row_before(cut, &rest).row(alloc)?)?;
        rest = rest_after(cut, &rest);
        if rest.count() == 0 {
            return Ok(rows);
        }
    }
}

/// The rows of a line at a width.
fn wrapped(alloc: Global, text: &str, runs: &[Run], width: u32) -> Result<Vec<WrapRow>, AllocError>
    requires small { length text.now ≤ 4096 }
    requires parts { RunParts text.now runs.now }
    ensures { IfOk result (λ v. v.items ≡ wrapped text.now runs.now width) }
{
    if let Some(clusters) = printable_of(text, runs) {
        return rows_of(alloc, clusters, width);
    }
    if runs.len() > 1 && runs.len() <= FEW_RUNS {
        let bytes = shown_bytes(alloc, text, runs)?;
        if let Some(clusters) = printable_runs(text, runs, &bytes) {
            return rows_of(alloc, clusters, width);
        }
    }
    let clusters = clusters_of(alloc, text, runs)?;
    rows_of(alloc, clusters.as_slice(), width)
}

/// The rows of a line at a width in columns that is above 0 (docs/RULES.md, "Wrapping"). The line has at most 4,096
/// bytes, and the runs are the parts of it that are shown, by places of bytes. There is at least one row, and the runs
/// of each row are parts of the line too. The error is want of memory alone.
pub fn wrap(alloc: Global, text: &str, runs: &[Run], width: u32) -> Result<Vec<WrapRow>, AllocError>
    requires small { length text.now ≤ 4096 }
    requires parts { RunParts text.now runs.now }
    requires room { 0 < width }
    ensures value { IfOk result (λ v. v.items ≡ wrapped text.now runs.now width) }
    ensures some { IfOk result (λ v. 0 < length v.items) }
    ensures few { IfOk result (λ v. length v.items ≤ max 1 (length text.now)) }
    ensures parts { IfOk result (λ v. All (λ r. RunParts text.now r.runs) v.items) }
{
    wrapped(alloc, text, runs, width)
}
