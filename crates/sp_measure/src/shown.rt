//! Printable text that the runs of a line show.
ghost use Rattle.std.specs.Prelude.{◌≡◌, ◌==◌, ◌&&◌, ◌+◌, ◌≤◌, ◌++◌, ℕ, List, [], All, length, take, drop, IfOk};
ghost use Rattle.spec_script.specs.Runs.{RunParts};
ghost use Rattle.spec_pages.specs.declared.Cluster.{Cluster};
ghost use Rattle.spec_pages.specs.Clusters.{byte_clusters};
ghost use Rattle.spec_pages.specs.Wrapping.{runs_of};
ghost use Rattle.sp_measure.specs.RowRuns.{row_runs};
ghost use Rattle.sp_measure.specs.Shown.{EndsIn, runs_behind, shown_bytes, shown_clusters};

use crate::list::ClusterList;
use crate::row_runs::RowRuns;
use crate::rows::WrapRow;
use spec_script::Run;
use std::alloc::{AllocError, Global};
use std::marker::Model;

/// The bytes that runs show, one run after the other.
pub fn shown_bytes(alloc: Global, text: &str, runs: &[Run]) -> Result<Vec<u8>, AllocError>
    requires small { length text.now ≤ 4096 }
    requires parts { RunParts text.now runs.now }
    ensures items { IfOk result (λ v. v.items ≡ shown_bytes text.now runs.now) }
    ensures few { IfOk result (λ v. length v.items ≤ 16384) }
{
    let mut bytes = Vec::with_capacity(alloc, text.len())?;
    for run in runs {
        let part = &text[run.from as usize..run.to as usize];
        bytes.extend_from_slice(part.as_bytes())?;
    }
    Ok(bytes)
}

/// Whether a run begins where another ends, in its style.
fn goes_on(last: Run, run: Run) -> bool
    ensures { result ≡ ((last.to == run.from) && (last.style == run.style)) }
{
    last.to == run.from && last.style == run.style
}

/// Puts a part of a run behind the last run, which it makes longer or ends. A part without bytes changes nothing.
fn add_part(done: &mut Vec<Run>, last: Option<Run>, part: Run) -> Result<Option<Run>, AllocError>
    ensures { IfOk result (λ now. (bytes : List ℕ) (more : List Cluster) → part.from + length bytes ≡ part.to
        → done.new.items ++ runs_behind now more
        ≡ done.old.items ++ runs_behind last (byte_clusters part.style part.from bytes ++ more)) }
{
    if part.from == part.to {
        return Ok(last);
    }
    let Some(before) = last else {
        return Ok(Some(part));
    };
    if goes_on(before, part) {
        return Ok(Some(Run {
            from: before.from,
            to: part.to,
            style: before.style,
        }));
    }
    done.push(before)?;
    Ok(Some(part))
}

/// The runs of a row, the last of which may stand apart.
fn joined_runs(done: Vec<Run>, last: Option<Run>) -> Result<RowRuns, AllocError>
    ensures { IfOk result (λ v. row_runs v ≡ done.items ++ runs_behind last []) }
{
    let mut done = done;
    let Some(run) = last else {
        return Ok(RowRuns::Many(done));
    };
    if done.is_empty() {
        return Ok(RowRuns::One(run));
    }
    done.push(run)?;
    Ok(RowRuns::Many(done))
}

/// The runs of a row of so many of the bytes that runs show, behind the first `from` of those.
pub fn shown_runs(
    alloc: Global,
    runs: &[Run],
    from: usize,
    count: usize,
) -> Result<RowRuns, AllocError>
    ensures { IfOk result (λ v. (text : List ℕ) → All (EndsIn text) runs.now
        → row_runs v ≡ runs_of (take count (drop from (shown_clusters text runs.now)))) }
{
    let mut done = Vec::new(alloc);
    let mut last = None;
    let mut skip = from;
    let mut left = count;
    for run in runs {
        let len = run.to.saturating_sub(run.from) as usize;
        let passed = skip.min(len);
        let size = left.min(len - passed);
        let part = Run {
            from: run.from + passed as u32,
            to: run.from + (passed + size) as u32,
            style: run.style,
        };
        last = add_part(&mut done, last, part)?;
        skip -= passed;
        left -= size;
    }
    joined_runs(done, last)
}

/// Printable bytes that runs of a line show, behind the first `skip` of those: each is a cluster of one column.
#[derive(Drop)]
pub struct PrintableRuns<'a> {
    pub text: &'a str,
    pub runs: &'a [Run],
    pub skip: usize,
    pub bytes: &'a [u8],
}

impl<'a> Model for PrintableRuns<'a> {
    ghost use Rattle.std.specs.Prelude.{◌≡◌, ◌+◌, ◌≤◌, List, All, length, take, drop};
    ghost use Rattle.spec_pages.specs.declared.Cluster.{Cluster};
    ghost use Rattle.sp_measure.specs.Shown.{EndsIn, shown_bytes, shown_clusters};

    ghost Value = { List Cluster };

    ghost view = { λ p. take (length p.bytes.now) (drop p.skip (shown_clusters p.text.now p.runs.now)) };

    ghost invariant = { λ p. (p.bytes.now ≡ take (length p.bytes.now) (drop p.skip (shown_bytes p.text.now p.runs.now))) × All (EndsIn p.text.now) p.runs.now × (p.skip + length p.bytes.now ≤ 16384) };
}

impl<'a> ClusterList for PrintableRuns<'a> {
    ghost clusters = { λ list. list };

    fn count(&self) -> usize {
        self.bytes.len()
    }

    fn is_space(&self, place: usize) -> bool {
        self.bytes[place] == b' '
    }

    fn part(&self, from: usize, to: usize) -> PrintableRuns<'a> {
        PrintableRuns {
            text: self.text,
            runs: self.runs,
            skip: self.skip + from,
            bytes: &self.bytes[from..to],
        }
    }

    fn fitting(&self, width: u32) -> usize {
        self.bytes.len().min(width as usize)
    }

    fn row(&self, alloc: Global) -> Result<WrapRow, AllocError> {
        let count = self.bytes.len();
        Ok(WrapRow {
            runs: shown_runs(alloc, self.runs, self.skip, count)?,
            width: count as u32,
        })
    }
}
