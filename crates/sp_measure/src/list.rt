//! Clusters one after another, and those of printable bytes, which need not be made.
ghost use Rattle.std.specs.Prelude.{◌≡◌, ◌+◌, ◌^◌, ◌<◌, ◌≤◌, List, length, take, slice_range, IfOk};
ghost use Rattle.spec_pages.specs.declared.Cluster.{Cluster};
ghost use Rattle.sp_measure.specs.RowRuns.{row_runs};
ghost use Rattle.spec_pages.specs.Wrapping.{goes_on, is_space_at, row_of, run_of, runs_of, total_width};

use crate::row_runs::RowRuns;
use crate::rows::WrapRow;
use spec_pages::Cluster;
use spec_script::Run;
use std::alloc::{AllocError, Global};
use std::marker::Model;

/// Clusters of a line that are to be wrapped.
pub trait ClusterList: Drop {
    ghost clusters: { Self → List Cluster };

    /// How many there are.
    fn count(&self) -> usize
        ensures { result ≡ length (clusters self.now) };

    /// Whether the one at a place is a space.
    fn is_space(&self, place: usize) -> bool
        requires { place < length (clusters self.now) }
        ensures { result ≡ is_space_at (clusters self.now) place };

    /// Those from one place to before another.
    fn part(&self, from: usize, to: usize) -> Self
        requires order { from ≤ to }
        requires within { to ≤ length (clusters self.now) }
        ensures { clusters result ≡ slice_range (clusters self.now) from to };

    /// How many, from the first on, fit the width.
    fn fitting(&self, width: u32) -> usize
        ensures within { result ≤ length (clusters self.now) }
        ensures fit { total_width (take result (clusters self.now)) ≤ width }
        ensures over { result < length (clusters self.now)
            → width < total_width (take (result + 1) (clusters self.now)) };

    /// The row that they make.
    fn row(&self, alloc: Global) -> Result<WrapRow, AllocError>
        requires { total_width (clusters self.now) < 2 ^ 32 }
        ensures { IfOk result (λ row. row ≡ row_of (clusters self.now)) };
}

fn run_of(cluster: &Cluster) -> Run
    ensures { result ≡ run_of cluster.now }
{
    Run {
        from: cluster.from as u32,
        to: cluster.to as u32,
        style: cluster.style,
    }
}

fn goes_on(run: &Run, cluster: &Cluster) -> bool
    ensures { result ≡ goes_on run.now cluster.now }
{
    run.to == cluster.from as u32 && run.style == cluster.style
}

/// The runs of a row of clusters.
fn row_runs(alloc: Global, clusters: &[Cluster]) -> Result<RowRuns, AllocError>
    ensures { IfOk result (λ v. row_runs v ≡ runs_of clusters.now) }
{
    let [first, rest @ ..] = clusters else {
        return Ok(RowRuns::Nothing);
    };
    let mut runs = Vec::new(alloc);
    let mut run = run_of(first);
    for cluster in rest {
        if goes_on(&run, cluster) {
            run.to = cluster.to as u32;
        } else {
            runs.push(run)?;
            run = run_of(cluster);
        }
    }
    if runs.is_empty() {
        return Ok(RowRuns::One(run));
    }
    runs.push(run)?;
    Ok(RowRuns::Many(runs))
}

fn total_width(clusters: &[Cluster]) -> u32
    requires { total_width clusters.now < 2 ^ 32 }
    ensures { result ≡ total_width clusters.now }
{
    let mut total = 0;
    for cluster in clusters {
        total += cluster.width as u32;
    }
    total
}

impl<'a> ClusterList for &'a [Cluster] {
    ghost clusters = { λ list. list.now };

    fn count(&self) -> usize {
        <[Cluster]>::len(self)
    }

    fn is_space(&self, place: usize) -> bool {
        self[place].space
    }

    fn part(&self, from: usize, to: usize) -> &'a [Cluster] {
        &self[from..to]
    }

    fn fitting(&self, width: u32) -> usize {
        let mut total: u64 = 0;
        for (place, cluster) in self.iter().enumerate() {
            total += cluster.width as u64;
            if total > width as u64 {
                return place;
            }
        }
        self.count()
    }

    fn row(&self, alloc: Global) -> Result<WrapRow, AllocError> {
        Ok(WrapRow {
            runs: row_runs(alloc, self)?,
            width: total_width(self),
        })
    }
}

/// Printable bytes of one style, the first of which stands at the place `from` of their line: each is a cluster of one column.
#[derive(Drop)]
pub struct Printable<'a> {
    pub bytes: &'a [u8],
    pub style: u8,
    pub from: u32,
}

impl<'a> Model for Printable<'a> {
    ghost use Rattle.std.specs.Prelude.{◌+◌, ◌≤◌, List, length};
    ghost use Rattle.spec_pages.specs.declared.Cluster.{Cluster};
    ghost use Rattle.spec_pages.specs.Clusters.{byte_clusters};

    ghost Value = { List Cluster };

    ghost view = { λ p. byte_clusters p.style p.from p.bytes.now };

    ghost invariant = { λ p. p.from + length p.bytes.now ≤ 4096 };
}

impl<'a> ClusterList for Printable<'a> {
    ghost clusters = { λ list. list };

    fn count(&self) -> usize {
        self.bytes.len()
    }

    fn is_space(&self, place: usize) -> bool {
        self.bytes[place] == b' '
    }

    fn part(&self, from: usize, to: usize) -> Printable<'a> {
        Printable {
            bytes: &self.bytes[from..to],
            style: self.style,
            from: self.from + from as u32,
        }
    }

    fn fitting(&self, width: u32) -> usize {
        self.bytes.len().min(width as usize)
    }

    fn row(&self, _alloc: Global) -> Result<WrapRow, AllocError> {
        let count = self.bytes.len();
        if count == 0 {
            return Ok(WrapRow {
                runs: RowRuns::Nothing,
                width: 0,
            });
        }
        let run = Run {
            from: self.from,
            to: self.from + count as u32,
            style: self.style,
        };
        Ok(WrapRow {
            runs: RowRuns::One(run),
            width: count as u32,
        })
    }
}
