ghost use Rattle.std.specs.Prelude.{◌≡◌, ◌+◌, ◌^◌, ◌<◌, ◌≤◌, ◌++◌, length, OnOk, IfOk, IfSome, option_copied, replicate};
ghost use Rattle.std.specs.Option.{ForSome, ForNone};
ghost use Rattle.spec_labels.specs.Labels.{Below, IsLabel, between, leading_zeros, zeros_between};

use crate::label::Label;
use std::alloc::{AllocError, Global};

/// The `m`-th label behind `l` and before `n`, where there is a next one (docs/RULES.md, "Labels"). It is above `l`, below
/// `n`, and rises with `m`. `AllocError` comes for want of memory alone.
pub fn between(alloc: Global, l: &Label, n: Option<&Label>, m: u32) -> Result<Label, AllocError>
    requires some { 0 < m }
    requires next { ForSome n (λ next. IsLabel next.now) }
    requires above { ForSome n (λ next. Below l.now next.now) }
    requires fits { ForNone n (l.now.number + m < 2 ^ 32) }
    ensures between { IfOk result (λ label. label ≡ between l.now (option_copied n.entry) m) }
    ensures label { IfOk result IsLabel }
    ensures above { IfOk result (Below l.now) }
    ensures below { IfOk result (λ label. IfSome (option_copied n.entry) (Below label)) }
{
    let Some(next) = n else {
        return Ok(Label {
            number: l.number + m,
            path: Vec::new(alloc),
        });
    };
    let mut path = Vec::from_slice(alloc, &l.path)?;
    push_zeros(&mut path, zeros_between(l, next))?;
    path.push(m)?;
    Ok(Label {
        number: l.number,
        path,
    })
}

/// Puts zero steps behind the path.
fn push_zeros(path: &mut Vec<u32>, count: usize) -> Result<(), AllocError>
    ensures { OnOk result (path.new.items ≡ path.old.items ++ replicate count 0) }
{
    for _ in 0..count {
        path.push(0)?;
    }
    Ok(())
}

/// How many zero steps stand behind the lower one in a label between these two.
fn zeros_between(low: &Label, high: &Label) -> usize
    ensures { zeros_between low.now high.now ≡ replicate result 0 }
{
    if low.number != high.number {
        return 0;
    }
    match high.path.strip_prefix(&low.path) {
        Some(rest) => leading_zeros(rest) + 1,
        None => 0,
    }
}

/// How many zero steps a path begins with.
fn leading_zeros(path: &[u32]) -> usize
    ensures value { result ≡ leading_zeros path.now }
    ensures low { result ≤ length path.now }
{
    path.iter().take_while(|step| **step == 0).count()
}
