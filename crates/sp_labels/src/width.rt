ghost use Rattle.std.specs.Prelude.{◌≡◌, ◌≤◌, ◌+◌, ◌*◌, ◌^◌, decimal, flat_map, length};
ghost use Rattle.spec_labels.specs.Labels.{label_text, step_text};

use crate::label::Label;
use itoa::Buffer;

/// How many digits a number has.
fn decimal_columns(number: u32) -> u64
    ensures value { result ≡ length (decimal number) }
    ensures bound { result ≤ 20 }
{
    let mut digits = Buffer::new();
    digits.format(number).len() as u64
}

/// The columns of a step of a label.
fn step_columns(step: u32) -> u64
    ensures value { result ≡ length (step_text step) }
    ensures bound { result ≤ 22 }
{
    match step {
        0..=24 => 1,
        _ => 2 + decimal_columns(step),
    }
}

/// The columns of the steps of a label.
fn path_columns(path: &[u32]) -> u128
    ensures value { result ≡ length (flat_map step_text path.now) }
    ensures bound { result ≤ 22 * 2 ^ 61 }
{
    let mut columns = 0;
    for step in path {
        columns += step_columns(*step) as u128;
    }
    columns
}

/// How many columns a label takes as it is written (docs/RULES.md, "Labels"): as many as bytes, since it is printable ASCII.
/// Takes no memory.
pub fn columns(label: &Label) -> u128
    ensures value { result ≡ length (label_text label.now) }
    ensures bound { result ≤ 22 * 2 ^ 61 + 20 }
{
    decimal_columns(label.number) as u128 + path_columns(&label.path)
}
