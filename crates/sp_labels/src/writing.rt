//! Labels, written.
ghost use Rattle.std.specs.Prelude.{◌≡◌, ◌++◌, codes, decimal, flat_map, string_bytes, IfOk};
ghost use Rattle.sp_kit.specs.Outside.{Writes};
ghost use Rattle.spec_labels.specs.Labels.{label_text, step_text};

use crate::label::Label;
use itoa::Buffer;
use sp_kit::{Failed, GrowingSink, Sink, write_whole};
use std::alloc::{AllocError, Global};

/// The letters of the steps 1 to 24: A to Z without I and O.
pub(crate) const STEP_LETTERS: &[u8; 24] = b"ABCDEFGHJKLMNPQRSTUVWXYZ";

/// Writes a label (docs/RULES.md, "Labels"). `Failed` comes only where the sink's count of faults rose in this call, and
/// then the sink took a proper prefix. Takes no memory.
pub fn write<O: Sink>(label: &Label, sink: &mut O) -> Result<(), Failed>
    ensures { Writes (O.state sink.old) (O.state sink.new) (label_text label.now) result }
{
    write_number(sink, label.number)?;
    write_steps(sink, &label.path)
}

/// A label as it is written (docs/RULES.md, "Labels"). `AllocError` comes for want of memory alone.
pub fn label_text(alloc: Global, label: &Label) -> Result<String, AllocError>
    ensures { IfOk result (λ text. string_bytes text ≡ label_text label.now) }
{
    let mut sink = GrowingSink::new(alloc);
    match write(label, &mut sink) {
        Ok(()) => Ok(sink.into_text()),
        Err(_) => Err(AllocError),
    }
}

fn write_steps<O: Sink>(sink: &mut O, path: &[u32]) -> Result<(), Failed>
    ensures { Writes (O.state sink.old) (O.state sink.new) (flat_map step_text path.now) result }
{
    for step in path {
        write_step(sink, *step)?;
    }
    Ok(())
}

fn write_step<O: Sink>(sink: &mut O, step: u32) -> Result<(), Failed>
    ensures { Writes (O.state sink.old) (O.state sink.new) (step_text step) result }
{
    match step {
        0 => write_whole(sink, b"."),
        1..=24 => write_whole(sink, &[STEP_LETTERS[step as usize - 1]]),
        _ => write_far_step(sink, step),
    }
}

/// Writes a step in brackets.
fn write_far_step<O: Sink>(sink: &mut O, step: u32) -> Result<(), Failed>
    ensures { Writes (O.state sink.old) (O.state sink.new) (codes "(" ++ decimal step ++ codes ")") result }
{
    write_whole(sink, b"(")?;
    write_number(sink, step)?;
    write_whole(sink, b")")
}

/// Writes a number in decimal.
fn write_number<O: Sink>(sink: &mut O, number: u32) -> Result<(), Failed>
    ensures { Writes (O.state sink.old) (O.state sink.new) (decimal number) result }
{
    let mut digits = Buffer::new();
    write_whole(sink, digits.format(number).as_bytes())
}
