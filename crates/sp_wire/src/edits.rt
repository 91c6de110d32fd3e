//! The commands that edit, from their fields.
ghost use Rattle.serde_json.specs.View.{view};
ghost use Rattle.spec_wire.specs.Forms.{form_of};
ghost use Rattle.spec_wire.specs.Lines.{filled};
ghost use Rattle.sp_wire.specs.Values.{command_of};
ghost use Rattle.sp_wire.specs.Answers.{Answers};

use crate::fields::{number_at, text_at, texts_at};
use crate::{Command, WireFault};
use serde_json::Value;
use sp_text::Edit;
use spec_wire::Name;
use std::alloc::Global;

/// The replacement of lines that a command's fields make: `first`, `count` and `lines`. BadField comes for the first of them that is missing
/// or not of its kind, NoMemory for want of memory (docs/RULES.md, "Commands").
pub fn replace_at(alloc: Global, value: &Value) -> Result<Command, WireFault>
    ensures { Answers command_of (filled (form_of Name.Replace) (view value.now)) result }
{
    let first = number_at(alloc, value, "first")?;
    let count = number_at(alloc, value, "count")?;
    let lines = texts_at(alloc, value, "lines")?;
    Ok(Command::Edit(Edit::Replace {
        first,
        count,
        lines,
    }))
}

/// The splice of a line that a command's fields make: `line`, `from`, `to` and `text`. BadField comes for the first of them that is missing or
/// not of its kind, NoMemory for want of memory (docs/RULES.md, "Commands").
pub fn splice_at(alloc: Global, value: &Value) -> Result<Command, WireFault>
    ensures { Answers command_of (filled (form_of Name.Splice) (view value.now)) result }
{
    let line = number_at(alloc, value, "line")?;
    let from = number_at(alloc, value, "from")?;
    let to = number_at(alloc, value, "to")?;
    let text = text_at(alloc, value, "text")?;
    Ok(Command::Edit(Edit::Splice {
        line,
        from,
        to,
        text,
    }))
}
