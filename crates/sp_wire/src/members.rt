//! Objects of one member.
ghost use Rattle.std.specs.Prelude.{◌≡◌, string_bytes, IfOk};
ghost use Rattle.serde_json.specs.Data.{string, no_members, member};
ghost use Rattle.serde_json.specs.View.{members_view};
ghost use Rattle.spec_jsonback.specs.Lists.{number_data};

use serde_json::{Map, Value, put};
use std::alloc::{AllocError, Global};

/// An object that has a number under a key (docs/RULES.md, "Commands"). `AllocError` comes for want of memory alone.
pub fn number_member(
    alloc: Global,
    key: &str,
    number: u64,
) -> Result<Map<String, Value>, AllocError>
    ensures { IfOk result (λ members. members_view members.entries ≡ member key.now (number_data number) no_members) }
{
    let mut members = Map::new(alloc);
    put(&mut members, alloc, key, Value::from(number))?;
    Ok(members)
}

/// An object that has a text under a key (docs/RULES.md, "Commands"). `AllocError` comes for want of memory alone.
pub fn text_member(
    alloc: Global,
    key: &str,
    text: &String,
) -> Result<Map<String, Value>, AllocError>
    ensures { IfOk result (λ members.
        members_view members.entries ≡ member key.now (string (string_bytes text.now)) no_members) }
{
    let mut members = Map::new(alloc);
    put(
        &mut members,
        alloc,
        key,
        Value::try_from_str(alloc, text.as_str())?,
    )?;
    Ok(members)
}
