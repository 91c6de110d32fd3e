//! Lists of a record file, read.
ghost use Rattle.std.specs.Prelude.{◌≡◌, IfOk, IfSome, IfNone, None, Option, Some, option_map};
ghost use Rattle.serde_json.specs.Data.{Data};
ghost use Rattle.serde_json.specs.View.{view, items_view};
ghost use Rattle.spec_jsonback.specs.Lists.{all_in, list_in};
ghost use Rattle.spec_records.specs.Fields.{field, optional_in};

use serde_json::Value;
use std::alloc::{AllocError, Global};

/// What stands in a list of a record file.
pub(crate) trait Item: Drop {
    /// The item that a value is, if it is one.
    ghost item: { Data → Option Self };

    /// The item that a value is, if it is one. The error is want of memory alone.
    fn read(alloc: Global, value: &Value) -> Result<Option<Self>, AllocError>
        ensures { IfOk result (λ o. o ≡ item (view value.now)) };
}

fn items_of<T: Item>(alloc: Global, values: &[Value]) -> Result<Option<Vec<T>>, AllocError>
    ensures some { IfOk result (λ o. IfSome o (λ items. all_in T.item (items_view values.now) ≡ Some items.items)) }
    ensures none { IfOk result (λ o. IfNone o (all_in T.item (items_view values.now) ≡ None)) }
{
    let mut items = Vec::new(alloc);
    for value in values {
        match T::read(alloc, value)? {
            Some(item) => items.push(item)?,
            None => return Ok(None),
        }
    }
    Ok(Some(items))
}

fn list_in<T: Item>(alloc: Global, value: &Value) -> Result<Option<Vec<T>>, AllocError>
    ensures some { IfOk result (λ o. IfSome o (λ items. list_in T.item (view value.now) ≡ Some items.items)) }
    ensures none { IfOk result (λ o. IfNone o (list_in T.item (view value.now) ≡ None)) }
{
    match value.as_array() {
        Some(values) => items_of(alloc, values),
        None => Ok(None),
    }
}

/// A list that has to be there.
pub(crate) fn list_at<T: Item>(
    alloc: Global,
    value: &Value,
    name: &str,
) -> Result<Option<Vec<T>>, AllocError>
    ensures some { IfOk result (λ o.
        IfSome o (λ items. field (list_in T.item) name.now (view value.now) ≡ Some items.items)) }
    ensures none { IfOk result (λ o. IfNone o (field (list_in T.item) name.now (view value.now) ≡ None)) }
{
    match value.get(name) {
        Some(value) => list_in(alloc, value),
        None => Ok(None),
    }
}

/// A list, or null.
fn optional_in<T: Item>(alloc: Global, value: &Value) -> Result<Option<Option<Vec<T>>>, AllocError>
    ensures some { IfOk result (λ o. IfSome o (λ items.
        optional_in (list_in T.item) (view value.now) ≡ Some (option_map (λ v. v.items) items))) }
    ensures none { IfOk result (λ o. IfNone o (optional_in (list_in T.item) (view value.now) ≡ None)) }
{
    if value.is_null() {
        return Ok(Some(None));
    }
    match list_in(alloc, value)? {
        Some(items) => Ok(Some(Some(items))),
        None => Ok(None),
    }
}

/// A list, or null, that has to be there.
pub(crate) fn optional_at<T: Item>(
    alloc: Global,
    value: &Value,
    name: &str,
) -> Result<Option<Option<Vec<T>>>, AllocError>
    ensures some { IfOk result (λ o. IfSome o (λ items.
        field (optional_in (list_in T.item)) name.now (view value.now) ≡ Some (option_map (λ v. v.items) items))) }
    ensures none { IfOk result (λ o.
        IfNone o (field (optional_in (list_in T.item)) name.now (view value.now) ≡ None)) }
{
    match value.get(name) {
        Some(value) => optional_in(alloc, value),
        None => Ok(None),
    }
}
