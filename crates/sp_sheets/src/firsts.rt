//! The first rows of page records, by the keys of all rows.
ghost use Rattle.std.specs.Prelude.{◌≡◌, option_map, vec_items, IfOk, IfSome};
ghost use Rattle.spec_labels.specs.PageRecords.{AreAnchored};
ghost use Rattle.spec_state.specs.Keeping.{IsWhole};
ghost use Rattle.sp_layout.specs.Kept.{laid_of};
ghost use Rattle.sp_sheets.specs.Firsts.{IsLaidOf, first_rows, key_starts};
ghost use Rattle.sp_sheets.specs.States.{state_in};

use sp_gap::GapList;
use sp_layout::KeptLayout;
use sp_locks::{PageRecord, RowKey, starts};
use sp_records::Records;
use sp_text::Lines;
use std::alloc::{AllocError, Global};

/// The first rows of page records; none where pages aren't locked. Each is looked for first as far behind the one before it as in
/// `near`.
fn record_starts(
    alloc: Global,
    lines: &Lines,
    keys: &GapList<RowKey>,
    records: &Option<Vec<PageRecord>>,
    near: &[usize],
) -> Result<Vec<usize>, AllocError>
    requires { IfSome records.now (λ those. AreAnchored lines.now.lines keys.now.items those.items) }
    ensures { IfOk result (λ firsts.
        firsts.items ≡ key_starts lines.now.lines keys.now.items (option_map vec_items records.now)) }
{
    match records {
        None => Ok(Vec::new(alloc)),
        Some(records) => starts(alloc, records, lines, keys, near),
    }
}

/// The first rows of the page records of a state whose text is laid out; none where pages aren't locked. Each is looked for first
/// as far behind the one before it as in `near`, those of a state before it or any other rows. `AllocError` comes for want of
/// memory alone.
pub fn laid_firsts(
    alloc: Global,
    lines: &Lines,
    records: &Records,
    layout: &KeptLayout,
    near: &[usize],
) -> Result<Vec<usize>, AllocError>
    requires whole { IsWhole (state_in lines.now records.now) }
    requires laid { IsLaidOf (state_in lines.now records.now) (laid_of layout.now) }
    ensures { IfOk result (λ firsts. firsts.items ≡ first_rows (state_in lines.now records.now)) }
{
    record_starts(alloc, lines, layout.body.keys(), &records.pages, near)
}
