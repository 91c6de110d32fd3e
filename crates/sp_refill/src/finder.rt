//! The rows that an edit exchanges.
ghost use Rattle.std.specs.Prelude.{◌≡◌, ℕ, ◌+◌, ◌-◌, ◌≤◌, min};
ghost use Rattle.spec_text.specs.Edits.{Replacement};
ghost use Rattle.spec_text.specs.Ranges.{range_of};
ghost use Rattle.spec_state.specs.State.{State};
ghost use Rattle.spec_state.specs.StateSheets.{layout_in};
ghost use Rattle.spec_state.specs.Changes.{edited_state};
ghost use Rattle.spec_locked_pages.specs.LockedPages.{IsWindowOf};
ghost use Rattle.spec_refill.specs.Exchanges.{edit_exchange};
ghost use Rattle.sp_refill.specs.Edits.{AreAhead, IsBehindSomeEdit, IsOfEdit, IsOfSomeEdit};

use crate::blocks::{parts_behind, relays_before};
use crate::elements::{rows_before, rows_up_to};
use sp_layout::Body;
use sp_reflow::ExchangedRows;
use sp_reread::{Stanzas, Swapped};
use sp_text::Lines;
use std::marker::Model;

/// What the body before an edit tells of the rows that the edit exchanges: the first of them, and how many rows it has.
#[derive(Drop)]
pub struct RowsAhead {
    pub first: usize,
    pub all: usize,
}

impl Model for RowsAhead {
    ghost use Rattle.sp_refill.specs.Edits.{RowsAheadOf};

    ghost Value = { RowsAheadOf };

    ghost view = { λ r. record { first = r.first; all = r.all } };
}

/// The rows from the first one on to before another of the new text, and the row behind them, by how many rows both texts have.
fn with_next(first: usize, past: usize, olds: usize, news: usize) -> ExchangedRows
    requires order { first ≤ past }
    requires inside { past ≤ news }
    requires old_inside { first + (news - past) ≤ olds }
    ensures first { result.first ≡ first }
    ensures old { result.old ≡ olds - first - (news - past) + min 1 (news - past) }
    ensures new { result.new ≡ past - first + min 1 (news - past) }
{
    let behind = news - past;
    let next = behind.min(1);
    ExchangedRows {
        first,
        old: olds - first - behind + next,
        new: past - first + next,
    }
}

/// The first row that an edit exchanges (docs/RULES.md, "Windows"), and how many rows there are before the edit. They are found
/// by the lines and the stanzas that the edit left, the stanzas that it displaced, and the elements of the body before it. It
/// looks at the blocks next to the window, and finds elements by halves.
pub fn rows_ahead(lines: &Lines, stanzas: &Stanzas, swapped: &Swapped, olds: &Body) -> RowsAhead
    requires { IsOfSomeEdit lines.now.lines stanzas.now.stanzas swapped.now olds.now.elements }
    ensures { AreAhead stanzas.now.stanzas swapped.now olds.now.elements result }
{
    let at = swapped.at();
    let first = rows_before(
        olds,
        stanzas.lines_before(at),
        relays_before(stanzas, swapped),
    );
    RowsAhead {
        first,
        all: olds.rows(),
    }
}

/// The rows that an edit exchanges (docs/RULES.md, "Windows"): those of the elements that it relays, and the row behind them.
/// They are found by what the body before the edit told, the same lines and stanzas, and the elements of the body after it.
pub fn exchanged_rows(
    ahead: &RowsAhead,
    lines: &Lines,
    stanzas: &Stanzas,
    swapped: &Swapped,
    news: &Body,
) -> ExchangedRows
    requires edit { IsBehindSomeEdit lines.now.lines stanzas.now.stanzas swapped.now ahead.now news.now.elements }
    ensures found { (state : State) (it : Replacement) (a b : ℕ)
        → IsOfEdit state it lines.now.lines stanzas.now.stanzas swapped.now
        → AreAhead stanzas.now.stanzas swapped.now (layout_in state).body ahead.now
        → news.now.elements ≡ (layout_in (edited_state state it)).body
        → IsWindowOf (range_of it) state (edited_state state it) a b
        → result ≡ edit_exchange (range_of it) state (edited_state state it) a b }
{
    let at = swapped.at();
    let _count = stanzas.len();
    let end = at + swapped.stands();
    let past = rows_up_to(
        news,
        stanzas.lines_before(end),
        parts_behind(stanzas, swapped),
    );
    with_next(ahead.first, past, ahead.all, news.rows())
}
