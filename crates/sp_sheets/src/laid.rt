//! A state whose text is laid out, lent.
ghost use Rattle.std.specs.Prelude.{◌≡◌};
ghost use Rattle.spec_state.specs.State.{text_of as state_text};
ghost use Rattle.spec_state.specs.Keeping.{IsWhole, records_of};
ghost use Rattle.sp_text.specs.Gap.{text_of};
ghost use Rattle.sp_layout.specs.Kept.{laid_of};
ghost use Rattle.sp_sheets.specs.Firsts.{IsLaidOf, first_rows};
ghost use Rattle.sp_sheets.specs.States.{state_with};

use sp_exchange::Text;
use sp_layout::KeptLayout;
use sp_records::Records;
use std::marker::Model;

/// A text and records, the text laid out, and the first rows of the page records, lent (docs/RULES.md, "Page records").
/// Contracts see the state alone.
#[derive(Drop)]
pub struct LaidState<'a> {
    text: &'a Text,
    records: &'a Records,
    layout: &'a KeptLayout,
    firsts: &'a [usize],
}

impl<'a> Model for LaidState<'a> {
    ghost use Rattle.spec_state.specs.State.{State};
    ghost use Rattle.sp_layout.specs.Kept.{laid_of};
    ghost use Rattle.sp_sheets.specs.Firsts.{IsLaidWith};
    ghost use Rattle.sp_sheets.specs.States.{state_with};

    ghost Value = { State };

    ghost view = { λ s. state_with s.text.now s.records.now };

    ghost invariant = { λ s. IsLaidWith (state_with s.text.now s.records.now) (laid_of s.layout.now) s.firsts.now };
}

impl<'a> LaidState<'a> {
    /// The state of this text and these records, lent with its text laid out and the first rows of its page records. Takes no
    /// memory.
    pub fn new(
        text: &'a Text,
        records: &'a Records,
        layout: &'a KeptLayout,
        firsts: &'a [usize],
    ) -> LaidState<'a>
        requires whole { IsWhole (state_with text.now records.now) }
        requires laid { IsLaidOf (state_with text.now records.now) (laid_of layout.now) }
        requires firsts { firsts.now ≡ first_rows (state_with text.now records.now) }
        ensures { result ≡ state_with text.now records.now }
    {
        LaidState {
            text,
            records,
            layout,
            firsts,
        }
    }

    /// Lends its text.
    pub fn text(&self) -> &'a Text
        ensures { text_of result.now.lines ≡ state_text self.now }
    {
        self.text
    }

    /// Lends its round, its settings and its records. The state keeps the rules of a state.
    pub fn records(&self) -> &'a Records
        ensures records { result.now ≡ records_of self.now }
        ensures whole { IsWhole self.now }
    {
        self.records
    }

    /// Lends the layout of its text.
    pub fn layout(&self) -> &'a KeptLayout
        ensures { IsLaidOf self.now (laid_of result.now) }
    {
        self.layout
    }

    /// Lends the first rows of its page records; none where pages aren't locked.
    pub fn firsts(&self) -> &'a [usize]
        ensures { result.now ≡ first_rows self.now }
    {
        self.firsts
    }
}
