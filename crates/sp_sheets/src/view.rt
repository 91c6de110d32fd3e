//! A state with what is made of it, lent.
ghost use Rattle.std.specs.Prelude.{◌≡◌, map};
ghost use Rattle.spec_text.specs.Lines.{line_texts};
ghost use Rattle.spec_script.specs.Stanzas.{stanzas_of};
ghost use Rattle.spec_sheets.specs.Shown.{shape_of};
ghost use Rattle.spec_state.specs.State.{text_of as state_text};
ghost use Rattle.spec_state.specs.Keeping.{IsWhole, records_of};
ghost use Rattle.spec_state.specs.StateSheets.{body_sheets, rows_in};
ghost use Rattle.sp_text.specs.Gap.{text_of};
ghost use Rattle.sp_layout.specs.Bodies.{shapes_in};
ghost use Rattle.sp_sheets.specs.Made.{IsMadeOf};
ghost use Rattle.sp_sheets.specs.States.{state_with};

use crate::parts::Made;
use sp_exchange::Text;
use sp_gap::GapList;
use sp_locks::Sheet;
use sp_records::Records;
use sp_reread::Stanzas;
use sp_text::Lines;
use spec_pages::Shape;
use std::marker::Model;

/// The text of a state, its records, and what is made of it, lent (docs/RULES.md, "The desk" and "Sheets"). Contracts see the
/// state alone.
#[derive(Drop)]
pub struct StateView<'a> {
    text: &'a Text,
    records: &'a Records,
    made: &'a Made,
}

impl<'a> Model for StateView<'a> {
    ghost use Rattle.spec_state.specs.State.{State};
    ghost use Rattle.spec_state.specs.Keeping.{IsWhole};
    ghost use Rattle.sp_sheets.specs.Made.{IsMadeOf};
    ghost use Rattle.sp_sheets.specs.States.{state_with};

    ghost Value = { State };

    ghost view = { λ v. state_with v.text.now v.records.now };

    ghost invariant = { λ v. IsWhole (state_with v.text.now v.records.now)
        × IsMadeOf (state_with v.text.now v.records.now) v.made.now };
}

/// What page ends see of each row of the body.
fn body_shapes(made: &Made) -> &GapList<Shape>
    ensures { result.now.items ≡ shapes_in made.now.layout.body.elements }
{
    let layout = &made.layout;
    layout.body.shapes()
}

impl<'a> StateView<'a> {
    /// The state of this text and these records, lent with what is made of it. Takes no memory.
    pub fn new(text: &'a Text, records: &'a Records, made: &'a Made) -> StateView<'a>
        requires whole { IsWhole (state_with text.now records.now) }
        requires made { IsMadeOf (state_with text.now records.now) made.now }
        ensures { result ≡ state_with text.now records.now }
    {
        StateView {
            text,
            records,
            made,
        }
    }

    /// Lends its lines.
    pub fn lines(&self) -> &'a Lines
        ensures { text_of result.now ≡ state_text self.now }
    {
        let text = self.text;
        text.lines()
    }

    /// Lends its round, its settings and its records.
    pub fn records(&self) -> &'a Records
        ensures { result.now ≡ records_of self.now }
    {
        self.records
    }

    /// Lends the stanzas of its text.
    pub fn stanzas(&self) -> &'a Stanzas
        ensures { result.now.stanzas ≡ stanzas_of (line_texts self.now.lines) }
    {
        let text = self.text;
        text.stanzas()
    }

    /// Lends what page ends see of each row of its body (docs/RULES.md, "Pages").
    pub fn shapes(&self) -> &'a GapList<Shape>
        ensures { result.now.items ≡ map shape_of (rows_in self.now) }
    {
        body_shapes(self.made)
    }

    /// Lends the sheets of its body, by the places of their rows. The state keeps the rules of a state.
    pub fn body_sheets(&self) -> &'a [Sheet]
        ensures sheets { result.now ≡ body_sheets self.now }
        ensures whole { IsWhole self.now }
    {
        let made = self.made;
        let numbered = &made.numbered;
        &numbered.sheets
    }
}
