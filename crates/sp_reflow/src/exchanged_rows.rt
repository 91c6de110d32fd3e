//! Rows that were exchanged.
use std::marker::Model;

/// Rows from the first one on were exchanged: so many old ones for so many new ones.
#[derive(Drop)]
pub struct ExchangedRows {
    pub first: usize,
    pub old: usize,
    pub new: usize,
}

impl Model for ExchangedRows {
    ghost use Rattle.spec_edit.specs.PageWindows.{Exchange};

    ghost Value = { Exchange };

    ghost view = { λ r. record { first = r.first; old = r.old; new = r.new } };
}
