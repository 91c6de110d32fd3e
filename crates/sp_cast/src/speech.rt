use sp_labels::Label;
use std::marker::Model;

/// A speech as cast sides tell it (docs/RULES.md, "Cast sides"): the name of its speaker, the label of the scene that it
/// stands in, and the first label of the sheet on which it begins.
#[derive(Drop)]
pub struct Said {
    pub name: String,
    /// None before the first heading.
    pub scene: Option<Label>,
    pub sheet: Label,
}

impl Model for Said {
    ghost use Rattle.std.specs.Prelude.{Some, string_bytes};
    ghost use Rattle.spec_cast.specs.Sides.{SaidOf};

    ghost Value = { SaidOf };

    ghost view = { λ s. record { name = string_bytes s.name; scene = s.scene; sheet = Some s.sheet } };
}
