//! The elements of a page.
use sp_columns::Element;
use std::marker::Model;

/// Rows of a body that follow one another, as those of a page do: the elements that they stand in, the places of the first
/// of them and of the row behind the last among the rows of these elements, and how many headings stand before the elements.
#[derive(Drop)]
pub struct Page<'a> {
    pub elements: &'a [Element],
    pub from: usize,
    pub to: usize,
    pub headings: usize,
}

impl<'a> Model for Page<'a> {
    ghost use Rattle.sp_layout.specs.Bodies.{PageOf};

    ghost Value = { PageOf };

    ghost view = { λ p. record { elements = p.elements.now; from = p.from; to = p.to; headings = p.headings } };
}
