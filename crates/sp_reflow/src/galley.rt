//! The rows of a text as pages are filled of them.
ghost use Rattle.std.specs.Prelude.{◌≡◌, ◌⊎◌, ◌<◌, length};
ghost use Rattle.spec_pages.specs.Pages.{next_page};
ghost use Rattle.spec_edit.specs.PageWindows.{AreStops};
ghost use Rattle.sp_kit.specs.Causes.{one_more};
ghost use Rattle.sp_reflow.specs.Galleys.{IsGalley};

use crate::search::stop_above;
use sp_fill::{Shape, fill};
use sp_gap::GapList;
use sp_kit::Steps;
use std::marker::Model;

/// The rows of a text as pages are filled of them: what page ends see of each, the stops among them, and how many rows a page
/// has.
#[derive(Drop)]
pub struct Galley<'a> {
    shapes: &'a GapList<Shape>,
    stops: &'a [usize],
    body: u32,
}

impl<'a> Model for Galley<'a> {
    ghost use Rattle.sp_reflow.specs.Galleys.{GalleyOf, IsGalley};

    ghost Value = { GalleyOf };

    ghost view = { λ g. record { shapes = g.shapes.now.items; stops = g.stops.now; limit = g.body } };

    ghost invariant = { λ g. IsGalley (record { shapes = g.shapes.now.items; stops = g.stops.now; limit = g.body }) };
}

impl<'a> Galley<'a> {
    /// The rows of these shapes with their stops, where a page has `body` rows.
    pub fn new(shapes: &'a GapList<Shape>, stops: &'a [usize], body: u32) -> Galley<'a>
        requires body { (body ≡ 54) ⊎ (body ≡ 58) }
        requires stops { AreStops (length shapes.now.items) stops.now }
        ensures { result ≡ record { shapes = shapes.now.items; stops = stops.now; limit = body } }
    {
        Galley {
            shapes,
            stops,
            body,
        }
    }

    /// How many rows there are.
    pub(crate) fn len(&self) -> usize
        ensures len { result ≡ length self.now.shapes }
        ensures keeps { IsGalley self.now }
    {
        self.shapes.len()
    }

    /// How many rows a page has.
    pub(crate) fn body(&self) -> u32
        ensures body { result ≡ self.now.limit }
        ensures keeps { IsGalley self.now }
    {
        self.body
    }

    /// The end of the page that begins at row `p`. It is filled once.
    pub(crate) fn page_end<S: Steps>(&self, p: usize, steps: &mut S) -> usize
        requires { p < length self.now.shapes }
        ensures value { result ≡ next_page self.now.limit self.now.shapes self.now.stops p }
        ensures above { p < result }
        ensures fills { S.fills steps.new ≡ one_more (S.fills steps.old) }
        ensures reads { S.reads steps.new ≡ S.reads steps.old }
    {
        let stop = stop_above(self.stops, self.shapes.len(), p);
        fill(self.shapes, p, stop, self.body, steps)
    }
}
