//! The title sheets of rows that are laid out.
ghost use Rattle.std.specs.Prelude.{◌≡◌, ◌↔◌, [], All, IfNone, IfOk, IfSome, IsTrue};
ghost use Rattle.spec_pages.specs.Pages.{page_starts, rows_on};
ghost use Rattle.spec_pages.specs.Rows.{title_shape};
ghost use Rattle.spec_state.specs.StateSheets.{title_starts};
ghost use Rattle.sp_layout.specs.Bodies.{shapes_in};
ghost use Rattle.sp_layout.specs.Kept.{laid_of};
ghost use Rattle.sp_sheets.specs.Titles.{LeavesTitles};

use crate::LaidState;
use crate::made::rows_on;
use sp_fill::title_starts;
use sp_layout::{Body, LayoutChange};
use spec_pages::Paper;
use std::alloc::{AllocError, Global};

/// Whether there is no element.
fn is_without_elements(body: &Body) -> bool
    ensures { IsTrue result ↔ body.now.elements ≡ [] }
{
    body.elements().is_empty()
}

/// Whether no element of a title page comes or goes when a change is made of a layout.
pub fn leaves_titles(change: &LayoutChange) -> bool
    ensures { IsTrue result ↔ LeavesTitles change.now.part.places (laid_of change.now.part.kept) }
{
    let part = &change.part;
    let places = part.places;
    let others = &part.kept;
    is_without_elements(&others.titles) && places.title_from == places.title_to
}

/// The first rows of the sheets of title rows on a paper.
fn starts_on(alloc: Global, titles: &Body, paper: Paper) -> Result<Vec<usize>, AllocError>
    requires { All (λ shape. shape ≡ title_shape shape) (shapes_in titles.now.elements) }
    ensures { IfOk result (λ starts. starts.items ≡ page_starts (rows_on paper) (shapes_in titles.now.elements) []) }
{
    title_starts(alloc, titles.shapes(), rows_on(paper))
}

/// The first rows of the title sheets of a state whose text is laid out. `AllocError` comes for want of memory alone.
pub(crate) fn made_titles(alloc: Global, laid: &LaidState<'_>) -> Result<Vec<usize>, AllocError>
    ensures { IfOk result (λ starts. starts.items ≡ title_starts laid.now) }
{
    let layout = laid.layout();
    let records = laid.records();
    starts_on(alloc, &layout.titles, records.paper)
}

/// None where the first rows of title sheets that there are may be kept, else those of a state whose text is laid out.
pub(crate) fn changed_titles(
    alloc: Global,
    laid: &LaidState<'_>,
    keeps: bool,
) -> Result<Option<Vec<usize>>, AllocError>
    ensures made { IfOk result (λ changed. IfSome changed (λ starts. starts.items ≡ title_starts laid.now)) }
    ensures kept { IfOk result (λ changed. IfNone changed (IsTrue keeps)) }
{
    if keeps {
        return Ok(None);
    }
    let titles = made_titles(alloc, laid)?;
    Ok(Some(titles))
}
