//! Where title sheets begin.
ghost use Rattle.std.specs.Prelude.{◌≡◌, ◌⊎◌, [], All, IfOk};
ghost use Rattle.spec_pages.specs.Pages.{page_starts};
ghost use Rattle.spec_pages.specs.Rows.{title_shape};

use crate::Shape;
use sp_gap::GapList;
use std::alloc::{AllocError, Global};

/// The first rows of the sheets of a title page, of which each ends as late as its height allows: the rows on it, with the leads of all
/// but the first, are at most so many. `AllocError` comes for want of memory alone.
pub fn title_starts(
    alloc: Global,
    shapes: &GapList<Shape>,
    body: u32,
) -> Result<Vec<usize>, AllocError>
    requires body { (body ≡ 54) ⊎ (body ≡ 58) }
    requires titles { All (λ shape. shape ≡ title_shape shape) shapes.now.items }
    ensures { IfOk result (λ starts. starts.items ≡ page_starts body shapes.now.items []) }
{
    let limit = u64::from(body);
    let mut starts = Vec::new(alloc);
    let mut rows = limit;
    for row in 0..shapes.len() {
        rows += 1 + u64::from(shapes.at(row).lead);
        if rows > limit {
            starts.push(row)?;
            rows = 1;
        }
    }
    Ok(starts)
}
