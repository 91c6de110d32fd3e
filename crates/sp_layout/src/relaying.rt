//! A part of a layout laid out anew.
ghost use Rattle.std.specs.Prelude.{◌≡◌, List, All, IfOk, OnErr, OnOk};
ghost use Rattle.spec_text.specs.Lines.{LineState, line_texts};
ghost use Rattle.spec_script.specs.Elements.{PlacedLies, PlacesRise};
ghost use Rattle.sp_layout.specs.LaidOut.{layout_behind};
ghost use Rattle.sp_layout.specs.Kept.{CanSwap, HasPartRoom, KeepsRoom, laid_of, places_back, with_part};
ghost use Rattle.sp_layout.specs.Outside.{StaysOutside};
ghost use Rattle.sp_layout.specs.Relaid.{IsLaidAnew, IsRelaid};

use crate::{KeptLayout, LayoutPart, PartPlaces, Speakers, lay_out_behind};
use sp_blocks::PlacedBlock;
use sp_text::Lines;
use std::alloc::{AllocError, Global};

/// Lays out blocks of these lines that follow one another, behind speakers, and exchanges them for the part of a layout that
/// stands at these places. Where the layout is that of the text before an edit, and no other block is joined with these, it then
/// has the elements of the text after it (docs/RULES.md, "Windows"), but those behind the part as they were, whoever spoke last
/// before them; and each row outside the part stands on the lines, with their ids and marks, that it stood on before. What it
/// answers leads back. The error is want of memory alone; the layout is then as it was.
pub fn relay(
    alloc: Global,
    lines: &Lines,
    blocks: &[PlacedBlock<'_>],
    speakers: Speakers,
    places: PartPlaces,
    kept: &mut KeptLayout,
) -> Result<LayoutPart, AllocError>
    requires lie { All (PlacedLies (line_texts lines.now.lines)) blocks.now }
    requires rise { PlacesRise 0 blocks.now }
    requires can { CanSwap (laid_of kept.old) places (layout_behind lines.now.lines speakers blocks.now) }
    ensures part { OnOk result
        (laid_of kept.new ≡ with_part (laid_of kept.old) places (layout_behind lines.now.lines speakers blocks.now)) }
    ensures layout { OnOk result
        (IsLaidAnew lines.now.lines speakers blocks.now places (laid_of kept.old) (laid_of kept.new)) }
    ensures places { IfOk result (λ it.
        it.places ≡ places_back places (layout_behind lines.now.lines speakers blocks.now)) }
    ensures outside { (before : List LineState)
        → IsRelaid before lines.now.lines speakers blocks.now places (laid_of kept.old)
        → IfOk result (λ it. StaysOutside before lines.now.lines (laid_of kept.new).body.elements it.places) }
    ensures back { IfOk result (λ it. with_part (laid_of kept.new) it.places (laid_of it.kept) ≡ laid_of kept.old) }
    ensures again { IfOk result (λ it. CanSwap (laid_of kept.new) it.places (laid_of it.kept)) }
    ensures returns { IfOk result (λ it. HasPartRoom kept.new it.places it.kept) }
    ensures room { KeepsRoom kept.old kept.new }
    ensures same { OnErr result (laid_of kept.new ≡ laid_of kept.old) }
{
    let layout = lay_out_behind(alloc, lines, blocks, speakers)?;
    let part = LayoutPart {
        places,
        kept: KeptLayout::new(layout),
    };
    match kept.swap(part) {
        Ok(back) => Ok(back),
        Err(_) => Err(AllocError),
    }
}
