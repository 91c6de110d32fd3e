//! The blocks of stanzas, lent.
ghost use Rattle.std.specs.Prelude.{◌≡◌, ◌≤◌, ◌+◌, ◌++◌, length, map, IfOk, OnOk};
ghost use Rattle.spec_script.specs.Elements.{placed_at};
ghost use Rattle.spec_script.specs.Stanzas.{blocks_from};
ghost use Rattle.spec_edit.specs.Windows.{stanza_lines_in};
ghost use Rattle.sp_reread.specs.Cache.{blocks_between};

use crate::Stanzas;
use sp_blocks::{PlacedBlock, Stanza};
use std::alloc::{AllocError, Global};

/// Adds the blocks of the stanza that begins at a place.
fn add_stanza<'a>(
    placed: &mut Vec<PlacedBlock<'a>>,
    first: usize,
    stanza: &'a Stanza,
) -> Result<(), AllocError>
    ensures { OnOk result (placed.new.items ≡ placed.old.items ++ map (placed_at first) stanza.now.blocks) }
{
    for block in &stanza.blocks {
        placed.push(PlacedBlock { first, block })?;
    }
    Ok(())
}

/// The blocks of the stanzas from one place of a list to before another, each with the place at which its stanza begins
/// (docs/RULES.md, "Stanzas"). The error is want of memory alone.
pub fn placed_blocks_between(
    alloc: Global,
    stanzas: &Stanzas,
    from: usize,
    to: usize,
) -> Result<Vec<PlacedBlock<'_>>, AllocError>
    requires order { from ≤ to }
    requires within { to ≤ length stanzas.now.stanzas }
    ensures { IfOk result (λ placed. placed.items ≡ blocks_between stanzas.now.stanzas from to) }
{
    let mut placed = Vec::new(alloc);
    for i in from..to {
        add_stanza(&mut placed, stanzas.lines_before(i), stanzas.stanza(i))?;
    }
    Ok(placed)
}

/// The blocks of stanzas of which the first begins at a place, each with the place at which its stanza begins. The error is want of
/// memory alone.
pub fn placed_blocks_of(
    alloc: Global,
    first: usize,
    stanzas: &[Stanza],
) -> Result<Vec<PlacedBlock<'_>>, AllocError>
    requires { first + stanza_lines_in stanzas.now ≤ 18446744073709551615 }
    ensures { IfOk result (λ placed. placed.items ≡ blocks_from first stanzas.now) }
{
    let mut placed = Vec::new(alloc);
    let mut place = first;
    for stanza in stanzas {
        add_stanza(&mut placed, place, stanza)?;
        place += stanza.lines as usize;
    }
    Ok(placed)
}

/// The blocks of stanzas in order, each with the place at which its stanza begins (docs/RULES.md, "Stanzas"). The error is
/// want of memory alone.
pub fn placed_blocks(alloc: Global, stanzas: &Stanzas) -> Result<Vec<PlacedBlock<'_>>, AllocError>
    ensures { IfOk result (λ placed. placed.items ≡ blocks_from 0 stanzas.now.stanzas) }
{
    placed_blocks_between(alloc, stanzas, 0, stanzas.len())
}
