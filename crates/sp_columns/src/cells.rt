//! The cells of a row, as they are kept.
ghost use Rattle.std.specs.Prelude.{◌≡◌, IfOk};
ghost use Rattle.sp_columns.specs.CellLists.{cells_in};

use crate::values::Cell;
use std::alloc::{AllocError, Global};
use std::{mem, slice};

/// Cells of a row, from left to right. Most rows have one, which takes no memory of its own.
#[derive(Drop)]
pub enum CellList {
    Nothing,
    One(Cell),
    Many(Box<Vec<Cell>>),
}

impl CellList {
    /// These cells. The error is want of memory alone.
    pub fn from_vec(alloc: Global, cells: Vec<Cell>) -> Result<CellList, AllocError>
        ensures { IfOk result (λ kept. cells_in kept ≡ cells.items) }
    {
        let mut cells = cells;
        if cells.len() > 1 {
            cells.shrink_to_fit();
            return Ok(CellList::Many(Box::new(alloc, cells)?));
        }
        match cells.pop() {
            Some(cell) => Ok(CellList::One(cell)),
            None => Ok(CellList::Nothing),
        }
    }

    /// The cells in a vector. The error is want of memory alone.
    fn into_vec(self, alloc: Global) -> Result<Vec<Cell>, AllocError>
        ensures { IfOk result (λ cells. cells.items ≡ cells_in self) }
    {
        match self {
            CellList::Nothing => Ok(Vec::new(alloc)),
            CellList::One(cell) => {
                let mut cells = Vec::with_capacity(alloc, 1)?;
                cells.push(cell)?;
                Ok(cells)
            }
            CellList::Many(cells) => Ok(Box::into_inner(cells)),
        }
    }

    /// Takes the cells. The error is want of memory alone.
    pub fn take(&mut self, alloc: Global) -> Result<Vec<Cell>, AllocError>
        ensures { IfOk result (λ cells. cells.items ≡ cells_in self.old) }
    {
        mem::replace(self, CellList::Nothing).into_vec(alloc)
    }

    /// The cells. Takes no memory.
    pub fn as_slice(&self) -> &[Cell]
        ensures { result.now ≡ cells_in self.now }
    {
        match self {
            CellList::Nothing => &[],
            CellList::One(cell) => slice::from_ref(cell),
            CellList::Many(cells) => cells.as_slice(),
        }
    }
}
