//! Chooses the lines to drop and to add by a longest common subsequence of a part of both texts. No contract depends on
//! it: the output is a diff of the texts whatever it returns.

use crate::hashed_line::HashedLine;
use crate::single_lines::Indices;
use std::alloc::{AllocError, Global};

/// The number of lines of each text that are compared at a time.
const WINDOW: usize = 256;

/// The compared part of both texts, and the number of lines that its ends have in common, in order.
#[derive(Drop)]
pub struct Guide {
    old_end: usize,
    new_end: usize,
    /// The length of a row.
    width: usize,
    /// A row for each number of last lines of the old part, with a cell for each number of last lines of the new part.
    cells: Vec<u16>,
    /// Whether the parts have no line in common.
    is_apart: bool,
}

/// Returns the cell at the index, or 0 past the end.
fn cell_at(cells: &[u16], index: usize) -> u16 {
    match cells.get(index) {
        Some(cell) => *cell,
        None => 0,
    }
}

/// Adds a row to the cells, for one more line of the old part; the row before it begins at `above`.
fn push_row(
    cells: &mut Vec<u16>,
    above: usize,
    line: &HashedLine<'_>,
    new: &[HashedLine<'_>],
) -> Result<(), AllocError> {
    cells.push(0)?;
    let mut before = 0;
    let mut column = above;
    let mut left = new.len();
    while left > 0 {
        left -= 1;
        let cell = if line.hash() == new[left].hash() {
            cell_at(cells, column).saturating_add(1)
        } else {
            before.max(cell_at(cells, column.saturating_add(1)))
        };
        cells.push(cell)?;
        before = cell;
        column = column.saturating_add(1);
    }
    Ok(())
}

/// Returns the cells of two parts.
fn cells_of(
    alloc: Global,
    old: &[HashedLine<'_>],
    new: &[HashedLine<'_>],
) -> Result<Vec<u16>, AllocError> {
    let mut cells = Vec::new(alloc);
    for _ in 0..new.len() {
        cells.push(0)?;
    }
    cells.push(0)?;
    let mut above = 0;
    let mut left = old.len();
    while left > 0 {
        left -= 1;
        let next = cells.len();
        push_row(&mut cells, above, &old[left], new)?;
        above = next;
    }
    Ok(cells)
}

/// Returns at most `WINDOW` lines from the index on, before `end`.
fn part<'a, 'b>(lines: &'b [HashedLine<'a>], from: usize, end: usize) -> &'b [HashedLine<'a>] {
    let to = lines.len().min(end).min(from.saturating_add(WINDOW));
    if from > to {
        return &lines[..0];
    }
    &lines[from..to]
}

impl Guide {
    /// Returns a guide of an empty part.
    pub fn new(alloc: Global) -> Guide {
        Guide {
            old_end: 0,
            new_end: 0,
            width: 1,
            cells: Vec::new(alloc),
            is_apart: true,
        }
    }

    /// Compares a part of the old text with a part of the new one.
    pub fn look(
        alloc: Global,
        old: &[HashedLine<'_>],
        new: &[HashedLine<'_>],
        from: Indices,
        to: Indices,
    ) -> Result<Guide, AllocError> {
        let old_part = part(old, from.old, to.old);
        let new_part = part(new, from.new, to.new);
        let cells = cells_of(alloc, old_part, new_part)?;
        let is_apart = cell_at(&cells, cells.len().saturating_sub(1)) == 0;
        Ok(Guide {
            old_end: from.old.saturating_add(old_part.len()),
            new_end: from.new.saturating_add(new_part.len()),
            width: new_part.len().saturating_add(1),
            cells,
            is_apart,
        })
    }

    /// Returns the number of lines that both texts have in common, in order, from these indices to the end of the part.
    fn common(&self, i: usize, j: usize) -> u16 {
        let row = self.old_end.saturating_sub(i);
        let column = self.new_end.saturating_sub(j);
        cell_at(
            &self.cells,
            row.saturating_mul(self.width).saturating_add(column),
        )
    }

    /// Returns whether the guide can decide at these indices. If nothing is left in common within the part, a part that
    /// begins there can decide better.
    pub fn covers(&self, i: usize, j: usize) -> bool {
        if self.is_apart {
            return i < self.old_end || j < self.new_end;
        }
        self.common(i, j) > 0
    }

    /// Returns whether to drop the line of the old text before adding one of the new text.
    pub fn drops(&self, i: usize, j: usize) -> bool {
        if i >= self.old_end {
            return false;
        }
        if j >= self.new_end {
            return true;
        }
        self.common(i.saturating_add(1), j) >= self.common(i, j.saturating_add(1))
    }
}
