// The cells are drawn in a terminal.
ghost use Rattle.std.specs.Prelude.{◌≡◌, ◌≤◌, ◌<◌, ◌++◌, length, IfOk, OnOk};
ghost use Rattle.map_drawing.specs.Marks.{begins, ends, cell_text, cells_text, rows_text};

use crate::picture::Cells;
use cow_reports::push_line;
use std::alloc::{AllocError, Global};

/// The marks of cells, from none with copies to all.
const MARKS: &[u8] = b" .:-=+*#%@";

/// What `map --picture` prints: how many chunks a cell has, and rows of cells.
pub fn cell_rows(alloc: Global, cells: &Cells) -> Result<Vec<u8>, AllocError>
    ensures { IfOk result (λ text. text.items ≡ rows_text cells.now) }
{
    let mut text = Vec::new(alloc);
    push_line(&mut text, b"cell", cells.part)?;
    push_cells(&mut text, cells)?;
    Ok(text)
}

/// Adds the marks of all cells.
fn push_cells(text: &mut Vec<u8>, cells: &Cells) -> Result<(), AllocError>
    ensures { OnOk result (text.new.items ≡ text.old.items ++ cells_text cells.now 0 cells.now.counts.items) }
{
    let number = cells.counts.len() as u64;
    for (cell, count) in cells.counts.as_slice().iter().enumerate() {
        let level = cells.level(cell as u64, *count);
        push_cell(text, number, cell as u64, level)?;
    }
    Ok(())
}

/// Adds the mark of a cell.
fn push_cell(text: &mut Vec<u8>, number: u64, cell: u64, level: u64) -> Result<(), AllocError>
    requires low { level ≤ 9 }
    requires inside { cell < number }
    ensures { OnOk result (text.new.items ≡ text.old.items ++ cell_text number cell level) }
{
    push_begin(text, cell)?;
    text.push(MARKS[level as usize])?;
    push_end(text, number, cell)
}

/// Adds the bar before the first cell of a row.
fn push_begin(text: &mut Vec<u8>, cell: u64) -> Result<(), AllocError>
    ensures { OnOk result (text.new.items ≡ text.old.items ++ begins cell) }
{
    if cell % 64 == 0 {
        return text.extend_from_slice(b"|");
    }
    Ok(())
}

/// Adds the bar behind the last cell of a row, where there are so many cells.
fn push_end(text: &mut Vec<u8>, number: u64, cell: u64) -> Result<(), AllocError>
    requires { cell < number }
    ensures { OnOk result (text.new.items ≡ text.old.items ++ ends number cell) }
{
    if cell % 64 == 63 || cell + 1 == number {
        return text.extend_from_slice(b"|\n");
    }
    Ok(())
}
