// The cells are drawn as SVG.
ghost use Rattle.std.specs.Prelude.{◌≡◌, ◌≤◌, ◌++◌, IfOk, OnOk};
ghost use Rattle.map_drawing.specs.Marks.{square, squares, drawing_text};

use crate::picture::Cells;
use cow_reports::push_number;
use std::alloc::{AllocError, Global};

/// The drawing of cells, in SVG.
pub fn cell_drawing(alloc: Global, cells: &Cells) -> Result<Vec<u8>, AllocError>
    ensures { IfOk result (λ text. text.items ≡ drawing_text cells.now) }
{
    let mut text = Vec::new(alloc);
    text.extend_from_slice(
        b"<svg xmlns=\"http://www.w3.org/2000/svg\" width=\"512\" height=\"128\">\n",
    )?;
    push_squares(&mut text, cells)?;
    text.extend_from_slice(b"</svg>\n")?;
    Ok(text)
}

/// Adds the squares of all cells.
fn push_squares(text: &mut Vec<u8>, cells: &Cells) -> Result<(), AllocError>
    ensures { OnOk result (text.new.items ≡ text.old.items ++ squares cells.now 0 cells.now.counts.items) }
{
    for (cell, count) in cells.counts.as_slice().iter().enumerate() {
        let level = cells.level(cell as u64, *count);
        push_square(text, cell as u64, level)?;
    }
    Ok(())
}

/// Adds the square of a cell.
fn push_square(text: &mut Vec<u8>, cell: u64, level: u64) -> Result<(), AllocError>
    ensures { OnOk result (text.new.items ≡ text.old.items ++ square cell level) }
{
    text.extend_from_slice(b"<rect x=\"")?;
    push_number(text, 8 * (cell % 64))?;
    text.extend_from_slice(b"\" y=\"")?;
    push_number(text, 8 * (cell / 64))?;
    text.extend_from_slice(b"\" width=\"8\" height=\"8\" fill-opacity=\"0.")?;
    push_number(text, level)?;
    text.extend_from_slice(b"\"/>\n")
}
