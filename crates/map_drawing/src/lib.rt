//! Which parts of an origin have copies, as a picture: cells of equal parts, each by how many of its chunks have pairs. It stands on
//! `sector`, and on `cow_reports` for numbers.
//!
//! It promises that a cell's count is that of the pairs whose chunks are in it, and that both drawings are by these counts alone.
#![tactic(auto)]

mod cells;
mod drawing;
mod picture;
mod rows;

pub use cells::count_cells;
pub use drawing::cell_drawing;
pub use picture::Cells;
pub use rows::cell_rows;
