// The cells of a picture.
ghost use Rattle.std.specs.Prelude.{◌<◌, ◌≤◌};

/// The cells of a picture of an origin.
#[derive(Drop)]
pub struct Cells {
    /// How many chunks the origin has.
    pub all: u64,
    /// How many a cell has, but for the last one.
    pub part: u64,
    /// How many pairs have their chunk in each cell.
    pub counts: Vec<u64>,
    pub ghost some: { 0 < part },
    pub ghost small: { all ≤ 68_719_476_736 },
}
