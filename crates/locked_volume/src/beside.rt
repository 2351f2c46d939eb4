// What stands beside a volume's lock.

use crate::History;
use crate::boards::Boards;

/// The history of a volume's journal, and the boards of its places.
#[derive(Drop)]
pub struct Beside {
    pub history: History,
    pub boards: Boards,
}
