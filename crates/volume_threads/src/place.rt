// A volume's lock, and what stands beside it.
ghost use Rattle.std.specs.Prelude.{◌≡◌, true};
ghost use Rattle.chunk.specs.Sizes.{is_chunk};
ghost use Rattle.locked_volume.specs.Beside.{IsBeside};
ghost use Rattle.locked_volume.specs.Fixed.{piece_at};

use layers::Layered;
use locked_volume::{Beside, Post, Room};
use std::sync::{Condvar, Mutex};

/// A volume's lock, what tells that something happened under it, and its history and its boards.
#[derive(Drop)]
pub struct VolumePlace<B: Layered, J: Room> {
    pub(crate) volume: usize,
    /// The sectors of a piece: of the least chunk of the snapshots, the one that is being merged among them. None is attached,
    /// detached or taken out of its merge while a rig stands, so that they stay what they were when it was made.
    pub(crate) piece: u32,
    pub(crate) lock: Mutex<Post<B, J>>,
    pub(crate) moved: Condvar,
    pub(crate) beside: Beside,
    ghost is_allowed: { is_chunk piece ≡ true },
    ghost is_piece: { piece ≡ piece_at (J.fixed volume) },
    ghost is_beside: { IsBeside (J.history volume) (J.boards volume) beside },
}
