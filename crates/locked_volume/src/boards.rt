// The boards of a volume's places, and the passes to them.

use crossbeam_utils::CachePadded;
use std::marker::Model;
use thread_channels::{Board, BoardPass};

/// A volume has so many places for snapshots, which count from 0 in order of attaching.
pub const PLACES: usize = 8;

/// A board for each place of a volume, with nothing else on its cache lines. Contracts see which boards they are.
#[derive(Drop)]
pub struct Boards {
    pub(crate) padded: Vec<CachePadded<Board>>,
}

impl Model for Boards {
    ghost use Rattle.std.specs.Prelude.{List};
    ghost use Rattle.thread_channels.specs.BoardPasses.{BoardId};

    ghost Value = { List BoardId };

    ghost use Rattle.std.specs.Prelude.{◌≡◌, length, map};
    ghost use Rattle.crossbeam_utils.specs.Padded.{padded_value};

    ghost view = { λ b. map padded_value b.padded.items };

    ghost invariant = { λ b. length b.padded.items ≡ 8 };
}

/// The passes that publish on the boards of a volume. They take no bytes.
#[derive(Drop)]
pub struct Publishers {
    pub(crate) passes: Vec<BoardPass>,
}

impl Model for Publishers {
    ghost use Rattle.std.specs.Prelude.{List};
    ghost use Rattle.thread_channels.specs.BoardPasses.{Seen};

    ghost Value = { List Seen };

    ghost view = { λ p. p.passes.items };
}

/// The passes of one thread that read the boards of a volume. They take no bytes.
#[derive(Drop)]
pub struct Readers {
    pub(crate) passes: Vec<BoardPass>,
}

impl Model for Readers {
    ghost use Rattle.std.specs.Prelude.{List};
    ghost use Rattle.thread_channels.specs.BoardPasses.{Seen};

    ghost Value = { List Seen };

    ghost view = { λ r. r.passes.items };
}
