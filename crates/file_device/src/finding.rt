// A piece is found.
ghost use Rattle.std.specs.Prelude.{◌≡◌, ◌+◌, ◌≤◌};
ghost use Rattle.std.specs.List.{list_any, position};
ghost use Rattle.file_device.specs.Pieces.{has_all, meets};

use crate::piece::Piece;
use sector::Range;

/// The place of the first piece that has all these sectors.
pub(crate) fn piece_at(pieces: &[Piece], range: Range) -> Option<usize>
    ensures { result ≡ position (has_all range.first range.count) pieces.now }
{
    pieces.iter().position(|piece| piece.has(range))
}

/// Whether a piece has one of these sectors.
pub(crate) fn one_meets(pieces: &[Piece], range: Range) -> bool
    requires { range.first + range.count ≤ 2_147_483_648 }
    ensures { result ≡ list_any (meets range.first range.count) pieces.now }
{
    pieces.iter().any(|piece| piece.meets(range))
}
