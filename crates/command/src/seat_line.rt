// What a line of a block asks for.

use sector::Buf;
use words::Name;

/// What a seat is to do. Numbers of sectors and places are in sectors; bytes are whole sectors.
#[derive(Drop)]
pub enum Work {
    /// `read DEV S N`: reads an origin or snapshot. `count` is 1 to 2048.
    Read { name: Name, first: u32, count: u32 },
    /// `write DEV S DATA`: writes an origin or snapshot. 1 to 2048 sectors.
    Write { name: Name, first: u32, bytes: Buf },
    /// `merge SNAP`: merges a snapshot into its origin.
    Merge { name: Name },
    /// A read of a number of sectors outside 1 to 2048, which is refused as its turn comes.
    OutsideRead { name: Name },
    /// A write of such a number.
    OutsideWrite { name: Name },
}

/// A line of a block: the seat whose line it is, 1 to 8, and what that is to do.
#[derive(Drop)]
pub struct SeatLine {
    pub seat: u8,
    pub work: Work,
}
