// Why a snapshot is read no more.

use std::io;

/// Why bytes were not given.
#[derive(Debug, Drop)]
pub enum Lost {
    /// A read of the origin failed.
    Origin(io::Error),
    /// A read of the store failed.
    Store(io::Error),
    /// Its header is not the one that it had: the snapshot is lost.
    Header,
    /// A pair that it had is gone, or is another: somebody merges it, or takes a new one.
    Pairs,
    /// Memory is refused.
    NoMemory,
}
