// Why no snapshot is opened.

use sector::Refusal;

/// Why no snapshot is opened.
#[derive(Clone, Copy, PartialEq, Eq)]
pub enum NotOpened {
    /// Memory is refused.
    NoMemory,
    /// The store has a snapshot, and one is to be taken.
    Written,
    /// The store is empty, and a snapshot is to be loaded.
    Fresh,
    /// The store is refused, or the volume takes no more.
    Refused(Refusal),
    /// The origin could not be synced.
    OriginFailed,
    /// The store could not be read, written or synced.
    StoreFailed,
}
