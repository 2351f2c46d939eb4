// Why an image could not be read.

use std::io;

/// Why nothing is known of a store: its image could not be read.
#[derive(Debug, Drop)]
pub enum Failure {
    /// A read failed.
    Unreadable(io::Error),
    /// Memory is refused.
    NoMemory,
    /// The image has so many bytes, which are no whole number of sectors.
    PartOfSector(u64),
    /// The image has so many sectors, which are more than `MAX_IMAGE`.
    TooLarge(u64),
    /// The store was another one when it was read once more.
    Changed,
}
