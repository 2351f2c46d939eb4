// A failed operation.

/// The answer of a device to an operation that failed. The fault was counted, and nothing else changed.
#[derive(Clone, Copy, Debug, PartialEq, Eq)]
pub struct Io;
