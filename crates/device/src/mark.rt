// Where a disk has the value that a sector had at the last flush.

/// Where a disk has the value that a sector had at the last flush.
#[derive(Clone, Copy, PartialEq, Eq)]
pub enum Mark {
    /// It is the value now, and zero: the sector was never written.
    Fresh,
    /// It is the value now.
    Same,
    /// It is zero: the sector was written for the first time since.
    Zero,
    /// It was kept aside before a write.
    Kept,
    /// It is the value now, which was made so by a load; the value that was kept aside before is not used any more.
    Loaded,
}
