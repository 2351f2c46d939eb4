// What stands on a ticket.

/// A pending copy that a worker is to do.
#[derive(Clone, Copy, PartialEq, Eq)]
pub struct PendingCopy {
    /// The place of its volume, from 0.
    pub volume: usize,
    /// Its number in that volume.
    pub copy: u64,
    /// Which ticket it is, counted from 1 over all volumes.
    pub count: u64,
}

/// A pending copy, or the word that the worker who takes it is to stop.
#[derive(Clone, Copy, PartialEq, Eq)]
pub enum Ticket {
    Copy(PendingCopy),
    Stop,
}
