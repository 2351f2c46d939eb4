// What is to be done of a job.

/// What is asked of the array.
#[derive(Clone, Copy, PartialEq, Eq)]
pub enum Kind {
    Read,
    /// The job's own bytes are written.
    Write,
    Zeroes,
    /// What was written is made to last.
    Flush,
}

/// A piece of the job with this number that is to be done: sectors of the array, of which the first is so many behind the job's first.
#[derive(Clone, Copy, PartialEq, Eq)]
pub struct Work {
    pub serial: u64,
    pub kind: Kind,
    pub first: u64,
    pub count: u32,
    pub at: u32,
}
