// How far a session has come.

use nbd_messages::BlockSizes;

/// An export that was found: its number, its size in bytes, and what is told of it.
#[derive(Clone, Copy, PartialEq, Eq)]
pub struct Place {
    pub export: usize,
    pub size: u64,
    pub flags: u16,
    pub blocks: Option<BlockSizes>,
    pub bitmap: bool,
}

/// Of which contexts of an export's blocks a client asks.
#[derive(Clone, Copy, PartialEq, Eq)]
pub struct Contexts {
    /// Which bytes are zeros.
    pub allocation: bool,
    /// Which bytes are marked.
    pub bitmap: bool,
}

/// The contexts that were chosen, and the export whose they are.
#[derive(Clone, Copy, PartialEq, Eq)]
pub struct Described {
    pub export: usize,
    pub contexts: Contexts,
}

/// What a session waits for.
#[derive(Clone, Copy, PartialEq, Eq)]
pub enum Stage {
    /// The client's flags.
    Opening,
    /// Options.
    Haggling,
    /// Requests of an export.
    Serving(Place),
    /// Nothing.
    Over,
}

/// What was agreed on, and what a session waits for.
#[derive(Clone, Copy, PartialEq, Eq)]
pub struct Session {
    /// The client wants no zeros after an export's flags.
    pub no_zeroes: bool,
    /// Reads are answered by structured replies.
    pub structured: bool,
    /// The contexts of which the client may ask.
    pub described: Option<Described>,
    pub stage: Stage,
}
