// What a journal holds, what it is asked about, and what stands beside it for each request in flight.
use crate::array::Array;
use plain_machine::{Overflowing, Reply, ReqId, Request, SnapId};
use sector::Buf;

/// A request that was answered, with the seat that submitted it.
#[derive(Drop)]
pub struct Answered {
    pub seat: u8,
    pub request: Request,
    pub reply: Reply,
}

/// One thing that callers see happen.
#[derive(Drop)]
pub enum Entry {
    Answered(Answered),
    /// A snapshot was spoiled. It is no seat's request: such entries belong to seat 0, and no seat's count counts them.
    Spoiled(SnapId),
    /// The store of a snapshot overflowed: from here on the snapshot takes no write. It is no seat's request either.
    Overflowed(SnapId),
    /// A snapshot was taken, with this array. Its store may overflow, or never does; and whether it was fresh: then the array is
    /// the origin's.
    Attached(SnapId, Array, Overflowing, bool),
    /// A snapshot was taken away.
    Detached(SnapId),
    /// A snapshot began to be merged: the origin is its array from here on.
    Begun(SnapId),
    /// The merge was taken out.
    Finished,
}

/// For a seat's request entry with this count, from 1: those that a checkpoint folded are counted too.
#[derive(Drop)]
pub struct Receipt {
    pub seat: u8,
    pub count: u64,
    pub request: Request,
    pub reply: Reply,
}

/// What a journal says of a receipt.
#[derive(Clone, Copy, PartialEq, Eq)]
pub enum Verdict {
    /// Its entry was folded into the base arrays by a checkpoint.
    Folded,
    /// Its entry stands in the journal, with the same request and reply.
    Agrees,
    Differs,
}

/// A snapshot of the base: its array, or none where it was spoiled, and whether its store may overflow, or did.
#[derive(Drop)]
pub struct Saved {
    pub number: SnapId,
    pub array: Option<Array>,
    pub overflow: Overflowing,
}

/// The arrays and states that the entries are replayed on.
#[derive(Drop)]
pub struct Base {
    pub origin: Array,
    /// The snapshot that is being merged.
    pub begun: Option<SnapId>,
    /// The others, in order of attaching.
    pub saved: Vec<Saved>,
}

/// A request in flight: who submitted it, and copies and room for its entry and its receipt.
#[derive(Drop)]
pub struct HeldRequest {
    pub number: ReqId,
    pub seat: u8,
    pub for_entry: Request,
    pub for_receipt: Request,
    pub entry_room: Buf,
    pub receipt_room: Buf,
}
