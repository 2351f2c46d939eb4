// Why the pairs of a store are not well formed.

use sector::Pair;

/// What is wrong with the pairs of a store. Slots are counted from 0 over all areas.
#[derive(Clone, Copy, PartialEq, Eq)]
pub enum Fault {
    /// The old chunk of a slot's pair begins past the origin's end.
    PastOrigin { slot: u64, pair: Pair },
    /// The new chunk of a slot's pair is the header's, or does not lie wholly inside the store.
    OutsideStore { slot: u64, pair: Pair },
    /// The new chunk of a slot's pair is an area's place.
    AtArea { slot: u64, pair: Pair },
    /// The old chunk of a slot's pair stands in an earlier slot.
    OldTwice { slot: u64, pair: Pair },
    /// The new chunk of a slot's pair stands in an earlier slot.
    NewTwice { slot: u64, pair: Pair },
}
