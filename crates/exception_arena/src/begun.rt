// A pair whose copy is begun and not finished.
use sector::Pair;

/// The number that a pending pair is known by. Two pairs that are pending at once have two numbers.
pub type Id = u64;

/// A pending pair, and its number.
#[derive(Clone, Copy, PartialEq, Eq)]
pub struct Begun {
    pub id: Id,
    pub pair: Pair,
}
