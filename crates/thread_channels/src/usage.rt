// What a board says of a store, and the word that stands for it.

ghost use Rattle.std.specs.Prelude.{◌≡◌, ℕ};
ghost use Rattle.thread_channels.specs.Words.{IsNarrow, no_usage, state_code, usage_word};

// A word's fields have 4, 28 and 28 bits: the state, what is allocated, what is metadata.
const FIELD: u64 = 1 << 28;

/// What a place of a volume says of its snapshot, in the words of the kernel's status line.
#[derive(Clone, Copy, PartialEq, Eq)]
pub enum PlaceState {
    /// The snapshot is live, and the numbers count.
    Good,
    /// The snapshot is spoiled.
    Invalid,
    /// A merge of the snapshot failed, and stands still.
    MergeFailed,
    /// The store was too small for what it had to keep.
    Overflow,
    /// The place has no snapshot.
    Empty,
}

/// How much of a store is in use. Both numbers are in sectors.
#[derive(Clone, Copy, PartialEq, Eq)]
pub struct PlaceUsage {
    pub state: PlaceState,
    /// The front of the store, up to the next place.
    pub allocated: u64,
    /// The header and the areas up to the current one.
    pub metadata: u64,
}

impl PlaceState {
    // The number that stands for a state.
    fn code(self) -> u64
        ensures { result ≡ state_code self }
    {
        match self {
            PlaceState::Good => 0,
            PlaceState::Invalid => 1,
            PlaceState::MergeFailed => 2,
            PlaceState::Overflow => 3,
            PlaceState::Empty => 4,
        }
    }

    // The state that a number stands for. Numbers past the last one stand for an empty place.
    fn of_code(code: u64) -> PlaceState
        ensures { (state : PlaceState) → code ≡ state_code state → result ≡ state }
    {
        match code {
            0 => PlaceState::Good,
            1 => PlaceState::Invalid,
            2 => PlaceState::MergeFailed,
            3 => PlaceState::Overflow,
            _ => PlaceState::Empty,
        }
    }
}

impl PlaceUsage {
    /// The usage of a place that has no snapshot.
    pub fn empty() -> PlaceUsage
        ensures { result ≡ no_usage }
    {
        PlaceUsage {
            state: PlaceState::Empty,
            allocated: 0,
            metadata: 0,
        }
    }

    /// The word that stands for a usage. Both numbers are below 2^28.
    pub fn to_word(self) -> u64
        requires { IsNarrow self }
        ensures { result ≡ usage_word self }
    {
        (self.state.code() * FIELD + self.allocated) * FIELD + self.metadata
    }

    /// The usage that a word stands for: the one whose word it is. Where it is no usage's word, some usage.
    pub fn from_word(word: u64) -> PlaceUsage
        ensures inverse { (usage : PlaceUsage) → IsNarrow usage → word ≡ usage_word usage → result ≡ usage }
        ensures narrow { IsNarrow result }
    {
        let front = word / FIELD;
        PlaceUsage {
            state: PlaceState::of_code(front / FIELD),
            allocated: front % FIELD,
            metadata: word % FIELD,
        }
    }
}
