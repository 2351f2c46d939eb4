// What a place of a form takes.
ghost use Rattle.std.specs.Prelude.{◌≡◌, ◌^◌, ◌&&◌, nat_le, nat_lt};
ghost use Rattle.words.specs.Numbers.{number_of};
ghost use Rattle.words.specs.Texts.{texts};
ghost use Rattle.explain_syntax.specs.Slots.{is_one_of, name_words, number_words, seconds_words, feature_words, slot_of, goes_on, passes, is_block, choices_in, slot_takes, takes};

use command::run_in;
use words::{is_a_name, number};

/// What a place of a form takes.
#[derive(Clone, Copy, PartialEq, Eq)]
pub enum Slot {
    /// A device's name.
    Name,
    /// A number.
    Number,
    /// A number of seconds, below 2^31.
    Seconds,
    /// The bytes of a dust block.
    Block,
    /// The number of a seat.
    Seat,
    /// A data word, and more of them behind it.
    Data,
    /// A feature of a flakey layer, and more of them behind it.
    Feature,
    /// One of the words that the form has there, with `|` between them.
    Word,
}

/// Whether a word is one of these.
pub fn is_one_of(ones: &[&str], word: &[u8]) -> bool
    ensures { result ≡ is_one_of (texts ones.now) word.now }
{
    for one in ones {
        if one.as_bytes() == word {
            return true;
        }
    }
    false
}

/// Whether a word of a form stands for a name.
#[tactic(auto, unfolding(crate::specs::Slots::name_words))]
fn is_for_names(word: &[u8]) -> bool
    ensures { result ≡ is_one_of name_words word.now }
{
    let names = ["NAME", "DEV", "DISK", "VOL", "SNAP", "STORE"];
    is_one_of(&names, word)
}

/// Whether a word of a form stands for a number.
#[tactic(auto, unfolding(crate::specs::Slots::number_words))]
fn is_for_numbers(word: &[u8]) -> bool
    ensures { result ≡ is_one_of number_words word.now }
{
    let numbers = ["S", "N", "K", "R", "SECTORS", "SECONDS", "OFFSET", "CHUNK"];
    is_one_of(&numbers, word)
}

/// Whether a word of a form stands for a number of seconds.
#[tactic(auto, unfolding(crate::specs::Slots::seconds_words))]
fn is_for_seconds(word: &[u8]) -> bool
    ensures { result ≡ is_one_of seconds_words word.now }
{
    let seconds = ["UP", "DOWN"];
    is_one_of(&seconds, word)
}

/// What a word of a form takes: `NAME`, `S` and the like say it, and any other word stands for itself.
#[tactic(auto, unfolding(crate::specs::Slots::slot_of))]
pub fn slot_of(word: &[u8]) -> Slot
    ensures { result ≡ slot_of word.now }
{
    if is_for_names(word) {
        Slot::Name
    } else if is_for_numbers(word) {
        Slot::Number
    } else if is_for_seconds(word) {
        Slot::Seconds
    } else if word == b"BLOCK".as_slice() {
        Slot::Block
    } else if word == b"SEAT".as_slice() {
        Slot::Seat
    } else if word == b"DATA".as_slice() {
        Slot::Data
    } else if word == b"FEATURE".as_slice() {
        Slot::Feature
    } else {
        Slot::Word
    }
}

/// Whether words stand at this place till the line's end.
pub fn goes_on(slot: Slot) -> bool
    ensures { result ≡ goes_on slot }
{
    match slot {
        Slot::Data | Slot::Feature => true,
        _ => false,
    }
}

/// Whether a word is a number of seconds.
fn is_seconds(word: &[u8]) -> bool
    ensures { result ≡ passes (λ n. nat_lt n (2 ^ 31)) (number_of word.now) }
{
    match number(word) {
        Some(seconds) => seconds < 2_147_483_648,
        None => false,
    }
}

/// Whether a word is the size of a dust block.
fn is_block(word: &[u8]) -> bool
    ensures { result ≡ passes is_block (number_of word.now) }
{
    match number(word) {
        Some(size) => size.is_power_of_two() && 512 <= size && size <= 1_073_741_824,
        None => false,
    }
}

/// Whether a word is the number of a seat.
fn is_seat(word: &[u8]) -> bool
    ensures { result ≡ passes (λ n. nat_le 1 n && nat_le n 8) (number_of word.now) }
{
    match number(word) {
        Some(seat) => 1 <= seat && seat <= 8,
        None => false,
    }
}

/// Whether a word is a feature of a flakey layer.
#[tactic(auto, unfolding(crate::specs::Slots::feature_words))]
fn is_feature(word: &[u8]) -> bool
    ensures { result ≡ is_one_of feature_words word.now }
{
    let features = ["error_reads", "error_writes", "drop_writes"];
    is_one_of(&features, word)
}

/// Whether a word is one of those with `|` between them.
fn is_among(word: &[u8], choices: &[u8]) -> bool
    ensures { result ≡ is_one_of (choices_in choices.now) word.now }
{
    choices.split(|byte| *byte == b'|').any(|one| one == word)
}

/// Whether a word is one that a place takes, where a form has this there.
fn slot_takes(slot: Slot, wants: &[u8], word: &[u8]) -> bool
    ensures { result ≡ slot_takes slot wants.now word.now }
{
    match slot {
        Slot::Name => is_a_name(word),
        Slot::Number => number(word).is_some(),
        Slot::Seconds => is_seconds(word),
        Slot::Block => is_block(word),
        Slot::Seat => is_seat(word),
        Slot::Data => run_in(word).is_some(),
        Slot::Feature => is_feature(word),
        Slot::Word => is_among(word, wants),
    }
}

/// Whether a word is one that this word of a form takes.
#[tactic(auto, unfolding(crate::specs::Slots::takes))]
pub fn takes(wants: &[u8], word: &[u8]) -> bool
    ensures { result ≡ takes wants.now word.now }
{
    slot_takes(slot_of(wants), wants, word)
}
