// The first word of a line, and what stands after it.
ghost use Rattle.std.specs.Prelude.{◌≡◌, ◌<◌, [], ◌∷◌, IfSome, MatchOption, length, not, position};
ghost use Rattle.std.specs.List.{after_first, before_first};
ghost use Rattle.words.specs.Words.{words_of};
ghost use Rattle.words.specs.Word.{after_word, first_word, is_space, unspaced};

use crate::wide::place_of;

/// Where the first byte stands that is no space.
fn start_at(line: &[u8]) -> Option<usize>
    ensures place { result ≡ position (λ byte. not (is_space byte)) line.now }
    ensures within { IfSome result (λ i. i < length line.now) }
{
    line.iter().position(|byte| *byte != b' ')
}

/// What stands after the spaces at its beginning.
#[tactic(auto, using(crate::proofs::Parts::start_some, crate::proofs::Parts::start_none))]
fn unspaced(line: &[u8]) -> &[u8]
    ensures { result.now ≡ unspaced line.now }
{
    match start_at(line) {
        Some(start) => &line[start..],
        None => &line[line.len()..],
    }
}

/// The bytes up to the first space, or all.
#[tactic(auto, using(crate::proofs::Parts::word_some, crate::proofs::Parts::word_none))]
fn before_space(line: &[u8]) -> &[u8]
    ensures { result.now ≡ before_first is_space line.now }
{
    match place_of(line, b' ') {
        Some(end) => &line[..end],
        None => line,
    }
}

/// The bytes after the first space.
#[tactic(auto, using(crate::proofs::Parts::after_some, crate::proofs::Parts::after_none))]
fn after_space(line: &[u8]) -> &[u8]
    ensures { result.now ≡ after_first is_space line.now }
{
    match place_of(line, b' ') {
        Some(end) => &line[end + 1..],
        None => &line[line.len()..],
    }
}

/// The first word; it has no byte where there is none.
pub fn first_word(line: &[u8]) -> &[u8]
    ensures { result.now ≡ first_word line.now }
{
    before_space(unspaced(line))
}

/// What stands after the first word and the space that ends it.
pub fn after_word(line: &[u8]) -> &[u8]
    ensures { result.now ≡ after_word line.now }
{
    after_space(unspaced(line))
}

// `first_word` and `after_word` at once.
#[tactic(auto, using(crate::proofs::Parts::word_some, crate::proofs::Parts::word_none, crate::proofs::Parts::after_some, crate::proofs::Parts::after_none))]
fn cut_word(line: &[u8]) -> (&[u8], &[u8])
    ensures word { result.0.now ≡ first_word line.now }
    ensures rest { result.1.now ≡ after_word line.now }
{
    let line = unspaced(line);
    match place_of(line, b' ') {
        Some(end) => (&line[..end], &line[end + 1..]),
        None => (line, &line[line.len()..]),
    }
}

/// The first word, and what stands after it and the space that ends it, which holds the other words; `None` where there is no
/// word.
#[tactic(auto, using(crate::proofs::Cut::words_none, crate::proofs::Cut::words_some, crate::proofs::Cut::after_shorter))]
pub fn next_word(line: &[u8]) -> Option<(&[u8], &[u8])>
    ensures words { MatchOption result (words_of line.now ≡ []) (λ cut. words_of line.now ≡ cut.0.now ∷ words_of cut.1.now) }
    ensures shorter { IfSome result (λ cut. length cut.1.now < length line.now) }
{
    let (word, rest) = cut_word(line);
    if word.is_empty() {
        None
    } else {
        Some((word, rest))
    }
}
