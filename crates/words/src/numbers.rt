// Numbers as words.
ghost use Rattle.std.specs.Prelude.{◌≡◌, ◌≤◌, length, true, false, MatchOption};
ghost use Rattle.std.specs.Char.{is_ascii_digit};
ghost use Rattle.std.specs.List.{list_all};
ghost use Rattle.words.specs.Numbers.{number_after, number_of, numeral_of};

use sector::Refusal;

// The number that some bytes write; `None` where one of them is no digit.
#[tactic(auto, using(crate::proofs::Digits::number_here, crate::proofs::Digits::digit_here, crate::proofs::Digits::no_digit_here))]
fn digits(word: &[u8]) -> Option<u64>
    requires short { length word.now ≤ 10 }
    ensures { MatchOption result (list_all is_ascii_digit word.now ≡ false) (λ value. (list_all is_ascii_digit word.now ≡ true) × (value ≡ number_after 0 word.now)) }
{
    let mut value = 0u64;
    for byte in word {
        if !byte.is_ascii_digit() {
            return None;
        }
        value = value * 10 + u64::from(*byte - b'0');
    }
    Some(value)
}

/// The number that a word says: 1 to 10 decimal digits, zeros in front allowed, with a value below 2^32.
/// `None` for a word of another form.
pub fn number(word: &[u8]) -> Option<u32>
    ensures { result ≡ number_of word.now }
{
    if word.is_empty() || word.len() > 10 {
        return None;
    }
    u32::try_from(digits(word)?).ok()
}

/// The number that a word says, as `number`. `BadTable` for a word of another form.
pub fn numeral(word: &[u8]) -> Result<u32, Refusal>
    ensures { result ≡ numeral_of word.now }
{
    number(word).ok_or(Refusal::BadTable)
}
