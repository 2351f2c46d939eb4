// The sizes of stores, as words.
ghost use Rattle.std.specs.Prelude.{◌≡◌};
ghost use Rattle.serve_options.specs.Sizes.{size_by, unit_by, digits_by};

use words::number;

/// The bytes of the smallest store: a header and an area, in chunks of one sector.
pub const LEAST_BYTES: u64 = 1024;

/// The bytes of the largest store or origin, 2^31 sectors, 1 TiB: no device of a volume has more.
pub const MOST_BYTES: u64 = 1_099_511_627_776;

/// How many bytes a last letter stands for: 2^10, 2^20, 2^30 or 2^40 where it is K, M, G or T, and else one.
fn unit_of(letter: Option<u8>) -> u64
    ensures { result ≡ unit_by letter }
{
    match letter {
        Some(b'K') => 1024,
        Some(b'M') => 1_048_576,
        Some(b'G') => 1_073_741_824,
        Some(b'T') => 1_099_511_627_776,
        _ => 1,
    }
}

/// The word without its last letter, where that stands for more than one byte.
fn digits_of(word: &[u8], unit: u64) -> &[u8]
    ensures { result.now ≡ digits_by unit word.now }
{
    if unit == 1 {
        return word;
    }
    &word[..word.len().saturating_sub(1)]
}

/// The bytes of a store that a word says: a number below 2^32, and behind it K, M, G or T, or nothing. `None` for a word of
/// another form, for part of a sector, and for less than `LEAST_BYTES` or more than `MOST_BYTES`.
pub fn size_of(word: &[u8]) -> Option<u64>
    ensures { result ≡ size_by word.now }
{
    let unit = unit_of(word.last().copied());
    let count = number(digits_of(word, unit))?;
    let bytes = u64::from(count).saturating_mul(unit);
    if bytes % 512 == 0 && LEAST_BYTES <= bytes && bytes <= MOST_BYTES {
        return Some(bytes);
    }
    None
}
