// The words of a line of /proc/locks.
ghost use Rattle.std.specs.Prelude.{◌≡◌};
ghost use Rattle.file_users.specs.Locks.{has_at, is_lock_by, number_or, is_writer_by};
ghost use Rattle.words.specs.Texts.{texts};

use words::number;

/// The byte that qemu locks where it may write to an image, whatever kind of lock it takes: 100, and 1 for its right to write.
const QEMU_WRITES: u32 = 101;

/// Whether a place has this word.
pub fn has_word(words: &[&[u8]], place: usize, text: &[u8]) -> bool
    ensures { result ≡ has_at (texts words.now) place text.now }
{
    match words.get(place) {
        Some(word) => *word == text,
        None => false,
    }
}

/// Whether a line tells of a lock by fcntl(2) on this file.
pub fn is_lock_on(words: &[&[u8]], file: &[u8]) -> bool
    ensures { result ≡ is_lock_by (texts words.now) file.now }
{
    (has_word(words, 1, b"POSIX") || has_word(words, 1, b"OFDLCK")) && has_word(words, 5, file)
}

/// The number at a place, or another one where there is none below 2^32.
fn number_at(words: &[&[u8]], place: usize, other: u32) -> u32
    ensures { result ≡ number_or (texts words.now) place other }
{
    match words.get(place) {
        Some(word) => number(*word).unwrap_or(other),
        None => other,
    }
}

/// Whether a lock says that its holder writes: it is one to write, or it has the byte that qemu locks then.
pub fn is_of_writer(words: &[&[u8]]) -> bool
    ensures { result ≡ is_writer_by (texts words.now) }
{
    let first = number_at(words, 6, u32::MAX);
    let last = number_at(words, 7, u32::MAX);
    has_word(words, 3, b"WRITE")
        || (has_word(words, 1, b"OFDLCK") && first <= QEMU_WRITES && QEMU_WRITES <= last)
}
