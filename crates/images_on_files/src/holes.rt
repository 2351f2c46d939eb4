// Blocks of zeros are found among bytes that are to be written from a place of a file on.
ghost use Rattle.std.specs.Prelude.{◌≡◌, ◌+◌, ◌-◌, ◌^◌, ◌<◌, ◌≤◌, length, take, drop, replicate, true};

/// How many bytes a block of a file has, at whose multiples blocks begin.
const BLOCK: usize = 4096;

/// Where the block ends that a byte lies in, among bytes from a place of a file on.
fn block_end(at: u64, len: usize, place: usize) -> usize
    requires near { at + len < 2 ^ 64 }
    requires inside { place < len }
    ensures more { place < result }
    ensures inside { result ≤ len }
{
    let left = BLOCK - ((at + place as u64) % BLOCK as u64) as usize;
    place + left.min(len - place)
}

/// Whether these bytes are all zeros.
fn are_zeros(bytes: &[u8]) -> bool
    ensures { result ≡ true → bytes.now ≡ replicate (length bytes.now) 0 }
{
    let mut seen = 0;
    for byte in bytes {
        seen |= *byte;
    }
    seen == 0
}

/// The first byte from one on of a block that is not all zeros, or the end.
pub(crate) fn data_begins(at: u64, bytes: &[u8], from: usize) -> usize
    requires near { at + length bytes.now < 2 ^ 64 }
    requires inside { from ≤ length bytes.now }
    ensures after { from ≤ result }
    ensures inside { result ≤ length bytes.now }
    ensures zeros { take (result - from) (drop from bytes.now) ≡ replicate (result - from) 0 }
{
    let mut place = from;
    while place < bytes.len() {
        let end = block_end(at, bytes.len(), place);
        if !are_zeros(&bytes[place..end]) {
            return place;
        }
        place = end;
    }
    place
}

/// Where the blocks end that follow one another from a byte on and are not all zeros, the first of which is one.
pub(crate) fn data_ends(at: u64, bytes: &[u8], from: usize) -> usize
    requires near { at + length bytes.now < 2 ^ 64 }
    requires inside { from ≤ length bytes.now }
    ensures after { from ≤ result }
    ensures more { from < length bytes.now → from < result }
    ensures inside { result ≤ length bytes.now }
{
    let mut place = from;
    while place < bytes.len() {
        let end = block_end(at, bytes.len(), place);
        if from < place && are_zeros(&bytes[place..end]) {
            return place;
        }
        place = end;
    }
    place
}
