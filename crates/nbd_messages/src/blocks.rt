// The lengths of requests that an export takes.

/// The least length of a request, the best one, and the greatest one of a read or a write, in bytes. The first is also what
/// offsets and lengths are multiples of.
#[derive(Clone, Copy, PartialEq, Eq)]
pub struct BlockSizes {
    pub least: u32,
    pub best: u32,
    pub most: u32,
}
