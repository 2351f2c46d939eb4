// What is asked of a device, and what its layers do with it.

/// What is asked of a device: to read or to write sectors, told by the first and by how many they are, or to flush,
/// which makes all that was written last through a loss of power.
#[derive(Clone, Copy, PartialEq, Eq)]
pub enum Operation {
    Reads(u64, u32),
    Writes(u64, u32),
    Flushes,
}

/// What becomes of an operation: it is done, it answers a fault, or it is answered without being done.
#[derive(Clone, Copy, PartialEq, Eq)]
pub enum Fate {
    Pass,
    Fail,
    Drop,
}
