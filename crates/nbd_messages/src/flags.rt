// The flags of an export, which tell a client what it may ask for: "Transmission flags" of the protocol's document.

/// There are flags.
pub const HAS_FLAGS: u16 = 1;

/// It is only read.
pub const READ_ONLY: u16 = 2;

/// It takes FLUSH.
pub const SEND_FLUSH: u16 = 4;

/// It takes FUA, with which a write lasts before it is answered.
pub const SEND_FUA: u16 = 8;

/// It takes WRITE_ZEROES.
pub const SEND_WRITE_ZEROES: u16 = 64;

/// Several connections show the same bytes.
pub const CAN_MULTI_CONN: u16 = 256;

/// The flags of an export that is only read: there are flags, it is only read, it takes FLUSH, several connections show the same
/// bytes.
pub const READ_FLAGS: u16 = 263;

/// The flags of an export that is read and written: there are flags, it takes FLUSH, FUA and WRITE_ZEROES.
pub const WRITE_FLAGS: u16 = 77;
