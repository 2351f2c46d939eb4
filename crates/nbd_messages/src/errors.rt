// The protocol's errors.
ghost use Rattle.std.specs.Prelude.{◌≡◌};
ghost use Rattle.nbd_messages.specs.Errors.{error_number};

/// Why a request was not done.
#[derive(Debug, Clone, Copy, PartialEq, Eq)]
pub enum ErrorValue {
    NotPermitted,
    /// A read, a write or a flush failed.
    Io,
    NoMemory,
    Invalid,
    /// There is no room for what is to be written.
    NoSpace,
    NotSupported,
}

impl ErrorValue {
    /// Its number.
    pub fn number(self) -> u32
        ensures { result ≡ error_number self }
    {
        match self {
            ErrorValue::NotPermitted => 1,
            ErrorValue::Io => 5,
            ErrorValue::NoMemory => 12,
            ErrorValue::Invalid => 22,
            ErrorValue::NoSpace => 28,
            ErrorValue::NotSupported => 95,
        }
    }
}
