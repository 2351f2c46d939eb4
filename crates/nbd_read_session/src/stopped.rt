// Why a session stops before its end.

ghost use Rattle.std.specs.Prelude.{◌≡◌};
ghost use Rattle.nbd_read_session.specs.declared.stopped.Stopped.TheVariants.{NoMemory};

use std::alloc::AllocError;
use std::io;

/// Why a session stopped before its end.
#[derive(Debug, Drop)]
pub enum Stopped {
    /// The client could not be heard.
    Unheard(io::Error),
    /// The client could not be answered.
    Unsaid(io::Error),
    /// Memory is refused.
    NoMemory,
}

impl From<AllocError> for Stopped {
    ghost from_gives = { λ _ e. e ≡ NoMemory };

    fn from(_error: AllocError) -> Stopped {
        Stopped::NoMemory
    }
}
