// How serving ends.
ghost use Rattle.std.specs.Prelude.{◌≡◌};
ghost use Rattle.nbd_write_session.specs.declared.ended.Ended.TheVariants.{NoMemory};

use std::alloc::AllocError;
use std::io;

/// How serving came to its end. All that the client asked for is answered.
#[derive(Clone, Copy, PartialEq, Eq, Debug)]
pub enum Finish {
    /// The client went.
    Client,
    /// The array is not to be written any more. What it had not done is answered EIO.
    Array,
}

/// Why serving ended before the client went.
#[derive(Debug, Drop)]
pub enum Ended {
    /// The client could not be heard.
    Unheard(io::Error),
    /// The client could not be answered.
    Unsaid(io::Error),
    /// What came is no message of the protocol.
    NoClient,
    /// Memory is refused.
    NoMemory,
    /// The array has nothing to do, and a request is not answered; or it does not serve the export that was chosen.
    Stuck,
}

impl From<AllocError> for Ended {
    ghost from_gives = { λ _ e. e ≡ NoMemory };

    fn from(_error: AllocError) -> Ended {
        Ended::NoMemory
    }
}
