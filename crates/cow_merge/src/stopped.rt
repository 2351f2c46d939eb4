// Why a merge stopped.
ghost use Rattle.std.specs.Prelude.{◌≡◌};
ghost use Rattle.cow_merge.specs.declared.stopped.Stopped.TheVariants.{Failed};

use std::io;

/// Why a merge stopped.
#[derive(Debug, Drop)]
pub enum Stopped {
    /// A read, a write or a sync failed.
    Failed(io::Error),
    /// The store is not the one that was looked at.
    Changed,
}

impl From<io::Error> for Stopped {
    ghost from_gives = { λ error stopped. stopped ≡ Failed error };

    fn from(error: io::Error) -> Stopped {
        Stopped::Failed(error)
    }
}
