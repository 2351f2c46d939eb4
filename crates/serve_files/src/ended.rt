// How a command ended, and its exit status.
ghost use Rattle.std.specs.Prelude.{◌≡◌};
ghost use Rattle.serve_files.specs.Status.{status_by};

use crate::trouble::{Trouble, Why};

/// The exit status: 0 where it is done, 1 where a store is refused, or a snapshot or a merge is left out, 2 where it could not run.
pub fn status_of(done: &Result<(), Trouble<'_>>) -> u8
    ensures { result ≡ status_by done.now }
{
    match done {
        Ok(()) => 0,
        Err(trouble) => match &trouble.why {
            Why::Store(_) | Why::LeftOut(_) | Why::MergeLeft(_) => 1,
            _ => 2,
        },
    }
}
