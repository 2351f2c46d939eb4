// How a command ended, and its exit status.
ghost use Rattle.std.specs.Prelude.{◌≡◌};
ghost use Rattle.image_commands.specs.Status.{status_by};

use opened_files::Trouble;

/// How a command ended that could read and write what it had to.
#[derive(Drop)]
pub enum Ended<'a> {
    /// The store is good; two images are the same; a salvage lost nothing.
    Good,
    /// The store is refused; they differ; it left something out.
    Refused,
    /// A merge is done, and synced, but could not be told.
    Untold(Trouble<'a>),
}

impl<'a> Ended<'a> {
    /// By whether all is good.
    pub fn of(good: bool) -> Ended<'a> {
        if good { Ended::Good } else { Ended::Refused }
    }
}

/// The exit status: 0 where all is good, 1 where it is not, 2 where something could not be read or written, 3 where a merge is done
/// that could not be told.
pub fn status_of(done: &Result<Ended<'_>, Trouble<'_>>) -> u8
    ensures { result ≡ status_by done.now }
{
    match done {
        Ok(Ended::Good) => 0,
        Ok(Ended::Refused) => 1,
        Ok(Ended::Untold(_)) => 3,
        Err(_) => 2,
    }
}
