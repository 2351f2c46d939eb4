// Files are locked by flock(2).

use crate::trouble::{Trouble, Why};
use std::fs::{File, TryLockError};

/// How a file is locked.
#[derive(Clone, Copy, PartialEq, Eq)]
pub(crate) enum Lock {
    /// As other programs may too that only read it.
    Shared,
    /// Against all other programs that lock it.
    Alone,
}

/// Locks a file: `Locked` where another program has locked it already in a way that goes not with this.
pub(crate) fn is_locked<'a>(name: &'a str, file: &File, lock: Lock) -> Result<(), Trouble<'a>> {
    let locked = match lock {
        Lock::Shared => file.try_lock_shared(),
        Lock::Alone => file.try_lock(),
    };
    let why = match locked {
        Ok(()) => return Ok(()),
        Err(TryLockError::WouldBlock) => Why::Locked,
        Err(TryLockError::Error(error)) => Why::File(error),
    };
    Err(Trouble::new(name, why))
}
