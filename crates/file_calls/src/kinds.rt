// The kinds of calls, as the record keeps them.

pub(crate) const LEN: u64 = 0;

pub(crate) const READ: u64 = 1;

pub(crate) const WRITE: u64 = 2;

pub(crate) const SET_LEN: u64 = 3;

pub(crate) const SYNC: u64 = 4;
