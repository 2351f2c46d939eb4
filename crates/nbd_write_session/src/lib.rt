//! A client's session with an array that is read and written, by the Network Block Device protocol: requests are taken in as they
//! arrive, are done in pieces, and are answered in any order. It stands on `nbd_messages`, `nbd_options` and `nbd_jobs`; the array
//! is any that does pieces, by the trait `Array`.
//!
//! It promises of a whole session, where it ends well: what is said is the greeting, the answers to options, and one reply to each
//! request that was taken, under its cookie, and nothing else; where the client ends it, no whole request is left but one that
//! disconnects. `specs/Session` says so. At most `nbd_jobs::MOST_JOBS` requests are held, and `MOST_BYTES` of their bytes before the
//! last.
//!
//! Each reply is what the calls of the array say till then: the request's sectors were asked for piece by piece, each once, a write's
//! with the client's bytes; a read is answered the bytes that came back, each piece's at its place; a flush, or a write that is to last,
//! is answered once a flush that was asked behind its pieces is back; an error is the first of its pieces, or EIO where the array ended.
//! `specs/Pieces` and `specs/Answered` say so.
//!
//! However a session ends, well or with an error, the array came to its state by calls of the trait, and by nothing else
//! (`specs/Reached`).
#![tactic(auto)]

mod ended;
mod input;
mod line;
mod options;
mod serving;
mod taking;
mod working;

pub use ended::{Ended, Finish};
pub use serving::serve;
pub use taking::MOST_BYTES;
