//! How a client of the Network Block Device protocol comes to an export: how far a session has come, the exports that there are,
//! and what each option is answered. It stands on `nbd_messages`, whose replies it writes.
//!
//! It promises that an option with any data is answered as `specs/Haggled` says, after the protocol's document, and that the
//! session is then so.
#![tactic(auto)]

mod context;
mod export;
mod finding;
mod haggling;
mod session;

pub use context::Context;
pub use export::Export;
pub use finding::found;
pub use haggling::{haggle, haggle_unread};
pub use session::{Contexts, Described, Place, Session, Stage};
