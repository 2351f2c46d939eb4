//! The pairs of a store in memory: the committed ones, in the order of their slots, and the pending ones, whose copies
//! are on their way. It stands on `sector` and `cow_format`. The trait `Exceptions` is what every form of the list promises
//! by two lists and a count. `Arena` is the lasting form: its committed pairs stand in one vector, in the order of their
//! slots, and a chain for each bucket leads through them, so that a look-up walks one short chain. `PlainExceptions` is
//! the plain form, with which tests compare it. Whatever is not `with_room`, `reserve` or `hold` needs no memory, and
//! so cannot fail for want of it.
#![tactic(auto)]

mod arena;
mod begun;
mod chains;
mod exceptions;
mod link;
mod node;
mod pending;
mod plain;
mod several;

pub use arena::Arena;
pub use begun::{Begun, Id};
pub use exceptions::Exceptions;
pub use plain::PlainExceptions;
pub use several::{abandon_all, finish_first, remove_last};
