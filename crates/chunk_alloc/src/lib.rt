//! The places of a store that are handed out for copies, one after the other: the least chunk that is no area's
//! place and lies past every place in use. It stands on `sector` and `cow_format`, decides over plain numbers alone and
//! takes no memory. It promises the kernel's places and the kernel's numbers of a status line.
#![tactic(auto)]

mod alloc;
mod usage;

pub use alloc::Alloc;
pub use usage::Usage;
