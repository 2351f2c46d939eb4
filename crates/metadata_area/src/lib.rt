//! One area of a store in memory: a chunk of slots, each of which holds a pair of chunks or is empty, in the format of
//! dm-snap-persistent.c. It stands on `sector` and `cow_format`. Its bytes are those of the chunk on the store, and
//! it promises exactly what each change writes into them, so that nothing else of the area changes.
#![tactic(auto)]

mod area;
mod clear;
mod scan;

pub use area::Area;
