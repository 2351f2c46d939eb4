//! Images of devices: bytes that are read at an offset, from memory, or from one that fails once; sinks, to which bytes are
//! written one after the other; and sets of two files with volatile caches, which are read, written by whole sectors and
//! synced. It stands on `sector`, in whose terms sectors are said. Over files of a disk they are in `images_on_files`.
//!
//! It promises that a read gives the bytes at its offset, that a write adds its bytes or a front of them, and of a set of files
//! what a stop at any moment may leave of each sector, wherever the bytes are known: what a file holds is known to no contract.
#![tactic(auto)]

mod failing;
mod file_set;
mod image;
mod mem_file;
mod mem_files;
mod mem_image;
mod mem_sink;
mod sink;

pub use failing::FailingImage;
pub use file_set::FileSet;
pub use image::Image;
pub use mem_file::MemFile;
pub use mem_files::{FilePair, MemFiles};
pub use mem_image::MemImage;
pub use mem_sink::MemSink;
pub use sink::Sink;
