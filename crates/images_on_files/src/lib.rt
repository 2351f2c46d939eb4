//! Images, sinks and sets of two files over real ones: which file is asked, from which byte on, in which order, and what is synced
//! and cut. It stands on `image` for what these are to the code above, and on `file_calls` for the calls of one file.
//!
//! It promises, over any file that keeps a record of its calls, which calls are made: of an image each read at its offset and no
//! write; of two files each call of the one whose number it has, and none of the other, with what failed; of a sink that what
//! its file holds, by the record, are the bytes that were put, in their order, and that it is cut to them and synced at its end.
//! That a file does what it answers is no clause here: `file_calls` says of what record it would be so.
#![tactic(auto)]

mod disk_files;
mod file_image;
mod file_sink;
mod holes;

pub use disk_files::{Asked, DiskFiles, Failed, OriginFile, StoreFile};
pub use file_image::FileImage;
pub use file_sink::FileSink;
