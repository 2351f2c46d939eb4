//! A snapshot and its origin, served to a client of the Network Block Device protocol, by the images of the origin and of the
//! store. It stands on `cow_image` and `nbd_read_session`. It promises that all that is written is the protocol's answer to what
//! is read, that a read's data are what the snapshot, or the origin, shows there, and that no read gives bytes once a look has told
//! that an image changed.
#![tactic(auto)]

mod live;
mod marking;
mod pictures;
mod serving;
mod watching;

pub use live::{LivePicture, serve_live};
pub use pictures::Pictures;
pub use serving::{serve_fresh, serve_pictures, serve_written};
pub use watching::{Still, Watch};
