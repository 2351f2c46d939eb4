//! What can still be known of a store that is damaged: its slots whether they are good or not, which pairs of them are kept,
//! which sectors of an image can't be read, and images without those; and in which sectors a snapshot and its origin differ. It
//! stands on `image`, `metadata_area` and `cow_image`.
//!
//! It promises that the kept pairs and those that are skipped are just those of the definition, that what is written is what the
//! kept ones show, that an image reads as zeros where it is told so, and nowhere else, and that the sectors which are listed as
//! unreadable, or as differing, are just those, neighbours joined.
#![tactic(auto)]

mod blanked;
mod comparing;
mod differing;
mod front;
mod joining;
mod saving;
mod sifting;
mod span;
mod spans;
mod trying;
mod using;

pub use blanked::Blanked;
pub use differing::{Undone, differences};
pub use front::front_of;
pub use saving::{Saved, export_kept, save};
pub use sifting::{Sifted, sift};
pub use span::Span;
pub use spans::is_in;
pub use trying::unreadable;
pub use using::{Slot, Used, read_used};
