//! What `lochknife` answers of a store: what is seen of a store's image, and what is printed of that, in lines of a key and a value or
//! as JSON, an object for each item on a line of its own. It stands on `cow_image` and `cow_salvage`, which read, and on `image_options`
//! for the form that is asked for.
//!
//! It promises that each text and each answer is the one of its definition in `specs/`.
#![tactic(auto)]

mod answers;
mod faults_json;
mod forms;
mod json;
mod listing;
mod listing_json;
mod looking;
mod members;
mod merges;
mod note_objects;
mod notes;
mod objects;
mod reasons;
mod remaining;
mod salvage;
mod showing;
mod text;

pub use faults_json::{push_behind_json, push_faults_json, push_unread_json};
pub use forms::{checked, mapped, push_behind, raw, salvaged, shown};
pub use json::{push_json, push_member, push_spans_json};
pub use listing::{push_listed, push_runs_lines, push_slots};
pub use listing_json::{push_listed_json, push_runs_json, push_slots_json};
pub use looking::{Seen, all_faults, chunk_listed, chunk_of, is_good, look, numbers_of};
pub use members::{push_first, push_number_json};
pub use merges::{push_bytes, push_left, push_runs};
pub use notes::{Behind, Notes, is_whole, notes_of};
pub use reasons::push_faults;
pub use remaining::{push_left_json, push_left_lines};
pub use salvage::{push_behind_lines, push_skipped, push_spans};
pub use showing::{
    Numbers, push_numbers, push_sectors, push_show, push_told, push_usage, slots_of,
};
pub use text::{push_line, push_number};
