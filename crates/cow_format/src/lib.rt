//! The definitions that everything above is measured by: the pairs that a store's bytes hold, the picture that a
//! snapshot shows, and the next place of a store. It stands on `sector`. Where a plain slow program is cheap, it stands
//! in the tests of the crate whose code the definition measures, and is compared with that code.
#![tactic(auto)]

mod places;

pub use places::is_area_place;
