//! Images of stores, read, judged, printed and exported.
//!
//! It stands on `cow_image`, `cow_salvage`, `cow_merge`, `option_parser`, `image_options` and `cow_reports`, beside `store`, and has tests
//! only, by values from outside: stores and origins as a Linux 6.x kernel wrote them, with the status line that it printed and the
//! array that its snapshot device showed; each bit of a header and of its first slots flipped in turn, beside a slow plain judge, and
//! one bit of each byte of the header's chunk and of an area, beside a load of the same bytes from a disk; each read that fails; what
//! is kept of damaged slots, beside a slow plain program; and the words of a command line.
#![tactic(auto)]

#[cfg(test)]
mod asks;
#[cfg(test)]
mod differs;
#[cfg(test)]
mod exports;
#[cfg(test)]
mod flips;
#[cfg(test)]
mod heals;
#[cfg(test)]
mod images;
#[cfg(test)]
mod loads;
#[cfg(test)]
mod merge_images;
#[cfg(test)]
mod merges;
#[cfg(test)]
mod shows;
#[cfg(test)]
mod torn;
