//! Who else uses a file, as far as files of Linux can tell: programs that hold locks on it by fcntl(2), as qemu and libvirt do,
//! loop devices that are attached to it, and devices that hold a block device.
//!
//! It stands on `words`. It promises which lines of /proc/locks are taken for a lock on a file, which of these locks say that
//! their holder writes, and which two parts a device's number has. That these files tell all users is no clause: a program that locks nothing is seen by nobody.
#![tactic(auto)]

mod devices;
mod locks;
mod numbers;
#[cfg(test)]
mod tests;
mod users;

pub use locks::{has_word, is_lock_on, is_of_writer};
pub use numbers::{major, minor};
pub use users::{UsedFile, holder_of, user_of};
