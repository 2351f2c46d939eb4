//! The layers that stand over a disk: `flakey`, `dust` and `error`, as a stack that is itself a device.
//!
//! It stands on `device` and `sector`. It promises that each operation meets the fate which the table of layers gives
//! it, that time moves the moments of flakey layers and nothing else, and that a message changes its dust layer alone. The
//! layers and the bytes that they show give all bytes of the disk at the bottom, those beside a layer's window too.
#![tactic(auto)]

mod broken;
mod dust;
mod flakey;
mod layered;
mod message;
mod stack;

pub use broken::Broken;
pub use dust::Dust;
pub use flakey::{Features, Flakey};
pub use layered::Layered;
pub use message::{Answer, Message};
pub use stack::Stack;
