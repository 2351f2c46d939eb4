//! The program `lochknife`: what the image of a snapshot's store holds, and the array that it shows with the image of its
//! origin. It is `image_commands::run`, whose commands `lochknife_tests` runs with their files.
#![tactic(auto)]

use std::process::ExitCode;

fn main(rt: HostRuntime) -> ExitCode {
    ExitCode::from(image_commands::run(&rt))
}
