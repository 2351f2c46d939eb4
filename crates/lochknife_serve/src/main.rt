//! The program that `lochknife` is for the words `new`, `take` and `serve`: a snapshot of a disk image in use. It is
//! `serve_commands::run`, whose commands `serve_tests` runs with their files.
#![tactic(auto)]

use std::process::ExitCode;

fn main(rt: HostRuntime) -> ExitCode {
    ExitCode::from(serve_commands::run(&rt))
}
