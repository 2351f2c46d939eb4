//! The commands `new`, `take` and `serve` of `lochknife`: their rows, as `program_test_driver` runs them.
//!
//! What a client says (`client`), what it is to be answered, and the files that are wanted come from `bench/serve_rows`, which works them
//! out in another language, from the protocol's text, docs/IMAGES.md and the kernel's format. It stands on `program_test_driver` and
//! `serve_commands`. All of the program but its words and its three streams is `answer` of the latter.
#![tactic(auto)]

mod client;

use crate::client::Client;
use program_test_driver::{Output, Program, main_of};
use serve_commands::answer;
use std::io;
use std::process::ExitCode;

/// `lochknife` for a disk image in use.
struct Serving;

impl Program for Serving {
    fn answer(
        rt: &HostRuntime,
        words: &[String],
        hears: &[u8],
        output: &mut Output<'_>,
        told: &mut Vec<u8>,
    ) -> u8 {
        let mut client = Client::new(hears);
        answer(rt, words, &mut client, output, told)
    }
}

fn main(rt: HostRuntime) -> io::Result<ExitCode> {
    main_of::<Serving>(&rt)
}
