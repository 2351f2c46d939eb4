//! Commands of `lochknife` on images: its rows, as `program_test_driver` runs them.
//!
//! Images, answers and files that are wanted come from `bench/program_rows`, which works them out in another language, from the kernel's
//! format, docs/IMAGES.md and recordings of other programs. It stands on `program_test_driver` and `image_commands`. All of the program but its
//! words and its three streams is `answer` of the latter.
#![tactic(auto)]

use image_commands::answer;
use program_test_driver::{Output, Program, main_of};
use std::io;
use std::process::ExitCode;

/// `lochknife` on images.
struct Lochknife;

impl Program for Lochknife {
    fn answer(
        rt: &HostRuntime,
        words: &[String],
        hears: &[u8],
        output: &mut Output<'_>,
        told: &mut Vec<u8>,
    ) -> u8 {
        let mut input = hears;
        answer(rt, words, &mut input, output, told)
    }
}

fn main(rt: HostRuntime) -> io::Result<ExitCode> {
    main_of::<Lochknife>(&rt)
}
