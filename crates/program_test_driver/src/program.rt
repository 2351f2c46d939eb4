// What rows run.

use crate::streams::Output;

/// A program but for its `main`.
pub trait Program {
    /// Does what the words of a command line ask for, of which the first is the program's own name, and gives the exit status. Standard
    /// input has the bytes of `hears`. What it says goes to `output`, and what goes wrong to `told`.
    fn answer(
        rt: &HostRuntime,
        words: &[String],
        hears: &[u8],
        output: &mut Output<'_>,
        told: &mut Vec<u8>,
    ) -> u8;
}
