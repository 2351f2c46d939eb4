// Data words, `COUNT*HH` each, as `dmrig` prints them.
ghost use Rattle.std.specs.Prelude.{◌≡◌, ◌++◌, replicate, OnOk};
ghost use Rattle.words.specs.Words.{words_of};
ghost use Rattle.command.specs.DataWords.{are_runs, data_of};

use command::{DataRun, run_in};
use std::alloc::AllocError;
use words::next_word;

/// Whether each word of a text is a run.
pub fn are_all_runs(text: &[u8]) -> bool
    ensures { result ≡ are_runs (words_of text.now) }
{
    let mut rest = text;
    while let Some((word, left)) = next_word(rest) {
        if run_in(word).is_none() {
            return false;
        }
        rest = left;
    }
    true
}

/// Adds equal bytes at the end.
fn push_run(out: &mut Vec<u8>, run: DataRun) -> Result<(), AllocError>
    ensures { OnOk result (out.new.items ≡ out.old.items ++ replicate run.count run.byte) }
{
    let Some(len) = out.len().checked_add(run.count as usize) else {
        return Err(AllocError);
    };
    out.resize(len, run.byte)?;
    Ok(())
}

/// Adds the bytes that the runs of a text say.
pub fn push_data(out: &mut Vec<u8>, text: &[u8]) -> Result<(), AllocError>
    ensures { OnOk result (out.new.items ≡ out.old.items ++ data_of (words_of text.now)) }
{
    let mut rest = text;
    while let Some((word, left)) = next_word(rest) {
        if let Some(run) = run_in(word) {
            push_run(out, run)?;
        }
        rest = left;
    }
    Ok(())
}
