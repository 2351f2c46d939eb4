// The files of a session are synced at its end.
ghost use Rattle.std.specs.Prelude.{◌≡◌, ◌<◌, ◌&&◌, ℕ, IfErr, IsErr, is_ok, length, slice_index_or};
ghost use Rattle.std.specs.List.{list_all};
ghost use Rattle.serve_files.specs.Ending.{IsAsked, is_synced};
ghost use Rattle.serve_files.specs.Names.{IsAbout};
ghost use Rattle.serve_files.specs.declared.held_file.HeldFile.{HeldFile};

use crate::held_file::HeldFile;
use crate::trouble::{Trouble, Why};
use file_calls::FileCalls;

/// All files of a session were synced at its end. Only `all_synced` gives it.
#[derive(Drop)]
pub struct AllSynced {
    made: (),
}

/// Makes what was written to a file last.
fn finished<'a, C: FileCalls>(file: &mut HeldFile<'a, C>) -> Result<(), Trouble<'a>>
    ensures asked { IsAsked (C.history file.old.file) (C.history file.new.file) }
    ensures done { is_ok result ≡ is_synced (C.history file.new.file) }
    ensures told { IfErr result (IsAbout file.old.name.now) }
    ensures named { file.new.name ≡ file.old.name }
{
    match file.sync() {
        Ok(()) => Ok(()),
        Err(error) => {
            let name = file.name;
            let why = Why::Unfinished(error);
            Err(Trouble { name, why })
        }
    }
}

/// The first of two that failed.
fn first<'a>(
    done: Result<AllSynced, Trouble<'a>>,
    last: Result<(), Trouble<'a>>,
) -> Result<AllSynced, Trouble<'a>>
    ensures ok { is_ok result ≡ (is_ok done.entry && is_ok last.entry) }
    ensures told { IsErr done.entry → result ≡ done.entry }
{
    let done = done?;
    last?;
    Ok(done)
}

/// Makes what was written to all files last. Each is asked for one sync, also where one before it failed; the first that failed is told.
pub fn all_synced<'a, C: FileCalls>(files: &mut [HeldFile<'a, C>]) -> Result<AllSynced, Trouble<'a>>
    ensures count { length files.new ≡ length files.old }
    ensures asked { (k : ℕ) (file : HeldFile C) → k < length files.old → IsAsked (C.history (slice_index_or files.old k file).file) (C.history (slice_index_or files.new k file).file) }
    ensures done { is_ok result ≡ list_all (λ file. is_synced (C.history file.file)) files.new }
{
    let mut done = Ok(AllSynced { made: () });
    for file in files.iter_mut() {
        done = first(done, finished(file));
    }
    done
}
