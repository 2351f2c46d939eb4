// What is asked of a file: each call is noted with its answer.
ghost use Rattle.std.specs.Prelude.{◌≡◌, ◌∷◌, List, None, Some, if◌then◌else◌, is_ok, length};
ghost use Rattle.file_calls.specs.Calls.{Call, Len, Read, Write, SetLen, Sync, answer_of};

use std::io;

/// A file that keeps a record of its calls, whatever they answer. All places are byte offsets.
pub trait FileCalls: Drop {
    /// Each call so far with its answer, the newest first.
    ghost history: { Self → List Call };

    /// How many bytes the file has.
    fn len(&mut self) -> io::Result<u64>
        ensures noted { history self.new ≡ Len (answer_of result) ∷ history self.old };

    /// Reads as many bytes as the buffer has. Where it fails, the buffer may hold anything.
    fn read_at(&mut self, at: u64, out: &mut [u8]) -> io::Result<()>
        ensures noted { history self.new ≡ Read at (length out.old) (if is_ok result then Some out.new else None) ∷ history self.old };

    /// Writes all these bytes. Where it fails, each sector of them may be old or new.
    fn write_at(&mut self, at: u64, bytes: &[u8]) -> io::Result<()>
        ensures noted { history self.new ≡ Write at bytes.now (is_ok result) ∷ history self.old };

    /// Cuts the file to so many bytes, or adds zeros at its end.
    fn set_len(&mut self, len: u64) -> io::Result<()>
        ensures noted { history self.new ≡ SetLen len (is_ok result) ∷ history self.old };

    /// Makes what was written last through a stop, and the file's length. `promised` only goes into the record: the caller has
    /// answered already that this succeeds. One that has not says `false`.
    fn sync(&mut self, promised: bool) -> io::Result<()>
        ensures noted { history self.new ≡ Sync (is_ok result) promised ∷ history self.old };
}
