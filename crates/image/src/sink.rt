// What bytes are written to.
ghost use Rattle.std.specs.Prelude.{◌≡◌, ℕ, ◌++◌, List, Option, OnErr, OnOk};
ghost use Rattle.std.specs.Io.KnownBytes.{Appends};

use std::io;

/// Bytes that are written one after the other. Any call may fail.
pub trait Sink {
    /// The bytes that it holds, where they are known.
    ghost contents: { Self → Option (List ℕ) };

    /// Writes these bytes after those that were written. Where it fails a front of them may be written.
    fn put(&mut self, bytes: &[u8]) -> io::Result<()>
        ensures all { OnOk result (Appends (contents self.old) (contents self.new) bytes.now) }
        ensures part { OnErr result ((front : List ℕ) × (rest : List ℕ) × (front ++ rest ≡ bytes.now) × Appends (contents self.old) (contents self.new) front) };
}
