// Two files that another program writes.
ghost use Rattle.std.specs.Prelude.{◌≡◌, ℕ, ◌≤◌, Option, IfSome, OnOk};
ghost use Rattle.read_beside_writer.specs.Moments.{Files, AreRead, IsReadOnce};

use std::io;

/// An origin and its store, which another program writes meanwhile. Any call may fail.
pub trait MovingFiles {
    /// What both hold, moment by moment, where that is known: of real files it is not, and then the clauses on bytes say nothing.
    ghost history: { Self → Option (ℕ → Files) };

    /// The moment that it is.
    ghost now: { Self → ℕ };

    /// Reads as many bytes of the origin as the buffer has.
    fn read_origin(&mut self, at: u64, out: &mut [u8]) -> io::Result<()>
        ensures data { OnOk result (IfSome (history self.old) (λ h. AreRead (λ m. (h m).origin) (now self.old) (now self.new) at out.new)) }
        ensures history { history self.new ≡ history self.old }
        ensures later { now self.old ≤ now self.new };

    /// Reads as many bytes of the store as the buffer has.
    fn read_store(&mut self, at: u64, out: &mut [u8]) -> io::Result<()>
        ensures data { OnOk result (IfSome (history self.old) (λ h. AreRead (λ m. (h m).store) (now self.old) (now self.new) at out.new)) }
        ensures history { history self.new ≡ history self.old }
        ensures later { now self.old ≤ now self.new };

    /// Reads a sector of the store. No write of it is seen in part.
    fn read_sector(&mut self, sector: u64, out: &mut [u8; 512]) -> io::Result<()>
        ensures data { OnOk result (IfSome (history self.old) (λ h. IsReadOnce (λ m. (h m).store) (now self.old) (now self.new) sector out.new)) }
        ensures history { history self.new ≡ history self.old }
        ensures later { now self.old ≤ now self.new };
}
