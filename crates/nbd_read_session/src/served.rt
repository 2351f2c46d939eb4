// What is served.
ghost use Rattle.std.specs.Prelude.{◌≡◌, ℕ, ◌+◌, ◌^◌, ◌<◌, take, drop, length, Option, IfOk, IfSome, OnOk, Err};
ghost use Rattle.nbd_read_session.specs.Blocks.{Array, marked_for};

/// Why bytes were not given.
#[derive(Clone, Copy, PartialEq, Eq)]
pub enum Fault {
    /// They could not be read.
    Io,
    /// Memory is refused.
    NoMemory,
}

/// Bytes in a row that are marked, or are not.
#[derive(Clone, Copy, PartialEq, Eq)]
pub struct Marked {
    pub marked: bool,
    pub len: u32,
}

/// Arrays of bytes that are read, some of which are marked, by their numbers from 0 on. Any read may fail.
pub trait Served {
    /// An array, where it is known.
    ghost shows: { Self → ℕ → Option Array };

    /// Whether a read of an array may fail: from a byte on, of so many.
    ghost may_fail: { Self → ℕ → ℕ → ℕ → Type 0 };

    /// Reads as many bytes of an array as the buffer has, from an offset on.
    fn read(&mut self, export: usize, at: u64, out: &mut [u8]) -> Result<(), Fault>
        requires { at + length out.old < 2 ^ 64 }
        ensures data { OnOk result (IfSome (shows self.old export) (λ b. out.new ≡ take (length out.old) (drop at b.bytes))) }
        ensures fails { result ≡ Err Fault.Io → may_fail self.old export at (length out.old) }
        ensures shows { (k : ℕ) → shows self.new k ≡ shows self.old k }
        ensures calm { (k : ℕ) (from : ℕ) (count : ℕ) → may_fail self.new k from count → may_fail self.old k from count };
    /// Whether a byte of an array is marked, and how many from it on are as it is, up to so many.
    fn marks(&mut self, export: usize, at: u64, most: u32) -> Result<Marked, Fault>
        requires { at + most < 2 ^ 64 }
        ensures data { IfOk result (λ told. IfSome (shows self.old export) (λ b. (told.marked ≡ b.marks at) × (told.len ≡ marked_for b.marks (b.marks at) most at))) }
        ensures fails { result ≡ Err Fault.Io → may_fail self.old export at most }
        ensures shows { (k : ℕ) → shows self.new k ≡ shows self.old k }
        ensures calm { (k : ℕ) (from : ℕ) (count : ℕ) → may_fail self.new k from count → may_fail self.old k from count };
}
