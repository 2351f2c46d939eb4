// The calls of a file, which only clauses read.
ghost use Rattle.std.specs.Prelude.{◌≡◌, List, [], ◌∷◌};
ghost use Rattle.std.specs.Borrow.{ftrue};
ghost use Rattle.file_calls.specs.Note.{Note};

use std::marker::{Model, PhantomData};

/// A list of calls that takes no memory.
#[derive(Drop)]
pub struct Record {
    marker: PhantomData<u8>,
    pub ghost notes: { List Note },
}

impl Model for Record {
    ghost also_owns = { λ _. ftrue };
}

impl Record {
    /// No calls.
    pub(crate) fn new() -> Record
        ensures { result.notes ≡ [] }
    {
        Record {
            marker: PhantomData,
        }
    }

    /// Adds a call: its kind, two numbers, whether it was answered, and bytes.
    pub(crate) fn note(&mut self, _kind: u64, _a: u64, _b: u64, _done: bool, _bytes: &[u8])
        ensures { self.new.notes ≡ (_kind, _a, _b, _done, _bytes.now) ∷ self.old.notes }
    {}
}
