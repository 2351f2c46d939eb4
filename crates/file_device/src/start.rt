// What is supposed of files as they are opened.
ghost use Rattle.std.specs.Prelude.{ℕ, List, []};

/// What the files of a program held at first, on the disk, by their numbers. A function over `S: Start` is proved for all contents, which no
/// code can read.
pub trait Start: Drop {
    ghost first: { ℕ → List ℕ };
}

/// For a program to name: nothing is supposed.
#[derive(Drop)]
pub struct Unknown;

impl Start for Unknown {
    ghost first = { λ _. [] };
}
