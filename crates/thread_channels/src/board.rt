// The board itself.

ghost use Rattle.std.specs.Prelude.{◌≡◌, true, false, [], ◌∷◌, ◌++◌, IfOk};
ghost use Rattle.thread_channels.specs.Words.{IsNarrow, no_usage};
ghost use Rattle.thread_channels.specs.Growth.{StartsWith, EndsIn};
ghost use Rattle.thread_channels.specs.BoardPasses.{BoardId};

use crate::board_pass::BoardPass;
use crate::board_rule::{Another, Grows, Publishes, Reads, Takes, View};
use crate::usage::PlaceUsage;
use atomic_table::Table;
use std::alloc::{AllocError, Global};
use std::marker::Model;

/// How much of one store is in use, as one thread published it last. Contracts see which board it is.
#[derive(Drop)]
pub struct Board {
    table: Table<(), View, (), Grows, Global>,
}

impl Model for Board {
    ghost Value = { BoardId };

    ghost view = { λ b. b.table.shared.table_id };

    ghost invariant = { λ b. (b.table.shared.table_id.words ≡ 1) × (b.table.shared.table_id.slots ≡ 0) };
}

impl Board {
    /// A board that says that its place is empty, which counts as its first publication, and the one pass that publishes
    /// on it. Only want of memory keeps it from being made.
    pub fn new(alloc: Global) -> Result<(Board, BoardPass), AllocError>
        ensures { IfOk result (λ r. r.1 ≡ record { board = r.0; publishes = true; seen = no_usage ∷ [] }) }
    {
        let first = PlaceUsage::empty().to_word();
        let (table, seat) = Table::of_words(alloc, &[first], &())?;
        Ok((Board { table }, BoardPass { seat }))
    }

    /// Publishes a usage. Both its numbers are below 2^28.
    pub fn publish(&self, pass: &mut BoardPass, usage: PlaceUsage)
        requires pass { (pass.old.board ≡ self.now) × (pass.old.publishes ≡ true) }
        requires narrow { IsNarrow usage }
        ensures { pass.new ≡ record pass.old { seen = pass.old.seen ++ usage ∷ [] } }
    {
        let word = usage.to_word();
        self.table
            .shared
            .store::<Publishes>(&mut pass.seat, 0, word);
    }

    /// The last publication. All that the pass had seen was published before it, and a publisher has seen all there is.
    pub fn read(&self, pass: &mut BoardPass) -> PlaceUsage
        requires { pass.old.board ≡ self.now }
        ensures same { (pass.new.board ≡ pass.old.board) × (pass.new.publishes ≡ pass.old.publishes) }
        ensures later { StartsWith pass.new.seen pass.old.seen }
        ensures last { EndsIn pass.new.seen result }
        ensures all { pass.old.publishes ≡ true → pass.new.seen ≡ pass.old.seen }
        ensures narrow { IsNarrow result }
    {
        PlaceUsage::from_word(self.table.shared.load::<Reads>(&mut pass.seat, 0))
    }

    /// A pass for another thread, which has seen as much and publishes nothing.
    pub fn another(&self, pass: &mut BoardPass) -> BoardPass
        requires { pass.old.board ≡ self.now }
        ensures same { pass.new ≡ pass.old }
        ensures other { result ≡ record pass.old { publishes = false } }
    {
        let seat = self.table.shared.split_seat::<Another>(&mut pass.seat);
        BoardPass { seat }
    }

    /// Reads, and takes in another pass of the board: what that one had seen is a beginning of what this one has seen
    /// now. So where this one publishes, each reader has seen a beginning of its publications. A right to publish of the
    /// other's is gone.
    pub fn absorb(&self, pass: &mut BoardPass, other: BoardPass) -> PlaceUsage
        requires { (pass.old.board ≡ self.now) × (other.board ≡ self.now) }
        ensures same { (pass.new.board ≡ pass.old.board) × (pass.new.publishes ≡ pass.old.publishes) }
        ensures later { StartsWith pass.new.seen pass.old.seen }
        ensures taken { StartsWith pass.new.seen other.seen }
        ensures last { EndsIn pass.new.seen result }
        ensures all { pass.old.publishes ≡ true → pass.new.seen ≡ pass.old.seen }
        ensures narrow { IsNarrow result }
    {
        let BoardPass { seat } = other;
        self.table.shared.join_seat::<Takes>(&mut pass.seat, seat);
        let word = self.table.shared.load::<Reads>(&mut pass.seat, 0);
        PlaceUsage::from_word(word)
    }
}
