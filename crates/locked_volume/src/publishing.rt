// Usages are published.
ghost use Rattle.std.specs.Prelude.{◌≡◌, ◌<◌, ℕ, IfOk, slice_index_or, true};
ghost use Rattle.thread_channels.specs.BoardPasses.{Seen};
ghost use Rattle.thread_channels.specs.Words.{IsNarrow};
ghost use Rattle.locked_volume.specs.Boards.{AreKeptUp, ArePublishers, AreReaders, AreShown, AreUnused, IsKeptUp, IsPublished};
ghost use Rattle.locked_volume.specs.Usages.{usage_at as usage_of_place};

use crate::boards::{Boards, PLACES, Publishers, Readers};
use crate::usages::usage_at;
use crossbeam_utils::CachePadded;
use device::Block;
use std::alloc::{AllocError, Global};
use thread_channels::{Board, BoardPass, PlaceUsage};
use volume::Volume;

/// Publishes a usage, where another was published last.
fn keep_up(board: &Board, pass: &mut BoardPass, usage: PlaceUsage)
    requires pass { (pass.old.board ≡ board.now) × (pass.old.publishes ≡ true) }
    requires narrow { IsNarrow usage }
    ensures same { (pass.new.board ≡ pass.old.board) × (pass.new.publishes ≡ pass.old.publishes) }
    ensures kept { IsKeptUp usage pass.old pass.new }
{
    if board.read(pass) != usage {
        board.publish(pass, usage);
    }
}

impl Boards {
    /// Boards of empty places, and the passes that publish on them.
    pub(crate) fn new(alloc: Global) -> Result<(Boards, Publishers), AllocError>
        ensures passes { IfOk result (λ r. ArePublishers r.0 r.1) }
        ensures unused { IfOk result (λ r. AreUnused r.1) }
    {
        let mut padded = Vec::new(alloc);
        let mut passes = Vec::new(alloc);
        for _ in 0..PLACES {
            let (board, pass) = Board::new(alloc)?;
            padded.push(CachePadded::new(board))?;
            passes.push(pass)?;
        }
        Ok((Boards { padded }, Publishers { passes }))
    }

    /// Publishes the usage of each place once.
    pub(crate) fn publish_all<B: Block>(&self, publishers: &mut Publishers, volume: &Volume<B>)
        requires { ArePublishers self.now publishers.old }
        ensures shown { AreShown self.now volume.now publishers.new }
        ensures once { (k : ℕ) (d : Seen) → k < 8 → IsPublished (usage_of_place k volume.now) (slice_index_or publishers.old k d) (slice_index_or publishers.new k d) }
    {
        for place in 0..PLACES {
            let usage = usage_at(volume, place);
            self.padded[place].publish(&mut publishers.passes[place], usage);
        }
    }

    /// Publishes the usage of each place where another was published last.
    pub(crate) fn keep_up<B: Block>(&self, publishers: &mut Publishers, volume: &Volume<B>)
        requires { ArePublishers self.now publishers.old }
        ensures shown { AreShown self.now volume.now publishers.new }
        ensures once { AreKeptUp volume.now publishers.old publishers.new }
    {
        for place in 0..PLACES {
            let usage = usage_at(volume, place);
            keep_up(&self.padded[place], &mut publishers.passes[place], usage);
        }
    }

    /// Passes for another thread, which read.
    pub(crate) fn readers(
        &self,
        alloc: Global,
        publishers: &mut Publishers,
    ) -> Result<Readers, AllocError>
        requires { ArePublishers self.now publishers.old }
        ensures same { publishers.new ≡ publishers.old }
        ensures readers { IfOk result (λ readers. AreReaders self.now readers) }
    {
        let mut passes = Vec::new(alloc);
        for place in 0..PLACES {
            passes.push(self.padded[place].another(&mut publishers.passes[place]))?;
        }
        Ok(Readers { passes })
    }
}
