// What a call under a volume's lock did is told to those who stand beside it.
ghost use Rattle.std.specs.Prelude.{◌≡◌, ◌<◌, ℕ, length, slice_index_or, true};
ghost use Rattle.audited_volume.specs.declared.entry.Entry.{Entry};
ghost use Rattle.locked_volume.specs.Keeping.{is_silent};
ghost use Rattle.locked_volume.specs.Ties.{table_of};
ghost use Rattle.locked_volume.specs.Boards.{AreKeptUp, ArePublishers, AreShown};
ghost use Rattle.locked_volume.specs.Posts.{IsKeeper, with_more};

use crate::Pass;
use crate::beside::Beside;
use crate::boards::Publishers;
use audited_volume::{Audit, Entry};
use layers::Layered;

impl Beside {
    /// Tells the history new entries, none of which answers a request.
    pub(crate) fn note(&self, keeper: &mut Pass, fresh: &[Entry])
        requires keeper { IsKeeper (table_of self.now.history) keeper.old }
        requires silent { (k : ℕ) (d : Entry) → k < length fresh.now → is_silent (slice_index_or fresh.now k d) ≡ true }
        ensures keeper { IsKeeper (table_of self.now.history) keeper.new }
        ensures is { keeper.new.me.0 ≡ with_more fresh.now keeper.old.me.0 }
    {
        for k in 0..fresh.len() {
            self.history.note(keeper, &fresh[k]);
        }
    }

    /// Publishes the usage of each place where another was published last.
    pub(crate) fn keep_up<B: Layered>(&self, publishers: &mut Publishers, audit: &Audit<B>)
        requires { ArePublishers self.now.boards publishers.old }
        ensures shown { AreShown self.now.boards audit.now.volume publishers.new }
        ensures once { AreKeptUp audit.now.volume publishers.old publishers.new }
    {
        self.boards.keep_up(publishers, audit.volume());
    }
}
