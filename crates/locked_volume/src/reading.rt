// Usages are read.
ghost use Rattle.std.specs.Prelude.{◌<◌};
ghost use Rattle.locked_volume.specs.Boards.{AreReaders, HasRead};

use crate::boards::{Boards, Readers};
use thread_channels::PlaceUsage;

impl Boards {
    /// The usage that was published last at a place. It takes no lock and no memory, and never waits. What its pass had seen of
    /// the board was published before.
    pub fn read(&self, readers: &mut Readers, place: usize) -> PlaceUsage
        requires place { place < 8 }
        requires readers { AreReaders self.now readers.old }
        ensures readers { AreReaders self.now readers.new }
        ensures read { HasRead place result readers.old readers.new }
    {
        self.padded[place].read(&mut readers.passes[place])
    }
}
