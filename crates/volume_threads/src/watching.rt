// What a seat sees of the boards.
ghost use Rattle.std.specs.Prelude.{◌<◌};
ghost use Rattle.volume_threads.specs.Watching.{HasLooked};

use crate::rig::Rig;
use crate::seat::Seat;
use layers::Layered;
use locked_volume::Room;
use thread_channels::{Gate, PlaceUsage};

impl<J: Room> Seat<J> {
    /// How much of a snapshot's store is in use, by its place in the volume, which counts snapshots from 0 in order of attaching;
    /// the one that is being merged stays in its place. It is what was published last. It takes no lock and no memory, and never
    /// waits.
    pub fn usage<B: Layered, G: Gate + Drop>(
        &mut self,
        rig: &Rig<B, G, J>,
        volume: usize,
        place: usize,
    ) -> PlaceUsage
        requires volume { volume < J.volumes }
        requires place { place < 8 }
        ensures { HasLooked volume place result self.old self.new }
    {
        let boards = &rig.places[volume].beside.boards;
        boards.read(&mut self.watches[volume], place)
    }
}
