// A volume is stopped, and its devices are given back.
ghost use Rattle.std.specs.Prelude.{◌≡◌, true, None};
ghost use Rattle.volume.specs.Stopped.{devices_of};
ghost use Rattle.volume.specs.Stopping.{StopsVolume};
ghost use Rattle.volume.specs.Volumed.{is_loud_in_all};
ghost use Rattle.volume_commands.specs.Flying.{IsWhole};

use crate::Resting;
use layers::Layered;
use volume::Stopped;

impl<B: Layered> Resting<B> {
    /// Ends the volume without a further event, whatever is in flight: what is left are its devices, as they are. Where none
    /// drops writes, each live snapshot's store and the origin are loaded again with their arrays.
    pub fn stop(self) -> Stopped<B>
        ensures devices { result ≡ devices_of self.rested.events }
        ensures stops { is_loud_in_all B.layers self.rested.events ≡ true → StopsVolume B.may_hold B.size None self.rested.events self.rested.events }
        ensures whole { IsWhole self.rested }
    {
        let Resting { volume } = self;
        volume.stop()
    }
}
