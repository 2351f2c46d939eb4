// A volume ends, and its journal is dropped.
ghost use Rattle.std.specs.Prelude.{◌≡◌, IfErr, IfOk, None, Some, true};
ghost use Rattle.volume.specs.Leaving.{close_refusal};
ghost use Rattle.volume.specs.Stopped.{devices_of};
ghost use Rattle.volume.specs.Stopping.{StopsVolume};
ghost use Rattle.volume.specs.Volumed.{is_loud_in_all};

use crate::CountedVolume;
use layers::Layered;
use sector::Refusal;
use volume::Stopped;

impl<B: Layered> CountedVolume<B> {
    /// Ends the volume without a further event, whatever is in flight: what is left are its devices, as they are.
    pub fn stop(self) -> Stopped<B>
        ensures devices { result ≡ devices_of self.volume }
        ensures stops { is_loud_in_all B.layers self.volume ≡ true → StopsVolume B.may_hold B.size None self.volume self.volume }
    {
        self.volume.stop()
    }
}

impl<B: Layered + Drop> CountedVolume<B> {
    /// Gives the origin disk back. `Busy` where a snapshot is attached or a merge is begun, `NotQuiet` where a request is in
    /// flight.
    pub fn close(self) -> Result<B, (Refusal, CountedVolume<B>)>
        ensures ok { IfOk result (λ origin. (origin ≡ self.volume.origin) × (close_refusal self.volume ≡ None)) }
        ensures err { IfErr result (λ e. (close_refusal self.volume ≡ Some e.0) × (e.1 ≡ self)) }
    {
        let CountedVolume {
            volume,
            places,
            alloc,
        } = self;
        match volume.close() {
            Ok(origin) => Ok(origin),
            Err((refusal, volume)) => Err((
                refusal,
                CountedVolume {
                    volume,
                    places,
                    alloc,
                },
            )),
        }
    }
}
