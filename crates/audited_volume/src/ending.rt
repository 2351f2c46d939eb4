// An audit ends: its volume or its devices are left, and the journal is dropped.
ghost use Rattle.std.specs.Prelude.{◌≡◌, ◌≤◌, IfErr, IfOk, None, Some, true};
ghost use Rattle.audited_volume.specs.PlacesTaken.{places_of};
ghost use Rattle.volume.specs.Leaving.{close_refusal};
ghost use Rattle.volume.specs.Stopped.{devices_of};
ghost use Rattle.volume.specs.Stopping.{StopsVolume};
ghost use Rattle.volume.specs.Volumed.{is_loud_in_all};

use crate::Audit;
use crate::holding::count_places;
use layers::Layered;
use sector::Refusal;
use std::alloc::Global;
use volume::Stopped;
use volume_lifetime::LivedVolume;

impl<B: Layered> Audit<B> {
    /// The volume, whatever is in flight. The journal is dropped.
    pub fn into_volume(self) -> LivedVolume<B>
        ensures { result ≡ self.volume }
    {
        let Audit {
            volume,
            base: _,
            taken: _,
            entries: _,
            held: _,
            lives: _,
            may: _,
            counts: _,
            folded: _,
            loud: _,
            alloc: _,
        } = self;
        volume
    }

    /// The volume, whatever is in flight, how many places of the journal are taken, and the allocator. The journal is dropped.
    pub fn into_counted(self) -> (LivedVolume<B>, usize, Global)
        ensures volume { result.0 ≡ self.volume }
        ensures places { result.1 ≡ places_of self }
        ensures few { result.1 ≤ 65_536 }
    {
        let lives = self.lives.as_slice();
        let may = self.may.as_slice();
        let places = count_places(self.taken, self.entries.len(), self.held.len(), lives, may);
        let alloc = self.alloc;
        (self.into_volume(), places, alloc)
    }

    /// Ends the volume without a further event, whatever is in flight, as a machine does that stops: what is left are its
    /// devices, as they are. The journal is dropped.
    pub fn stop(self) -> Stopped<B>
        ensures devices { result ≡ devices_of self.volume }
        ensures stops { is_loud_in_all B.layers self.volume ≡ true → StopsVolume B.may_hold B.size None self.volume self.volume }
    {
        self.into_volume().stop()
    }
}

impl<B: Layered + Drop> Audit<B> {
    /// Gives the origin disk back, and drops the journal. `Busy` where a snapshot is attached or a merge is begun, `NotQuiet`
    /// where a request is in flight.
    pub fn close(self) -> Result<B, (Refusal, Audit<B>)>
        ensures ok { IfOk result (λ origin. (origin ≡ self.volume.origin) × (close_refusal self.volume ≡ None)) }
        ensures err { IfErr result (λ e. (close_refusal self.volume ≡ Some e.0) × (e.1 ≡ self)) }
    {
        let Audit {
            volume,
            base,
            taken,
            entries,
            held,
            lives,
            may,
            counts,
            folded,
            loud,
            alloc,
        } = self;
        match volume.close() {
            Ok(origin) => Ok(origin),
            Err((refusal, volume)) => Err((
                refusal,
                Audit {
                    volume,
                    base,
                    taken,
                    entries,
                    held,
                    lives,
                    may,
                    counts,
                    folded,
                    loud,
                    alloc,
                },
            )),
        }
    }
}
