// The array of a session.
ghost use Rattle.std.specs.Prelude.{◌≡◌, ◌&&◌, ◌*◌, ◌==◌, ◌<◌, Some, false, length, nat_lt, slice_get, true};
ghost use Rattle.nbd_jobs.specs.declared.work.Kind.TheVariants.{Write as AsksWrite};
ghost use Rattle.nbd_backend.specs.Calls.{Choose, Submit, Step};
ghost use Rattle.volume.specs.Volumed.{piece_with};
ghost use Rattle.volume_nbd.specs.Calls.{does_by};

use crate::VolumeArray;
use device::Ahead;
use nbd_backend::{Array, Refused, Stepped};
use nbd_jobs::Work;
use std::alloc::Global;

impl<B: Ahead> VolumeArray<B> {
    /// Chooses the device of the export at a place. `false`, and nothing changes, where there is none, or where requests of another are
    /// in flight.
    fn choose_at(&mut self, place: usize) -> bool
        ensures told { result ≡ (nat_lt place (length self.old.exports) && (length self.old.volume.flights == 0)) }
        ensures chosen { result ≡ true → Some self.new.chosen ≡ slice_get self.old.exports place }
        ensures same { result ≡ false → self.new ≡ self.old }
        ensures kept { self.new ≡ record self.old { chosen = self.new.chosen } }
    {
        if !self.volume.flights().is_empty() {
            return false;
        }
        match self.devices.get(place) {
            Some(dev) => {
                self.dev = *dev;
                true
            }
            None => false,
        }
    }
}

impl<B: Ahead> Array for VolumeArray<B> {
    ghost does = { does_by B.may_hold B.contents B.layers B.size B.fault_count B.done_count B.failed B.unanswered };

    /// The client uses the export at this place, as `choose_at` says.
    fn choose(&mut self, place: usize) -> bool
        ensures { does_by B.may_hold B.contents B.layers B.size B.fault_count B.done_count B.failed B.unanswered (Choose place result) self.old self.new }
    {
        self.choose_at(place)
    }

    /// The least chunk of all snapshots.
    #[tactic(auto, using(crate::proofs::Sizes::chunk_some))]
    fn chunk(&self) -> u32
        ensures some { 0 < result }
        ensures piece { result ≡ piece_with self.now.volume.merge self.now.volume.snaps }
    {
        self.volume.piece()
    }

    /// Takes a piece in, as `take_in` does.
    fn submit(&mut self, alloc: Global, work: Work, part: &[u8]) -> Result<u64, Refused>
        requires { work.kind ≡ AsksWrite → length part.now ≡ 512 * work.count }
        ensures { does_by B.may_hold B.contents B.layers B.size B.fault_count B.done_count B.failed B.unanswered (Submit work part.now result) self.old self.new }
    {
        self.take_in(alloc, work, part)
    }

    /// Does an event or none, as `go_on` does.
    fn step(&mut self) -> Stepped
        ensures { does_by B.may_hold B.contents B.layers B.size B.fault_count B.done_count B.failed B.unanswered (Step result) self.old self.new }
    {
        self.go_on()
    }
}
