// A volume is closed.
ghost use Rattle.std.specs.Prelude.{◌≡◌, IfErr, IfOk, None, Some};
ghost use Rattle.volume.specs.Leaving.{close_refusal};

use crate::Volume;
use device::Block;
use sector::Refusal;

impl<B: Block + Drop> Volume<B> {
    /// Gives the origin disk back. `Busy` where a snapshot is attached or a merge is begun, `NotQuiet` where a request is in
    /// flight.
    pub fn close(self) -> Result<B, (Refusal, Volume<B>)>
        ensures ok { IfOk result (λ origin. (origin ≡ self.origin) × (close_refusal self ≡ None)) }
        ensures err { IfErr result (λ e. (close_refusal self ≡ Some e.0) × (e.1 ≡ self)) }
    {
        if !self.snaps.is_empty() {
            return Err((Refusal::Busy, self));
        }
        if self.merge.is_some() {
            return Err((Refusal::Busy, self));
        }
        if !self.flights.is_empty() {
            return Err((Refusal::NotQuiet, self));
        }
        let Volume {
            origin,
            snaps: _,
            merge: _,
            flights: _,
            rooms: _,
            last: _,
            requests: _,
            copies: _,
            attached: _,
        } = self;
        Ok(origin)
    }
}
