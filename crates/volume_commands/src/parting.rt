// A volume by whole commands is made of an audit, and may be taken apart again.
ghost use Rattle.std.specs.Prelude.{◌≡◌, ◌+◌, ◌*◌, ◌≤◌, [], IfErr, IfOk, IsOk, max};
ghost use Rattle.sector.specs.declared.refusal.Refusal.TheVariants.{NoMemory};
ghost use Rattle.volume.specs.Volumed.{is_loud_in_all};
ghost use Rattle.volume_commands.specs.Flying.{IsWhole};
ghost use Rattle.volume_commands.specs.Rested.{rested_of};
ghost use Rattle.audited_volume.specs.PlacesTaken.{places_of};
ghost use Rattle.audited_volume.specs.Noted.{kept_count, mays_of};
ghost use Rattle.volume.specs.Causes.{lives_of};
ghost use Rattle.counted_volume.specs.Places.{kept_for_marks, kept_free};

use crate::Resting;
use audited_volume::Audit;
use counted_volume::CountedVolume;
use layers::Layered;
use plain_machine::ReqId;
use sector::Refusal;

impl<B: Layered> Resting<B> {
    /// An audit of its volume of events, in which nothing is in flight: it begins with what the volume shows now. `NoMemory` where
    /// memory is refused for that, and the volume is given back.
    pub fn into_audit(self) -> Result<Audit<B>, (Refusal, Resting<B>)>
        requires quiet { self.rested.events.flights ≡ [] }
        ensures volume { IfOk result (λ audit. audit.volume ≡ self.rested.events) }
        ensures idle { IfOk result (λ audit. audit.held ≡ []) }
        ensures begins { IfOk result (λ audit. audit.entries ≡ []) }
        ensures taken { IfOk result (λ audit. places_of audit ≡ self.taken) }
        ensures loud { IfOk result (λ audit. audit.loud ≡ is_loud_in_all B.layers self.rested.events) }
        ensures whole { IsWhole self.rested }
        ensures err { IfErr result (λ e. (e.0 ≡ NoMemory) × (e.1 ≡ self)) }
    {
        let Resting { volume } = self;
        match volume.into_audit() {
            Ok(audit) => Ok(audit),
            Err((refusal, volume)) => Err((refusal, Resting { volume })),
        }
    }

    /// The volume of an audit with no request in flight, by whole commands from here on. The places that are taken of its journal
    /// stay so.
    pub fn of_audit(audit: Audit<B>) -> Resting<B>
        requires none { audit.held ≡ [] }
        ensures rested { result.rested ≡ rested_of audit.volume }
        ensures taken { result.taken ≡ max (places_of audit) (kept_count (lives_of audit.volume) (mays_of audit.volume)) }
    {
        Resting {
            volume: CountedVolume::of_audit(audit),
        }
    }

    /// Cuts the journal, so that it takes as many entries again. It takes no memory, so that it is never refused. Callers see no
    /// change of the volume.
    pub fn checkpoint(&mut self) -> Result<(), Refusal>
        ensures same { self.new.rested ≡ self.old.rested }
        ensures taken { self.new.taken ≡ kept_free self.old.rested.events + kept_for_marks self.old.rested.events }
        ensures ok { IsOk result }
        ensures err { IfErr result (λ refusal. refusal ≡ NoMemory) }
    {
        self.volume.checkpoint();
        Ok(())
    }

    /// A look at how many places of the journal are taken, which does nothing: no more than one for each request that was numbered,
    /// five for each snapshot that was attached, and forty.
    pub fn look_at_places(&self)
        ensures { self.now.taken ≤ self.now.rested.requests + 5 * self.now.rested.attached + 40 }
    {
        self.volume.look_at_places()
    }

    /// The number of the last request, and so how many requests there were.
    pub fn last_request(&self) -> ReqId
        ensures { result ≡ self.now.rested.requests }
    {
        self.volume.last_request()
    }
}
