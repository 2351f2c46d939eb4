// A volume, and how many places of its journal are taken.
ghost use Rattle.std.specs.Prelude.{◌≡◌, ◌&&◌, ◌+◌, ◌≤◌, [], IfErr, IfOk, None, max};
ghost use Rattle.plain_machine.specs.Plain.{may_overflow};
ghost use Rattle.sector.specs.declared.refusal.Refusal.TheVariants.{NoMemory};
ghost use Rattle.volume.specs.Causes.{lives_of};
ghost use Rattle.volume.specs.Layering.{Measures};
ghost use Rattle.volume_lifetime.specs.Life.{HasLife};
ghost use Rattle.volume.specs.Volumed.{is_loud_in_all};
ghost use Rattle.audited_volume.specs.Earned.{AreEarned};
ghost use Rattle.audited_volume.specs.PlacesTaken.{places_of};
ghost use Rattle.audited_volume.specs.Noted.{kept_count, live_count, may_count, mays_of};
ghost use Rattle.counted_volume.specs.Places.{kept_for_marks, kept_free};

use audited_volume::{Audit, is_may};
use layers::Layered;
use sector::Refusal;
use snapshot::Snapshot;
use std::alloc::Global;
use std::marker::Model;
use volume_lifetime::LivedVolume;

/// A volume, and how many places of its journal are taken since the last checkpoint: one by each entry that would stand in it,
/// by each request in flight, and by each live snapshot. One more is taken by each live snapshot whose store may still overflow,
/// which is counted where it is asked for: it turns into the entry of that mark, and is given back where the snapshot is lost, is
/// taken away, or begins to be merged. An event turns places into entries, and takes none. Contracts see the volume, and the count.
#[derive(Drop)]
pub struct CountedVolume<B: Layered> {
    pub(crate) volume: LivedVolume<B>,
    /// Those that are taken, but for those of marks to come.
    pub(crate) places: usize,
    pub(crate) alloc: Global,
}

impl<B: Layered> Model for CountedVolume<B> {
    ghost use Rattle.counted_volume.specs.Places.{Counted, HasPlaces, counted_with};

    ghost Value = { Counted B };

    ghost view = { λ j. counted_with j.volume j.places };

    ghost invariant = { λ j. HasPlaces j.volume j.places };
}

/// How many snapshots of a volume are live.
pub(crate) fn count_live<B: Layered>(volume: &LivedVolume<B>) -> usize
    ensures count { result ≡ live_count (lives_of volume.now) }
    ensures few { result ≤ 8 }
{
    let mut count = 0;
    for k in 0..volume.len() {
        if volume.snap(k).is_live() {
            count += 1;
        }
    }
    count
}

/// Whether a snapshot is live, and its store may still overflow.
fn may_be_marked<B: Layered>(snap: &Snapshot<B>) -> bool
    ensures { result ≡ (snap.now.live && may_overflow snap.now.overflow) }
{
    snap.is_live() && is_may(snap.overflow())
}

/// How many live snapshots of a volume may still overflow.
pub(crate) fn count_may<B: Layered>(volume: &LivedVolume<B>) -> usize
    ensures count { result ≡ may_count (lives_of volume.now) (mays_of volume.now) }
    ensures few { result ≤ 8 }
{
    let mut count = 0;
    for k in 0..volume.len() {
        if may_be_marked(volume.snap(k)) {
            count += 1;
        }
    }
    count
}

impl<B: Layered + Drop> CountedVolume<B> {
    /// A volume over an origin disk, without snapshots and requests, and no place of its journal is taken. Where memory is
    /// refused, the disk is given back.
    pub fn new(alloc: Global, origin: B) -> Result<CountedVolume<B>, (Refusal, B)>
        ensures ok { IfOk result (λ v. v.volume ≡ record { origin = origin; snaps = []; merge = None; flights = []; requests = 0; copies = 0; attached = 0 }) }
        ensures taken { IfOk result (λ v. v.taken ≡ 0) }
        ensures err { IfErr result (λ e. e ≡ record { 0 = NoMemory; 1 = origin }) }
    {
        let volume = LivedVolume::new(alloc, origin)?;
        Ok(CountedVolume {
            volume,
            places: 0,
            alloc,
        })
    }
}

impl<B: Layered> CountedVolume<B> {
    /// The volume of an audit with no request in flight. The places that are taken of its journal stay so.
    pub fn of_audit(audit: Audit<B>) -> CountedVolume<B>
        requires none { audit.held ≡ [] }
        ensures volume { result.volume ≡ audit.volume }
        ensures taken { result.taken ≡ max (places_of audit) (kept_count (lives_of audit.volume) (mays_of audit.volume)) }
    {
        // Two looks: then none is in flight in the volume, and its places are earned.
        audit.look_at_requests();
        audit.look_at_places();
        let (volume, places, alloc) = audit.into_counted();
        // A look: there are eight snapshots at most.
        let _ = volume.len();
        // Each live snapshot has its places, whatever the audit saw of it last.
        let live = count_live(&volume);
        let may = count_may(&volume);
        CountedVolume {
            volume,
            places: places.max(live + may) - may,
            alloc,
        }
    }

    /// An audit of the volume, which begins with what it shows now and in which as many places are taken. `NoMemory` where
    /// memory is refused for that, and the volume is given back.
    pub fn into_audit(self) -> Result<Audit<B>, (Refusal, CountedVolume<B>)>
        requires quiet { self.volume.flights ≡ [] }
        ensures volume { IfOk result (λ audit. audit.volume ≡ self.volume) }
        ensures idle { IfOk result (λ audit. audit.held ≡ []) }
        ensures begins { IfOk result (λ audit. audit.entries ≡ []) }
        ensures taken { IfOk result (λ audit. places_of audit ≡ self.taken) }
        ensures loud { IfOk result (λ audit. audit.loud ≡ is_loud_in_all B.layers self.volume) }
        ensures err { IfErr result (λ e. (e.0 ≡ NoMemory) × (e.1 ≡ self)) }
    {
        let CountedVolume {
            volume,
            places,
            alloc,
        } = self;
        let live = count_live(&volume);
        match Audit::going_on(alloc, volume, places - live) {
            Ok(audit) => Ok(audit),
            Err((refusal, volume)) => Err((
                refusal,
                CountedVolume {
                    volume,
                    places,
                    alloc,
                },
            )),
        }
    }

    /// A look at the volume's life, which does nothing: it began over a device, without snapshots, and one list of deeds made it what
    /// it is, what threads did among them, each with an answer that a volume may give there.
    pub fn look_at_life(&self)
        ensures { HasLife B.may_hold (record { contents = B.contents; durable = B.durable; size = B.size; faults = B.fault_count; done = B.done_count }) B.layers self.now.volume }
    {
        self.volume.look_at_life()
    }

    /// A look at the places that are taken, which does nothing: there are no more than the requests and the snapshots that were
    /// numbered earned.
    pub fn look_at_places(&self)
        ensures { AreEarned self.now.taken self.now.volume }
    {
        let _ = &self.places;
    }

    /// Cuts the journal, so that it takes as many entries again: no place is taken but those that are kept free. The volume is as it
    /// was.
    pub fn checkpoint(&mut self)
        ensures volume { self.new.volume ≡ self.old.volume }
        ensures taken { self.new.taken ≡ kept_free self.old.volume + kept_for_marks self.old.volume }
    {
        self.places = self.volume.flying() + count_live(&self.volume);
    }
}
