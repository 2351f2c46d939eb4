// A volume is opened with its snapshots.
ghost use Rattle.std.specs.Prelude.{◌≡◌, ℕ, IfErr, IfOk, None, []};
ghost use Rattle.sector.specs.declared.refusal.Refusal.TheVariants.{NoMemory};
ghost use Rattle.cow_header.specs.declared.found.Found.TheVariants.{Header};
ghost use Rattle.volume_opening.specs.Loaded.{IsLoaded};
ghost use Rattle.volume_opening.specs.Merged.{IsMerged};

use cow_header::Found;
use device::Ahead;
use plain_machine::SnapId;
use sector::Refusal;
use std::alloc::Global;
use std::marker::Model;
use volume::Volume;
use volume_opening::NotOpened;

/// A volume that is opened, and not yet served: no request is in flight, and of each file a stop leaves nothing but what is there, once
/// it has a snapshot.
#[derive(Drop)]
pub struct OpenedVolume<B: Ahead> {
    pub(crate) volume: Volume<B>,
}

impl<B: Ahead> Model for OpenedVolume<B> {
    ghost use Rattle.volume.specs.Volumed.{Volumed};
    ghost use Rattle.served_session_laws.specs.Sessions.{IsOpened};

    ghost Value = { Volumed B };

    ghost view = { λ o. o.volume };

    ghost invariant = { λ o. IsOpened B.may_hold (record { contents = B.contents; durable = B.durable; size = B.size; faults = B.fault_count; done = B.done_count }) B.layers o.volume };
}

impl<B: Ahead + Drop> OpenedVolume<B> {
    /// A volume over an origin, without snapshots. Where memory is refused, the origin's device is given back.
    pub fn new(alloc: Global, origin: B) -> Result<OpenedVolume<B>, (Refusal, B)>
        ensures ok { IfOk result (λ o. o ≡ record { origin = origin; snaps = []; merge = None; flights = []; requests = 0; copies = 0; attached = 0 }) }
        ensures err { IfErr result (λ e. e ≡ record { 0 = NoMemory; 1 = origin }) }
    {
        let volume = Volume::new(alloc, origin)?;
        Ok(OpenedVolume { volume })
    }

    /// The volume.
    pub fn volume(&self) -> &Volume<B>
        ensures { result.now ≡ self.now }
    {
        &self.volume
    }

    /// Attaches the snapshot of a store, as `volume_opening::load` does.
    pub fn load(
        self,
        alloc: Global,
        store: B,
        chunk: u32,
        overflow: bool,
    ) -> Result<(OpenedVolume<B>, Found), NotOpened>
        ensures { IfOk result (λ loaded. (number : ℕ) × IsLoaded B.may_hold (record { contents = B.contents; durable = B.durable; size = B.size; faults = B.fault_count; done = B.done_count }) B.layers B.failed chunk overflow store number loaded.1 self loaded.0) }
    {
        let OpenedVolume { mut volume } = self;
        let (_, found) = volume_opening::load(alloc, &mut volume, store, chunk, overflow)?;
        Ok((OpenedVolume { volume }, found))
    }

    /// Attaches the snapshot of a store that has one, as `volume_opening::load_written` does.
    pub fn load_written(
        self,
        alloc: Global,
        store: B,
        chunk: u32,
        overflow: bool,
    ) -> Result<OpenedVolume<B>, NotOpened>
        ensures { IfOk result (λ opened. (number own : ℕ) × IsLoaded B.may_hold (record { contents = B.contents; durable = B.durable; size = B.size; faults = B.fault_count; done = B.done_count }) B.layers B.failed chunk overflow store number (Header own) self opened) }
    {
        let OpenedVolume { mut volume } = self;
        let _ = volume_opening::load_written(alloc, &mut volume, store, chunk, overflow)?;
        Ok(OpenedVolume { volume })
    }

    /// Begins to merge a snapshot, as `volume_opening::merge` does.
    pub fn merge(self, alloc: Global, number: SnapId) -> Result<OpenedVolume<B>, NotOpened>
        ensures { IfOk result (λ opened. IsMerged B.may_hold B.contents B.layers B.size B.failed number self opened) }
    {
        let OpenedVolume { mut volume } = self;
        volume_opening::merge(alloc, &mut volume, number)?;
        Ok(OpenedVolume { volume })
    }
}
