// A snapshot is taken.
ghost use Rattle.std.specs.Prelude.{◌≡◌, ℕ, IfErr, IfSome};
ghost use Rattle.store.specs.Opening.{faults_after};
ghost use Rattle.volume.specs.DoesAttach.{DoesAttach};
ghost use Rattle.volume.specs.Taking.{IsNotTaken, attach_refusal};

use crate::{MAX_SNAPSHOTS, Volume};
use chunk::is_chunk_size;
use device::Block;
use plain_machine::SnapId;
use sector::Refusal;
use snapshot::{StoreDev, open_snapshot};
use std::alloc::Global;

impl<B: Block> Volume<B> {
    /// Why no snapshot is taken, before the store is looked at.
    fn attach_refused(&self, stale: bool, chunk: u32) -> Option<Refusal>
        ensures value { result ≡ attach_refusal stale chunk self.now }
        ensures faultless { IfSome result (λ refusal. (faults : ℕ) → faults_after refusal faults ≡ faults) }
    {
        if stale {
            return Some(Refusal::Stale);
        }
        if self.merge.is_some() {
            return Some(Refusal::MergeInProgress);
        }
        if !self.is_quiet() {
            return Some(Refusal::NotQuiet);
        }
        if self.snaps.len() >= MAX_SNAPSHOTS || self.attached == u32::MAX {
            return Some(Refusal::TooMany);
        }
        if is_chunk_size(chunk) {
            None
        } else {
            Some(Refusal::BadChunk)
        }
    }

    /// Takes a snapshot over a store, by a table line with this chunk size, and tells its number. Over a fresh store it
    /// shows the origin; a written store has a chunk size of its own, and its snapshot shows the chunks that it has in
    /// place of the origin's. `overflow` says whether a write of it that finds its store full is refused, and spoils
    /// nothing; of a new snapshot, also over a store that was in use, none did yet. Refused, in this order: a stale store
    /// (`Stale`), a volume with a merge (`MergeInProgress`), one that is not quiet (`NotQuiet`), a ninth snapshot or one
    /// whose number would be 2^32 (`TooMany`), a chunk size that is none (`BadChunk`); and then as the store's load says.
    /// The store is given back with a refusal. After all of these refusals, and before the first write of the load, the
    /// origin's device and then the store's are flushed, and the store's again after each write; a flush that fails refuses
    /// with `Io`, as a read or a write does. With any refusal but `Io` the volume is as it was; after `Io` its origin's
    /// device may have met the flush, and nothing else changed. Whatever a stop
    /// before, within or after the call leaves of the store, where that drops no writes, might be left before, is fresh as it
    /// was, or is loaded again with the pairs that it had. The origin's disk may be left with nothing that it might not be left
    /// with before; after `Ok` neither it nor the store may be left with anything but what is there.
    pub fn attach(
        &mut self,
        alloc: Global,
        store: StoreDev<B>,
        chunk: u32,
        overflow: bool,
    ) -> Result<SnapId, (Refusal, StoreDev<B>)>
        ensures does { DoesAttach B.may_hold (record { contents = B.contents; durable = B.durable; size = B.size; faults = B.fault_count; done = B.done_count }) B.layers store chunk overflow result self.old self.new }
        ensures refused { IfErr result (λ e. IsNotTaken store.stale chunk (B.size self.old.origin) (B.size store.device) (B.contents store.device) self.old e.0) }
    {
        self.look_at_stores();
        match self.attach_refused(store.stale, chunk) {
            Some(refusal) => return Err((refusal, store)),
            None => {}
        }
        match self.snaps.reserve(1) {
            Ok(()) => {}
            Err(_) => return Err((Refusal::NoMemory, store)),
        }
        let number = self.attached + 1;
        match open_snapshot(alloc, number, store, &mut self.origin, chunk, overflow) {
            Ok(snap) => {
                // A look: that its chunks have an allowed size is known from here on.
                let _ = snap.chunk();
                self.snaps.push_reserved(snap);
                self.attached = number;
                self.look_at_stores();
                Ok(number)
            }
            Err(refused) => Err(refused),
        }
    }
}
