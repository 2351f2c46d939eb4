// A snapshot is taken, and what it shows then stands in the journal.
ghost use Rattle.std.specs.Prelude.{◌≡◌, ◌⊎◌, ◌&&◌, ◌<◌, IfErr, IfOk, OnErr, OnOk, false, length};
ghost use Rattle.device.specs.Layers.{is_loud};
ghost use Rattle.plain_machine.specs.Plain.{overflow_of};
ghost use Rattle.volume.specs.DoesAttach.{DoesAttach};
ghost use Rattle.volume.specs.Fresh.{is_fresh};
ghost use Rattle.volume.specs.Taking.{IsNotTaken};
ghost use Rattle.audited_volume.specs.PlacesTaken.{HasTaken, IsNotAttached, KeepsJournal, is_full_by, places_for};

use crate::Audit;
use crate::array::Array;
use crate::bases::fill;
use crate::entry::Entry;
use crate::holding::is_full;
use cow_header::{Found, decode};
use layers::Layered;
use plain_machine::{Dev, Overflowing, SnapId};
use sector::{Range, Refusal, SECTOR_BYTES};
use snapshot::StoreDev;

/// How many places of the journal a snapshot takes: one for its entry, one that is kept free while it is live, and one while it may
/// overflow.
pub fn places_needed(overflow: bool) -> usize
    ensures is { result ≡ places_for overflow }
    ensures few { result < 4 }
{
    if overflow { 3 } else { 2 }
}

/// Whether a new snapshot may overflow.
fn overflow_for(overflow: bool) -> Overflowing
    ensures { result ≡ overflow_of overflow }
{
    if overflow {
        Overflowing::May
    } else {
        Overflowing::Never
    }
}

/// Whether a store is fresh, by its first sector: a look, and no operation.
fn looks_fresh<B: Layered>(store: &B) -> bool
    ensures { result ≡ is_fresh (B.contents store.now) }
{
    let size = store.sectors();
    if size == 0 {
        return true;
    }
    let range = Range {
        first: 0,
        count: 1,
        size,
    };
    let mut first = [0u8; SECTOR_BYTES];
    store.peek(range, &mut first);
    match decode(&first) {
        Ok(Found::Fresh) => true,
        Ok(Found::Header { .. }) => false,
        Err(_) => false,
    }
}

impl<B: Layered> Audit<B> {
    /// Takes a snapshot over a store, by a table line with this chunk size, and tells its number. The store may overflow where
    /// `overflow` says so: a write that finds it full is then refused and spoils nothing. `JournalFull` comes first, then want of memory for its entry; then the volume's own refusals. The store is given back with a
    /// refusal, and nothing is noted; after `Io` the origin may have been flushed.
    #[tactic(auto, using(volume::proofs::Between::not_tried))]
    pub fn attach(
        &mut self,
        store: StoreDev<B>,
        chunk: u32,
        overflow: bool,
    ) -> Result<SnapId, (Refusal, StoreDev<B>)>
        ensures noted { IfOk result (λ number. HasTaken number overflow (is_fresh (B.contents store.device)) self.old self.new) }
        ensures told { OnOk result (self.new.loud ≡ (self.old.loud && is_loud (B.layers store.device))) }
        ensures room { OnOk result (is_full_by (places_for overflow) self.old ≡ false) }
        ensures does { DoesAttach B.may_hold (record { contents = B.contents; durable = B.durable; size = B.size; faults = B.fault_count; done = B.done_count }) B.layers store chunk overflow result self.old.volume self.new.volume }
        ensures refused { IfErr result (λ e. IsNotAttached (is_full_by (places_for overflow) self.old) e.0 (e.1 ≡ store) (IsNotTaken store.stale chunk (B.size self.old.volume.origin) (B.size store.device) (B.contents store.device) self.old.volume e.0)) }
        ensures kept { OnErr result (KeepsJournal self.old self.new) }
    {
        if is_full(
            self.taken,
            self.entries.len(),
            self.held.len(),
            self.lives.as_slice(),
            self.may.as_slice(),
            places_needed(overflow),
        ) {
            return Err((Refusal::JournalFull, store));
        }
        let bytes = self.volume.origin().sectors() as usize * SECTOR_BYTES;
        let Ok(mut array) = vec![in self.alloc; 0u8; bytes] else {
            return Err((Refusal::NoMemory, store));
        };
        let Ok(()) = self.lives.reserve(1) else {
            return Err((Refusal::NoMemory, store));
        };
        let Ok(()) = self.may.reserve(1) else {
            return Err((Refusal::NoMemory, store));
        };
        let loud = store.device.is_loud();
        let fresh = looks_fresh(&store.device);
        match self.volume.attach(self.alloc, store, chunk, overflow) {
            Ok(number) => {
                fill(&self.volume, Dev::Snap(number), array.as_mut_slice());
                self.loud = self.loud && loud;
                self.lives.push_reserved(true);
                self.may.push_reserved(overflow);
                let array = Array::from_vec(array);
                let overflow = overflow_for(overflow);
                self.entries
                    .push_reserved(Entry::Attached(number, array, overflow, fresh));
                Ok(number)
            }
            Err(refused) => Err(refused),
        }
    }
}
