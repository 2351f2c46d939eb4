// A snapshot is opened over a store: the store's load, then a flush of the origin's device and of the store, and the load's
// writes, with a flush of the store after each.
ghost use Rattle.std.specs.Prelude.{◌≡◌, ◌≢◌, ◌⊎◌, ℕ, ◌+◌, ◌*◌, ◌<◌, ◌≤◌, List, length, is_ok, OnOk, OnErr, IfOk, IfErr, MatchResult, IsTrue, Ok, Err, true, false};
ghost use Rattle.sector.specs.Bytes.{sector_at};
ghost use Rattle.cow_header.specs.HeaderText.{found_in};
ghost use Rattle.sector.specs.declared.refusal.Refusal.TheVariants.{NoMemory, Io as IoRefusal};
ghost use Rattle.chunk.specs.Sizes.{is_chunk};
ghost use Rattle.device.specs.declared.operation.Operation.TheVariants.{Flushes};
ghost use Rattle.device.specs.Layers.{is_loud};
ghost use Rattle.cow_format.specs.Places.{slot, ChangesOnly};
ghost use Rattle.store.specs.declared.state.Left.TheVariants.{Nothing};
ghost use Rattle.store.specs.Held.{committed, pending, reserved};
ghost use Rattle.store.specs.Loading.{after_write, chunk_left, is_left, with_left};
ghost use Rattle.store.specs.Opening.{IsRefused, faults_after};
ghost use Rattle.store.specs.Stopping.{MayPrepare};
ghost use Rattle.cow_format.specs.Picture.{picture};
ghost use Rattle.volume_laws.specs.Steps.{IsNewSnap};
ghost use Rattle.snapshot.specs.InStep.{IsInStep};
ghost use Rattle.snapshot.specs.Kept.{books_of};
ghost use Rattle.snapshot.specs.Opening.{IsOpenedAs, prepared, shown_array, ChangesFront};
ghost use Rattle.snapshot.specs.Opened.{IsOpened, IsBack, IsFlushedAs, IsOriginBack};
ghost use Rattle.snapshot.specs.StopsOpening.{Leaves, MayOpen, MayPrepareAll};
ghost use Rattle.store.specs.Reading.{AreRead};
ghost use Rattle.crash_laws.specs.Firm.{IsFirm};
ghost use Rattle.whole_commands.specs.Attaching.{Tried, open_store, refuse, done};
ghost use Rattle.whole_commands.specs.Devices.{Device};
ghost use Rattle.snapshot.specs.Attaching.{both_by, device_of, next_by, prepared_by};
ghost use Rattle.store.specs.Calls.{CountsFault, EndsFirm, KeepsExceptions, KeepsSize, StaysAsLoud};
ghost use Rattle.store.specs.Opened.{EitherAddsNow, EitherAsLoud, EitherCounts, EitherKeeps, HasNoCopies, HasNoRoom};

use crate::Snapshot;
use device::{Block, Io};
use plain_machine::SnapId;
use sector::Refusal;
use std::alloc::Global;
use store::{Store, open};

/// A device for a snapshot's store. It is stale where the mark that its store is invalid could not be written to it.
#[derive(Drop)]
pub struct StoreDev<B: Block> {
    pub device: B,
    pub stale: bool,
}

/// Opens a store for an origin over a device. Nothing is written or flushed. The refusals are those of the store's load.
fn open_unwritten<B: Block>(
    alloc: Global,
    device: B,
    origin: &B,
    chunk: u32,
) -> Result<Store<B>, (Refusal, B)>
    requires { is_chunk chunk ≡ true }
    ensures opened { IfOk result (λ store. IsOpenedAs chunk (B.size origin.now) (B.size device) (B.contents device) store.state (committed store.exceptions)) }
    ensures pending { IfOk result HasNoCopies }
    ensures reserved { IfOk result HasNoRoom }
    ensures refused { IfErr result (λ refused. IsRefused chunk (B.size origin.now) (B.size device) (B.contents device) refused.0) }
    ensures contents { EitherKeeps B.contents device result }
    ensures size { EitherKeeps B.size device result }
    ensures exact { IfOk result (λ store. open_store chunk (device_of B.contents B.layers origin.now) (device_of B.contents B.layers device) ≡ both_by store.state.left store.state (device_of B.contents B.layers origin.now) (device_of B.contents B.layers store.device)) }
    ensures back { IfErr result (λ e. e.0 ≢ NoMemory → open_store chunk (device_of B.contents B.layers origin.now) (device_of B.contents B.layers device) ≡ refuse e.0 (device_of B.contents B.layers origin.now) (device_of B.contents B.layers e.1)) }
    ensures starved { IfErr result (λ e. e.0 ≡ NoMemory → AreRead (B.layers device) (B.layers e.1)) }
    ensures adds { EitherAddsNow device result }
    ensures loud { EitherAsLoud device result }
    ensures faults { EitherCounts device result }
{
    match open(alloc, device, chunk, origin.sectors()) {
        Ok((store, _)) => Ok(store),
        Err(refused) => Err(refused),
    }
}

/// Flushes the device of an origin.
fn flush_origin<B: Block>(origin: &mut B) -> Result<(), Io>
    ensures flushed { IsFlushedAs B.contents B.layers B.size B.fault_count B.done_count (is_ok result) origin.old origin.new }
    ensures kept { (s : ℕ) (v : List ℕ) → B.may_hold origin.new s v → B.may_hold origin.old s v }
    ensures firm { OnOk result (IsTrue (is_loud (B.layers origin.old)) → IsFirm (B.may_hold origin.new) (B.contents origin.new) (B.size origin.new)) }
{
    match origin.flush() {
        Ok(()) => Ok(()),
        Err(io) => Err(io),
    }
}

/// Flushes a store, and then does the write of its load that is left next, if one is; tells whether it did. At `Io` the
/// bytes of a store that drops no writes are as they were.
fn prepare_next<B: Block>(store: &mut Store<B>) -> Result<bool, Io>
    requires { store.old.state.awaits ≡ true }
    ensures more { IfOk result (λ more. more ≡ is_left store.old.state.left) }
    ensures state { OnOk result (store.new.state ≡ record store.old.state { left = after_write store.old.state.left; sure = length (committed store.old.exceptions); awaits = is_left store.old.state.left }) }
    ensures kept { OnErr result (store.new.state.left ≡ store.old.state.left) }
    ensures exceptions { KeepsExceptions store.old store.new }
    ensures places { store.new.places ≡ store.old.places }
    ensures written { OnOk result (IsTrue (is_loud (B.layers store.old.device)) → B.contents store.new.device ≡ with_left store.old.state.left store.old.state (B.contents store.old.device)) }
    ensures same { OnErr result (IsTrue (is_loud (B.layers store.old.device)) → B.contents store.new.device ≡ B.contents store.old.device) }
    ensures leaves { store.old.state.valid ≡ true → IsTrue (is_loud (B.layers store.old.device)) → Leaves (B.may_hold store.old.device) (B.may_hold store.new.device) store.old.state.size (MayPrepare store.old.state.left store.old.state.chunk store.old.state.origin store.old.state.size (committed store.old.exceptions)) }
    ensures operations { is_loud (B.layers store.old.device) ≡ true → (origin : Device) (next : Device → Tried) → MatchResult result (λ _. next_by store.old.state.left store.old.state origin next (device_of B.contents B.layers store.old.device) ≡ next (device_of B.contents B.layers store.new.device)) (λ _. next_by store.old.state.left store.old.state origin next (device_of B.contents B.layers store.old.device) ≡ refuse IoRefusal origin (device_of B.contents B.layers store.new.device)) }
    ensures only { ChangesOnly store.old.state.chunk (chunk_left store.old.state.left store.old.state) (B.contents store.old.device) (B.contents store.new.device) }
    ensures size { KeepsSize store.old store.new }
    ensures loud { StaysAsLoud store.old store.new }
    ensures faults { CountsFault result store.old store.new }
    ensures firm { IfOk result (λ more. more ≡ false → IsTrue (is_loud (B.layers store.old.device)) → IsFirm (B.may_hold store.new.device) (B.contents store.new.device) (B.size store.new.device)) }
{
    let more = match store.prepare() {
        Ok(more) => more,
        Err(io) => return Err(io),
    };
    if more {
        match store.prepare() {
            Ok(_) => {}
            Err(io) => return Err(io),
        }
    }
    Ok(more)
}

/// Does the flushes and writes of a load that are left: a flush, and after it the writes, two at most, with a flush after each.
/// At `Io` the store's bytes are as they were, or area 0 of a fresh store is zeroed, or all writes are done.
fn prepare_all<B: Block>(store: &mut Store<B>) -> Result<(), Io>
    requires { store.old.state.awaits ≡ true }
    ensures state { OnOk result (store.new.state ≡ record store.old.state { left = Nothing; sure = length (committed store.old.exceptions); awaits = false }) }
    ensures exceptions { KeepsExceptions store.old store.new }
    ensures places { store.new.places ≡ store.old.places }
    ensures written { OnOk result (IsTrue (is_loud (B.layers store.old.device)) → B.contents store.new.device ≡ prepared store.old.state.left store.old.state (B.contents store.old.device)) }
    ensures leaves { store.old.state.valid ≡ true → IsTrue (is_loud (B.layers store.old.device)) → Leaves (B.may_hold store.old.device) (B.may_hold store.new.device) store.old.state.size (MayPrepareAll store.old.state.left store.old.state.chunk store.old.state.origin store.old.state.size (committed store.old.exceptions)) }
    ensures operations { is_loud (B.layers store.old.device) ≡ true → (origin : Device) → MatchResult result (λ _. prepared_by store.old.state.left store.old.state origin (device_of B.contents B.layers store.old.device) ≡ done store.old.state.chunk origin (device_of B.contents B.layers store.new.device)) (λ _. prepared_by store.old.state.left store.old.state origin (device_of B.contents B.layers store.old.device) ≡ refuse IoRefusal origin (device_of B.contents B.layers store.new.device)) }
    ensures only { ChangesFront store.old.state.chunk store.old.state.current (B.contents store.old.device) (B.contents store.new.device) }
    ensures size { KeepsSize store.old store.new }
    ensures loud { StaysAsLoud store.old store.new }
    ensures faults { CountsFault result store.old store.new }
    ensures firm { OnOk result (EndsFirm store.old store.new) }
{
    let more = match prepare_next(store) {
        Ok(more) => more,
        Err(io) => return Err(io),
    };
    if !more {
        return Ok(());
    }
    let again = match prepare_next(store) {
        Ok(more) => more,
        Err(io) => return Err(io),
    };
    if !again {
        return Ok(());
    }
    match store.prepare() {
        Ok(_) => Ok(()),
        Err(io) => Err(io),
    }
}

/// Opens a snapshot over a store, for an origin over a device. A fresh store gets chunks of so many sectors, a written one
/// has its own. Whether it may overflow is asked for, and no write of it found its store full yet. The refusals of the
/// store's load come first; then the origin's device is flushed, and the store, before the first write of its load, and the
/// store again after each write; a flush or a write that fails refuses it with `Io`. Other snapshots of the origin may have
/// chunks of another size. The store is given back with a refusal; after `Io` the writes of its load may be done, all or but
/// for the header of a fresh one. Once it is opened neither device may be left with anything but what is there. Whatever a
/// stop may leave of the store then, or after a refusal, might be left before, is fresh as it was, or is loaded again with
/// the pairs that it had. The origin's bytes stay as they are.
pub fn open_snapshot<B: Block>(
    alloc: Global,
    number: SnapId,
    store: StoreDev<B>,
    origin: &mut B,
    chunk: u32,
    overflow: bool,
) -> Result<Snapshot<B>, (Refusal, StoreDev<B>)>
    requires { is_chunk chunk ≡ true }
    ensures opened { IfOk result (λ s. IsOpened B.contents B.layers number chunk (B.size origin.old) (B.size store.device) overflow store.device s) }
    ensures counted { IfOk result (λ s. length s.pairs ≡ s.state.current * (32 * s.state.chunk) + s.state.filled) }
    ensures unfilled { IfOk result (λ s. s.state.filled < 32 * s.state.chunk) }
    ensures in_step { IfOk result (λ s. IsInStep B.contents B.layers B.size s) }
    ensures rest { IfOk result (λ s. is_loud (B.layers store.device) ≡ true → (k : ℕ) → length s.pairs ≤ k → k < (s.state.current + 1) * (32 * s.state.chunk) → (slot s.state.chunk (B.contents s.device) k).new ≡ 0) }
    ensures new { IfOk result (λ s. (disk : List ℕ) → length disk ≡ 512 * B.size origin.old → IsNewSnap disk (books_of B.contents B.layers s)) }
    ensures shown { IfOk result (λ s. is_loud (B.layers store.device) ≡ true → (disk : List ℕ) → picture s.state.chunk disk (B.contents s.device) ≡ shown_array disk (B.contents store.device)) }
    ensures exact { IfOk result (λ s. is_loud (B.layers store.device) ≡ true → open_store chunk (device_of B.contents B.layers origin.old) (device_of B.contents B.layers store.device) ≡ done s.state.chunk (device_of B.contents B.layers origin.new) (device_of B.contents B.layers s.device)) }
    ensures given_back { IfErr result (λ e. e.0 ≢ NoMemory → is_loud (B.layers store.device) ≡ true → open_store chunk (device_of B.contents B.layers origin.old) (device_of B.contents B.layers store.device) ≡ refuse e.0 (device_of B.contents B.layers origin.new) (device_of B.contents B.layers e.1.device)) }
    ensures starved { IfErr result (λ e. e.0 ≡ NoMemory → (B.contents e.1.device ≡ B.contents store.device) × AreRead (B.layers store.device) (B.layers e.1.device)) }
    ensures refused { IfErr result (λ e. IsRefused chunk (B.size origin.old) (B.size store.device) (B.contents store.device) e.0) }
    ensures back { IfErr result (λ e. IsBack chunk e.0 (B.contents store.device) (B.contents e.1.device)) }
    ensures origin { MatchResult result (λ _. IsFlushedAs B.contents B.layers B.size B.fault_count B.done_count true origin.old origin.new) (λ e. IsOriginBack B.contents B.layers B.size B.fault_count B.done_count e.0 origin.old origin.new) }
    ensures origin_kept { (s : ℕ) (v : List ℕ) → B.may_hold origin.new s v → B.may_hold origin.old s v }
    ensures origin_firm { OnOk result (IsTrue (is_loud (B.layers origin.old)) → IsFirm (B.may_hold origin.new) (B.contents origin.new) (B.size origin.new)) }
    ensures firm { IfOk result (λ s. IsTrue (is_loud (B.layers store.device)) → IsFirm (B.may_hold s.device) (B.contents s.device) (B.size s.device)) }
    ensures leaves { MatchResult result (λ s. is_loud (B.layers store.device) ≡ true → Leaves (B.may_hold store.device) (B.may_hold s.device) (B.size store.device) (MayOpen chunk (B.size origin.old) (B.size store.device) (B.contents store.device) (found_in (sector_at (B.contents store.device) 0)))) (λ e. is_loud (B.layers store.device) ≡ true → Leaves (B.may_hold store.device) (B.may_hold e.1.device) (B.size store.device) (MayOpen chunk (B.size origin.old) (B.size store.device) (B.contents store.device) (found_in (sector_at (B.contents store.device) 0)))) }
    ensures stale { IfErr result (λ e. e.1.stale ≡ store.stale) }
    ensures size { MatchResult result (λ s. B.size s.device ≡ B.size store.device) (λ e. B.size e.1.device ≡ B.size store.device) }
    ensures loud { MatchResult result (λ s. is_loud (B.layers s.device) ≡ is_loud (B.layers store.device)) (λ e. is_loud (B.layers e.1.device) ≡ is_loud (B.layers store.device)) }
    ensures faults { MatchResult result (λ s. B.fault_count s.device ≡ B.fault_count store.device) (λ e. (B.fault_count e.1.device ≡ faults_after e.0 (B.fault_count store.device)) ⊎ (B.fault_count e.1.device ≡ B.fault_count store.device) × (B.fault_count origin.new ≡ faults_after e.0 (B.fault_count origin.old))) }
{
    let StoreDev { device, stale } = store;
    let mut store = match open_unwritten(alloc, device, origin, chunk) {
        Ok(store) => store,
        Err((refusal, device)) => return Err((refusal, StoreDev { device, stale })),
    };
    match flush_origin(origin) {
        Ok(()) => {}
        Err(Io) => {
            let device = store.into_device();
            return Err((Refusal::Io, StoreDev { device, stale }));
        }
    }
    match prepare_all(&mut store) {
        Ok(()) => Ok(Snapshot::over(alloc, number, store, overflow)),
        Err(Io) => {
            let device = store.into_device();
            Err((Refusal::Io, StoreDev { device, stale }))
        }
    }
}
