// A device of sectors: what every layer, disk and test device is to the code above it.
ghost use Rattle.std.specs.Prelude.{◌≡◌, ◌⊎◌, ℕ, ◌+◌, ◌*◌, ◌-◌, ◌^◌, ◌<◌, ◌≤◌, Bool, true, false, List, [], length, slice_index, if◌then◌else◌, is_ok, OnOk, OnErr, IsTrue};
ghost use Rattle.sector.specs.Bytes.{sectors_at, with_sectors, sector_at, next_count};
ghost use Rattle.device.specs.declared.operation.Operation.TheVariants.{Reads, Writes, Flushes};
ghost use Rattle.device.specs.declared.operation.Fate.TheVariants.{Pass, Drop};
ghost use Rattle.device.specs.Bare.{HasLike, HoldsTwo, can_copy_run, count_after};
ghost use Rattle.device.specs.Layers.{Layer, fate, is_answered, is_passed, layers_after, is_loud};
ghost use Rattle.device.specs.Counting.{CountsOne, IsAsLoud};

use crate::Io;
use sector::{Range, Sector};

/// A device of sectors of 512 bytes, with a volatile cache.
///
/// Each read, write and flush raises `done` by one. It answers `Io` exactly where `faults` rose, by one, in that call,
/// and then the contents are as before. Whether it does is the fate that its layers give the operation. Both counts go
/// from 2^64 - 1 to 0. No operation takes memory.
pub trait Block {
    /// How many sectors it has.
    ghost size: { Self → ℕ };

    /// The bytes below the layers, 512 for each sector.
    ghost contents: { Self → List ℕ };

    /// The bytes that a loss of all that was not flushed leaves.
    ghost durable: { Self → List ℕ };

    /// The layers above the disk, from the top.
    ghost layers: { Self → List Layer };

    /// How many operations answered a fault.
    ghost fault_count: { Self → ℕ };

    /// How many operations there were.
    ghost done_count: { Self → ℕ };

    /// What a stop at this moment may leave in a sector, each sector by itself.
    ghost may_hold: { Self → ℕ → List ℕ → Type 0 };

    /// Whether devices of this kind copy runs of sectors by one call where no layer stands above them. Then a stop leaves of such a
    /// device what is there or what was there at the last flush, and nothing else. A device whose cache may write out any value since
    /// the last flush is a `Block` like any other, and needs no layer: it just copies no runs.
    ghost copies_runs: { Bool };

    /// How many sectors it has.
    fn sectors(&self) -> u64
        ensures { result ≡ size self.now };

    /// How many operations answered a fault, modulo 2^64.
    fn faults(&self) -> u64
        ensures { result ≡ fault_count self.now };

    /// How many operations there were, modulo 2^64.
    fn done(&self) -> u64
        ensures { result ≡ done_count self.now };

    /// Reads sectors into a buffer that is as long. At `Io` the buffer is as it was.
    fn read(&mut self, range: Range, out: &mut [u8]) -> Result<(), Io>
        requires some { 0 < range.count }
        requires inside { range.first + range.count ≤ size self.old }
        requires room { length out.old ≡ 512 * range.count }

        ensures answer { is_ok result ≡ is_answered (fate (layers self.old) (Reads range.first range.count)) }
        ensures layers { layers self.new ≡ layers_after (layers self.old) (Reads range.first range.count) }
        ensures loud { IsAsLoud layers self.old self.new }

        ensures data { OnOk result (out.new ≡ sectors_at (contents self.old) range.first range.count) }
        ensures data_err { OnErr result (out.new ≡ out.old) }

        ensures contents { contents self.new ≡ contents self.old }
        ensures durable { durable self.new ≡ durable self.old }
        ensures size { size self.new ≡ size self.old }
        ensures faults { fault_count self.new ≡ (if is_ok result then fault_count self.old else next_count (fault_count self.old)) }
        ensures done { CountsOne done_count self.old self.new }
        ensures stop { (s : ℕ) (v : List ℕ) → may_hold self.new s v → may_hold self.old s v };

    /// Writes sectors from a buffer that is as long. What is written may be lost until the next flush. A device with a
    /// layer that drops writes may answer `Ok` and write nothing. A stop within the write leaves each of its sectors
    /// old or new, each by itself.
    fn write(&mut self, range: Range, bytes: &[u8]) -> Result<(), Io>
        requires some { 0 < range.count }
        requires inside { range.first + range.count ≤ size self.old }
        requires room { length bytes.now ≡ 512 * range.count }

        ensures answer { is_ok result ≡ is_answered (fate (layers self.old) (Writes range.first range.count)) }
        ensures layers { layers self.new ≡ layers_after (layers self.old) (Writes range.first range.count) }
        ensures loud { IsAsLoud layers self.old self.new }

        // Done, as a loud device does whatever it answers; and dropped; and failed.
        ensures passed { fate (layers self.old) (Writes range.first range.count) ≡ Pass → contents self.new ≡ with_sectors (contents self.old) range.first bytes.now }
        ensures written { OnOk result (IsTrue (is_loud (layers self.old)) → contents self.new ≡ with_sectors (contents self.old) range.first bytes.now) }
        ensures dropped { fate (layers self.old) (Writes range.first range.count) ≡ Drop → contents self.new ≡ contents self.old }
        ensures err { OnErr result (contents self.new ≡ contents self.old) }

        // In each of these cases.
        ensures rest { (i : ℕ) → (i < 512 * range.first) ⊎ (512 * (range.first + range.count) ≤ i) → slice_index (contents self.new) i ≡ slice_index (contents self.old) i }
        ensures durable { durable self.new ≡ durable self.old }
        ensures size { size self.new ≡ size self.old }
        ensures faults { fault_count self.new ≡ (if is_ok result then fault_count self.old else next_count (fault_count self.old)) }
        ensures done { CountsOne done_count self.old self.new }
        ensures stop { (s : ℕ) (v : List ℕ) → may_hold self.new s v → may_hold self.old s v ⊎ ((range.first ≤ s) × (s < range.first + range.count) × (v ≡ sector_at bytes.now (s - range.first))) }
        ensures stop_err { OnErr result ((s : ℕ) (v : List ℕ) → may_hold self.new s v → may_hold self.old s v) };

    /// Makes all that was written last through a stop and a loss. At `Io` it may be lost as before.
    fn flush(&mut self) -> Result<(), Io>
        ensures answer { is_ok result ≡ is_answered (fate (layers self.old) Flushes) }
        ensures layers { layers self.new ≡ layers_after (layers self.old) Flushes }
        ensures loud { IsAsLoud layers self.old self.new }

        ensures contents { contents self.new ≡ contents self.old }
        ensures durable { durable self.new ≡ (if is_passed (fate (layers self.old) Flushes) then contents self.old else durable self.old) }
        ensures size { size self.new ≡ size self.old }
        ensures faults { fault_count self.new ≡ (if is_ok result then fault_count self.old else next_count (fault_count self.old)) }
        ensures done { CountsOne done_count self.old self.new }
        ensures stop { (s : ℕ) (v : List ℕ) → may_hold self.new s v → may_hold self.old s v }
        ensures flushed { OnOk result (IsTrue (is_loud (layers self.old)) → (s : ℕ) (v : List ℕ) → s < size self.new → may_hold self.new s v → v ≡ sector_at (contents self.new) s) };

    /// Copies sectors of another device over as many of its own, from `to` on, as reads there and writes here would, one after
    /// another: so many of each, which together are of all these sectors. It does so where the kind copies runs and no layer stands
    /// above either device, so that none of them can fail; else it does nothing, and answers `false`.
    fn copy_sectors(
        &mut self,
        to: Range,
        from: &mut Self,
        first: Sector,
        reads: u32,
        writes: u32,
    ) -> bool
        requires some { 0 < to.count }
        requires inside { to.first + to.count ≤ size self.old }
        requires there { first + to.count ≤ size from.old }

        ensures answer { result ≡ can_copy_run copies_runs (layers self.old) (layers from.old) }
        ensures undone { result ≡ false → (self.new ≡ self.old) × (from.new ≡ from.old) }
        ensures layers { (layers self.new ≡ layers self.old) × (layers from.new ≡ layers from.old) }

        ensures copied { result ≡ true → contents self.new ≡ with_sectors (contents self.old) to.first (sectors_at (contents from.old) first to.count) }
        ensures contents { contents from.new ≡ contents from.old }
        ensures durable { (durable self.new ≡ durable self.old) × (durable from.new ≡ durable from.old) }
        ensures size { (size self.new ≡ size self.old) × (size from.new ≡ size from.old) }
        ensures faults { (fault_count self.new ≡ fault_count self.old) × (fault_count from.new ≡ fault_count from.old) }
        ensures done { result ≡ true → (done_count self.new ≡ count_after (done_count self.old) writes) × (done_count from.new ≡ count_after (done_count from.old) reads) }
        ensures stop { (s : ℕ) (v : List ℕ) → may_hold self.new s v → may_hold self.old s v ⊎ (v ≡ sector_at (contents self.new) s) }
        ensures stop_there { (s : ℕ) (v : List ℕ) → may_hold from.new s v → may_hold from.old s v };

    /// A device has whole sectors.
    ghost whole: { (d : Self) → length (contents d) ≡ 512 * size d };

    /// A device has 2^31 sectors at most, 1 TiB.
    ghost small: { (d : Self) → size d ≤ 2_147_483_648 };

    /// A stop may leave what is there.
    ghost holds_now: { (d : Self) (s : ℕ) → s < size d → may_hold d s (sector_at (contents d) s) };

    /// A stop may leave what was there at the last flush.
    ghost holds_durable: { (d : Self) (s : ℕ) → s < size d → may_hold d s (sector_at (durable d) s) };

    /// Where the kind copies runs, a stop may leave no more than these two in a sector of a device without layers.
    ghost holds_two: { copies_runs ≡ true → (d : Self) → layers d ≡ [] → HoldsTwo (may_hold d) (contents d) (durable d) };

    /// And there such a device may have any bytes, and have done any number of operations, whatever it had at the last flush.
    ghost has_like: { copies_runs ≡ true → (d : Self) (bytes : List ℕ) (count : ℕ) → layers d ≡ [] → length bytes ≡ 512 * size d → count < 2 ^ 64 → HasLike size contents durable layers fault_count done_count d bytes count };
}
