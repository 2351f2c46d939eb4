// What a fuse does with the operations of a device. The clauses of `Block` stand here again, by what the fuse shows; after them
// stands what becomes of the disk that is kept aside.
ghost use Rattle.std.specs.Prelude.{◌≡◌, ◌⊎◌, ℕ, ◌+◌, ◌*◌, ◌-◌, ◌<◌, ◌≤◌, false, List, [], ◌∷◌, Some, length, slice_index, if◌then◌else◌, is_ok, IfSome, OnOk, OnErr, IsTrue, refl};
ghost use Rattle.std.proofs.Common.{inl, inr};
ghost use Rattle.sector.specs.Bytes.{sectors_at, with_sectors, sector_at, next_count};
ghost use Rattle.device.specs.declared.operation.Operation.TheVariants.{Reads, Writes, Flushes};
ghost use Rattle.device.specs.declared.operation.Fate.TheVariants.{Pass, Drop};
ghost use Rattle.device.specs.Disk.{disk_size, disk_contents, disk_durable};
ghost use Rattle.device.specs.Layers.{Tearing, fate, is_answered, is_passed, layers_after, is_loud};
ghost use Rattle.torn_disk.specs.TornDisk.{changes_left, new_sectors, kept_aside, torn_disk_contents, torn_disk_size, torn_disk_durable, torn_disk_may_hold, torn_disk_layers};
ghost use Rattle.torn_disk.specs.Laws.{torn_disk_whole, torn_disk_small};
ghost use Rattle.torn_disk.specs.Torn.{IsTornBy};
ghost use Rattle.torn_disk.specs.Calls.{CountsFault, HoldsNoMore, KeepsAside, KeepsContents, KeepsDurable, KeepsNew, KeepsSize, LeavesFewer, StaysAsLoud};

use crate::torn_disk::TornDisk;
use device::{Block, Io};
use sector::{Range, Sector};

impl Block for TornDisk {
    ghost size = { torn_disk_size };

    ghost contents = { torn_disk_contents };

    ghost durable = { torn_disk_durable };

    ghost layers = { torn_disk_layers };

    ghost fault_count = { λ f. f.faults };

    ghost done_count = { λ f. f.done };

    ghost may_hold = { torn_disk_may_hold };

    ghost copies_runs = { false };

    fn sectors(&self) -> u64 {
        self.disk.sectors()
    }

    fn faults(&self) -> u64 {
        self.faults
    }

    fn done(&self) -> u64 {
        self.done
    }

    fn read(&mut self, range: Range, out: &mut [u8]) -> Result<(), Io>
        requires some { 0 < range.count }
        requires inside { range.first + range.count ≤ torn_disk_size self.old }
        requires room { length out.old ≡ 512 * range.count }

        ensures answer { is_ok result ≡ is_answered (fate (torn_disk_layers self.old) (Reads range.first range.count)) }
        ensures layers { torn_disk_layers self.new ≡ layers_after (torn_disk_layers self.old) (Reads range.first range.count) }
        ensures loud { StaysAsLoud self.old self.new }

        ensures data { OnOk result (out.new ≡ sectors_at (torn_disk_contents self.old) range.first range.count) }
        ensures data_err { OnErr result (out.new ≡ out.old) }

        ensures contents { KeepsContents self.old self.new }
        ensures durable { KeepsDurable self.old self.new }
        ensures size { KeepsSize self.old self.new }
        ensures faults { CountsFault result self.old self.new }
        ensures done { self.new.done ≡ next_count self.old.done }
        ensures stop { HoldsNoMore self.old self.new }

        ensures left { changes_left self.new ≡ changes_left self.old }
        ensures kept { kept_aside self.new ≡ kept_aside self.old }
        ensures sectors { KeepsNew self.old self.new }
    {
        self.done = self.done.wrapping_add(1);
        match self.left {
            Some(_) => self.disk.read(range, out),
            None => self.fail(),
        }
    }

    fn write(&mut self, range: Range, bytes: &[u8]) -> Result<(), Io>
        requires some { 0 < range.count }
        requires inside { range.first + range.count ≤ torn_disk_size self.old }
        requires room { length bytes.now ≡ 512 * range.count }

        ensures answer { is_ok result ≡ is_answered (fate (torn_disk_layers self.old) (Writes range.first range.count)) }
        ensures layers { torn_disk_layers self.new ≡ layers_after (torn_disk_layers self.old) (Writes range.first range.count) }
        ensures loud { StaysAsLoud self.old self.new }

        ensures passed { fate (torn_disk_layers self.old) (Writes range.first range.count) ≡ Pass → torn_disk_contents self.new ≡ with_sectors (torn_disk_contents self.old) range.first bytes.now }
        ensures written { OnOk result (IsTrue (is_loud (torn_disk_layers self.old)) → torn_disk_contents self.new ≡ with_sectors (torn_disk_contents self.old) range.first bytes.now) }
        ensures dropped { fate (torn_disk_layers self.old) (Writes range.first range.count) ≡ Drop → torn_disk_contents self.new ≡ torn_disk_contents self.old }
        ensures err { OnErr result (torn_disk_contents self.new ≡ torn_disk_contents self.old) }

        ensures rest { (i : ℕ) → (i < 512 * range.first) ⊎ (512 * (range.first + range.count) ≤ i) → slice_index (torn_disk_contents self.new) i ≡ slice_index (torn_disk_contents self.old) i }
        ensures durable { KeepsDurable self.old self.new }
        ensures size { KeepsSize self.old self.new }
        ensures faults { CountsFault result self.old self.new }
        ensures done { self.new.done ≡ next_count self.old.done }
        ensures stop { (s : ℕ) (v : List ℕ) → torn_disk_may_hold self.new s v → torn_disk_may_hold self.old s v ⊎ ((range.first ≤ s) × (s < range.first + range.count) × (v ≡ sector_at bytes.now (s - range.first))) }
        ensures stop_err { OnErr result ((s : ℕ) (v : List ℕ) → torn_disk_may_hold self.new s v → torn_disk_may_hold self.old s v) }

        ensures left { LeavesFewer self.old self.new }
        ensures torn { changes_left self.old ≡ Some 0 → IfSome (kept_aside self.new) (λ d. IsTornBy (new_sectors self.old) range.first range.count bytes.now (torn_disk_contents self.old) (disk_contents d) × (disk_durable d ≡ torn_disk_durable self.old) × (disk_size d ≡ torn_disk_size self.old)) }
        ensures kept { KeepsAside self.old self.new }
        ensures sectors { KeepsNew self.old self.new }
    {
        self.done = self.done.wrapping_add(1);
        match self.left {
            Some(0) => self.blow_torn(range, bytes),
            Some(k) => {
                self.left = Some(k - 1);
                self.disk.write(range, bytes)
            }
            None => self.fail(),
        }
    }

    fn flush(&mut self) -> Result<(), Io>
        ensures answer { is_ok result ≡ is_answered (fate (torn_disk_layers self.old) Flushes) }
        ensures layers { torn_disk_layers self.new ≡ layers_after (torn_disk_layers self.old) Flushes }
        ensures loud { StaysAsLoud self.old self.new }

        ensures contents { KeepsContents self.old self.new }
        ensures durable { torn_disk_durable self.new ≡ (if is_passed (fate (torn_disk_layers self.old) Flushes) then torn_disk_contents self.old else torn_disk_durable self.old) }
        ensures size { KeepsSize self.old self.new }
        ensures faults { CountsFault result self.old self.new }
        ensures done { self.new.done ≡ next_count self.old.done }
        ensures stop { HoldsNoMore self.old self.new }
        ensures flushed { OnOk result (IsTrue (is_loud (torn_disk_layers self.old)) → (s : ℕ) (v : List ℕ) → s < torn_disk_size self.new → torn_disk_may_hold self.new s v → v ≡ sector_at (torn_disk_contents self.new) s) }

        ensures left { LeavesFewer self.old self.new }
        ensures aside { changes_left self.old ≡ Some 0 → IfSome (kept_aside self.new) (λ d. (disk_contents d ≡ torn_disk_contents self.old) × (disk_durable d ≡ torn_disk_durable self.old) × (disk_size d ≡ torn_disk_size self.old)) }
        ensures kept { KeepsAside self.old self.new }
        ensures sectors { KeepsNew self.old self.new }
    {
        self.done = self.done.wrapping_add(1);
        match self.left {
            Some(0) => self.blow(),
            Some(k) => {
                self.left = Some(k - 1);
                self.disk.flush()
            }
            None => self.fail(),
        }
    }

    fn copy_sectors(
        &mut self,
        _to: Range,
        _from: &mut TornDisk,
        _first: Sector,
        _reads: u32,
        _writes: u32,
    ) -> bool {
        false
    }

    ghost whole = { torn_disk_whole };

    ghost small = { torn_disk_small };

    ghost holds_now = { λ f s lt. inl refl };

    ghost holds_durable = { λ f s lt. inr refl };

    ghost holds_two = { λ copies. cc };

    ghost has_like = { λ copies. cc };
}
