// What files are to the code above them.
ghost use Rattle.std.specs.Prelude.{◌≡◌, ◌≢◌, ◌⊎◌, ℕ, ◌+◌, ◌*◌, ◌-◌, ◌%◌, ◌<◌, ◌≤◌, List, length, take, drop, IfOk, OnOk};
ghost use Rattle.sector.specs.Bytes.{sector_at, with_sectors};
ghost use Rattle.image.specs.Stops.{AreLeft, Elapses, HasCause, HoldAsMany, HoldSame, LastsStill, LeavesNoMore};

use std::io;

/// Files with volatile caches, each under a number. Any call may fail.
pub trait FileSet {
    /// Whether it is known what they hold: of real files it is not, and then the clauses on bytes say nothing.
    ghost is_known: { Self → Type 0 };

    /// The bytes of a file, as reads give them.
    ghost bytes: { Self → ℕ → List ℕ };

    /// What a stop at this moment may leave in a sector of a file, each sector by itself.
    ghost may_hold: { Self → ℕ → ℕ → List ℕ → Type 0 };

    /// A number that does not fall.
    ghost moment: { Self → ℕ };

    /// What a stop at that moment or since might have left of all files.
    ghost left_since: { Self → ℕ → (ℕ → List ℕ) → Type 0 };

    /// Whether a sync that succeeds makes last what reads give of a sector of a file. So it does once the sector is written,
    /// until a sync of the file fails: then what was written may be lost, and count as synced (fsync(2) tells an error
    /// once), until the sector is written again.
    ghost will_last: { Self → ℕ → ℕ → Type 0 };

    /// How often a read, a write or a sync has failed.
    ghost fault_count: { Self → ℕ };

    /// Whether memory was refused to it. To one that takes none it never is, as to real files.
    ghost lacks_memory: { Self → Type 0 };

    /// How many bytes a file has.
    fn len(&mut self, file: usize) -> io::Result<u64>
        ensures value { IfOk result (λ n. is_known self.old → n ≡ length (bytes self.old file)) }
        ensures known { is_known self.old → is_known self.new }
        ensures bytes { HoldSame bytes self.old self.new }
        ensures stop { LeavesNoMore may_hold self.old self.new }
        ensures lasts { LastsStill will_last self.old self.new }
        ensures time { Elapses (moment self.old) (moment self.new) (left_since self.old) (left_since self.new) (bytes self.new) (may_hold self.new) }
        ensures cause { HasCause (is_known self.old × (lacks_memory self.new → ⊥)) (fault_count self.old) (fault_count self.new) result };

    /// Reads as many bytes as the buffer has.
    fn read_at(&mut self, file: usize, at: u64, out: &mut [u8]) -> io::Result<()>
        ensures data { OnOk result (is_known self.old → out.new ≡ take (length out.old) (drop at (bytes self.old file))) }
        ensures known { is_known self.old → is_known self.new }
        ensures bytes { HoldSame bytes self.old self.new }
        ensures stop { LeavesNoMore may_hold self.old self.new }
        ensures lasts { LastsStill will_last self.old self.new }
        ensures time { Elapses (moment self.old) (moment self.new) (left_since self.old) (left_since self.new) (bytes self.new) (may_hold self.new) }
        ensures cause { HasCause (is_known self.old × (at + length out.old ≤ length (bytes self.old file)) × (lacks_memory self.new → ⊥)) (fault_count self.old) (fault_count self.new) result };

    /// Writes whole sectors, from this one on. What is written may be lost until the next sync. Where it fails, and where
    /// it is stopped, each of these sectors is old or new, each by itself.
    fn write_at(&mut self, file: usize, sector: u64, part: &[u8]) -> io::Result<()>
        requires whole { length part.now % 512 ≡ 0 }
        ensures written { OnOk result (is_known self.old → 512 * sector + length part.now ≤ length (bytes self.old file) → bytes self.new file ≡ with_sectors (bytes self.old file) sector part.now) }
        ensures beside { (f : ℕ) → f ≢ file → bytes self.new f ≡ bytes self.old f }
        ensures len { HoldAsMany bytes self.old self.new }
        ensures known { is_known self.old → is_known self.new }
        ensures stop { (f s : ℕ) (v : List ℕ) → may_hold self.new f s v → may_hold self.old f s v ⊎ ((f ≡ file) × (sector ≤ s) × (512 * (s - sector) < length part.now) × (v ≡ sector_at part.now (s - sector))) }
        ensures lasts { LastsStill will_last self.old self.new }
        ensures fresh { OnOk result ((s : ℕ) → sector ≤ s → 512 * (s - sector) < length part.now → will_last self.new file s) }
        ensures time { Elapses (moment self.old) (moment self.new) (left_since self.old) (left_since self.new) (bytes self.new) (may_hold self.new) }
        ensures cause { HasCause (is_known self.old × (512 * sector + length part.now ≤ length (bytes self.old file)) × (lacks_memory self.new → ⊥)) (fault_count self.old) (fault_count self.new) result };

    /// Makes all that was written to a file last through a stop, but for what was lost where an earlier sync failed. Where
    /// this one fails, what was written may be lost for good, and what reads give is not known.
    fn sync(&mut self, file: usize) -> io::Result<()>
        ensures synced { OnOk result (is_known self.old → (s : ℕ) (v : List ℕ) → 512 * s < length (bytes self.old file) → will_last self.old file s → may_hold self.new file s v → v ≡ sector_at (bytes self.old file) s) }
        ensures bytes { OnOk result (HoldSame bytes self.old self.new) }
        ensures len { HoldAsMany bytes self.old self.new }
        ensures known { is_known self.old → is_known self.new }
        ensures stop { LeavesNoMore may_hold self.old self.new }
        ensures lasts { OnOk result (LastsStill will_last self.old self.new) }
        ensures others { (f s : ℕ) → f ≢ file → will_last self.old f s → will_last self.new f s }
        ensures time { Elapses (moment self.old) (moment self.new) (left_since self.old) (left_since self.new) (bytes self.new) (may_hold self.new) }
        ensures cause { HasCause (is_known self.old × (lacks_memory self.new → ⊥)) (fault_count self.old) (fault_count self.new) result };

    /// A stop may leave what is there.
    ghost holds_now: { (d : Self) → is_known d → (f s : ℕ) → 512 * s < length (bytes d f) → may_hold d f s (sector_at (bytes d f) s) };

    /// What it may leave now counts as left since now.
    ghost counts_now: { (d : Self) (t : ℕ) (left : ℕ → List ℕ) → t ≤ moment d → AreLeft (bytes d) (may_hold d) left → left_since d t left };

    /// Since now there is no other moment.
    ghost only_now: { (d : Self) (left : ℕ → List ℕ) → left_since d (moment d) left → AreLeft (bytes d) (may_hold d) left };
}
