// A stack of layers over a disk, as a device.
ghost use Rattle.std.specs.Prelude.{◌≡◌};

use crate::{Broken, Dust, Flakey};
use device::{Block, Fate, Io, MemDisk, Operation};
use sector::{Range, Refusal, Sector};
use std::alloc::Global;

/// A disk under layers, or an error layer, perhaps under others. The top layer comes first.
///
/// An operation goes down the stack: each layer passes it, fails it or, where a flakey layer drops writes, answers it
/// without passing it. Each layer counts its own operations and faults; those of the top are the device's.
#[derive(Drop)]
pub enum Stack {
    Disk(MemDisk),
    Flakey(Flakey, Box<Stack>),
    Dust(Dust, Box<Stack>),
    Error(Broken),
}

impl Block for Stack {
    ghost use Rattle.layers.specs.Stack.{stack_size, stack_contents, stack_durable, stack_layers, stack_faults, stack_done, stack_may_hold};
    ghost use Rattle.layers.specs.Whole.{stack_whole, stack_bounded, stack_holds_now, stack_holds_durable, stack_holds_two, stack_has_like};
    ghost use Rattle.std.specs.Prelude.{◌≡◌, ◌+◌, ◌*◌, ◌<◌, ◌≤◌, true, length, OnOk, OnErr, IsTrue};
    ghost use Rattle.sector.specs.Bytes.{sectors_at, with_sectors};
    ghost use Rattle.device.specs.Layers.{is_loud};
    ghost use Rattle.layers.specs.Calls.{AddsOnly, AnswersFlush, AnswersRead, AnswersWrite, ChangesOnly, CountsFault, CountsFlush, CountsOne, CountsRead, CountsWrite, Drops, FirmOnOk, FlushesLayers, GivesSectors, HoldsNoMore, IsFlushed, KeepsContents, KeepsDurable, NoMoreOnErr, Passes, ReadsLayers, SameOnErr, StaysAsLoud, WritesLayers};

    ghost size = { stack_size };

    ghost contents = { stack_contents };

    ghost durable = { stack_durable };

    ghost layers = { stack_layers };

    ghost fault_count = { stack_faults };

    ghost done_count = { stack_done };

    ghost may_hold = { stack_may_hold };

    ghost copies_runs = { true };

    #[inline(always)]
    fn sectors(&self) -> u64 {
        if let Stack::Disk(disk) = self {
            disk.sectors()
        } else {
            self.sectors_under_layers()
        }
    }

    fn faults(&self) -> u64 {
        match self {
            Stack::Disk(disk) => disk.faults(),
            Stack::Flakey(flakey, _) => flakey.faults,
            Stack::Dust(dust, _) => dust.faults,
            Stack::Error(error) => error.faults,
        }
    }

    fn done(&self) -> u64 {
        match self {
            Stack::Disk(disk) => disk.done(),
            Stack::Flakey(flakey, _) => flakey.done,
            Stack::Dust(dust, _) => dust.done,
            Stack::Error(error) => error.done,
        }
    }

    #[inline(always)]
    fn read(&mut self, range: Range, out: &mut [u8]) -> Result<(), Io>
        requires some { 0 < range.count }
        requires inside { range.first + range.count ≤ stack_size self.old }
        requires room { length out.old ≡ 512 * range.count }
        ensures answer { AnswersRead range result self.old }
        ensures layers { ReadsLayers range self.old self.new }
        ensures loud { StaysAsLoud self.old self.new }
        ensures data { GivesSectors range result out.new self.old }
        ensures data_err { OnErr result (out.new ≡ out.old) }
        ensures contents { KeepsContents self.old self.new }
        ensures durable { KeepsDurable self.old self.new }
        ensures size { stack_size self.new ≡ stack_size self.old }
        ensures faults { CountsFault result self.old self.new }
        ensures done { CountsOne self.old self.new }
        ensures stop { HoldsNoMore self.old self.new }
        ensures counts { CountsRead range self.old self.new }
    {
        if let Stack::Disk(disk) = self {
            disk.read(range, out)
        } else {
            self.read_under_layers(range, out)
        }
    }

    #[inline(always)]
    fn write(&mut self, range: Range, bytes: &[u8]) -> Result<(), Io>
        requires some { 0 < range.count }
        requires inside { range.first + range.count ≤ stack_size self.old }
        requires room { length bytes.now ≡ 512 * range.count }
        ensures answer { AnswersWrite range result self.old }
        ensures layers { WritesLayers range self.old self.new }
        ensures loud { StaysAsLoud self.old self.new }
        ensures passed { Passes range bytes.now self.old self.new }
        ensures written { OnOk result (IsTrue (is_loud (stack_layers self.old)) → stack_contents self.new ≡ with_sectors (stack_contents self.old) range.first bytes.now) }
        ensures dropped { Drops range self.old self.new }
        ensures err { SameOnErr result self.old self.new }
        ensures rest { ChangesOnly range self.old self.new }
        ensures durable { KeepsDurable self.old self.new }
        ensures size { stack_size self.new ≡ stack_size self.old }
        ensures faults { CountsFault result self.old self.new }
        ensures done { CountsOne self.old self.new }
        ensures stop { AddsOnly range bytes.now self.old self.new }
        ensures stop_err { NoMoreOnErr result self.old self.new }
        ensures counts { CountsWrite range self.old self.new }
    {
        if let Stack::Disk(disk) = self {
            disk.write(range, bytes)
        } else {
            self.write_under_layers(range, bytes)
        }
    }

    #[inline(always)]
    fn flush(&mut self) -> Result<(), Io>
        ensures answer { AnswersFlush result self.old }
        ensures layers { FlushesLayers self.old self.new }
        ensures loud { StaysAsLoud self.old self.new }
        ensures contents { KeepsContents self.old self.new }
        ensures durable { IsFlushed self.old self.new }
        ensures size { stack_size self.new ≡ stack_size self.old }
        ensures faults { CountsFault result self.old self.new }
        ensures done { CountsOne self.old self.new }
        ensures stop { HoldsNoMore self.old self.new }
        ensures flushed { FirmOnOk result self.old self.new }
        ensures counts { CountsFlush self.old self.new }
    {
        if let Stack::Disk(disk) = self {
            disk.flush()
        } else {
            self.flush_under_layers()
        }
    }

    fn copy_sectors(
        &mut self,
        to: Range,
        from: &mut Stack,
        first: Sector,
        reads: u32,
        writes: u32,
    ) -> bool {
        match self {
            Stack::Disk(disk) => match from {
                Stack::Disk(other) => disk.copy_sectors(to, other, first, reads, writes),
                Stack::Flakey(_, _) | Stack::Dust(_, _) | Stack::Error(_) => false,
            },
            Stack::Flakey(_, _) | Stack::Dust(_, _) | Stack::Error(_) => false,
        }
    }

    ghost whole = { stack_whole };

    ghost small = { stack_bounded };

    ghost holds_now = { stack_holds_now };

    ghost holds_durable = { stack_holds_durable };

    ghost holds_two = { λ copies. stack_holds_two };

    ghost has_like = { λ copies. stack_has_like };
}

impl Stack {
    ghost use Rattle.std.specs.Prelude.{◌≡◌, ◌<◌, ◌≤◌, ◌+◌, ◌*◌, [], ◌∷◌, Some, length, None, IfOk, IfSome, IfNone, IsTrue, OnOk, OnErr};
    ghost use Rattle.std.specs.Option.{option_copied};
    ghost use Rattle.sector.specs.Bytes.{sectors_at, with_sectors};
    ghost use Rattle.device.specs.Layers.{Window, is_loud};
    ghost use Rattle.layers.specs.Disk.{disk_of, HasSectors, IsLoaded, IsLost};
    ghost use Rattle.layers.specs.Layer.{flakey_layer, dust_layer};
    ghost use Rattle.layers.specs.Stack.{below_of, stack_size, stack_contents, stack_durable, stack_layers, stack_faults, stack_done, stack_may_hold};
    ghost use Rattle.layers.specs.Beneath.{IsOver};
    ghost use Rattle.layers.specs.Windows.{beside, layers_below};
    ghost use Rattle.layers.specs.Calls.{AddsOnly, AnswersFlush, AnswersRead, AnswersWrite, ChangesOnly, ChangesOnlyDisk, CountsFault, CountsFlush, CountsOne, CountsRead, CountsWrite, Drops, FirmOnOk, FlushesLayers, GivesBack, GivesSectors, HoldsNoMore, IsFlushed, KeepsContents, KeepsCounts, KeepsDurable, KeepsLayers, NoMoreOnErr, Passes, ReadsLayers, SameOnErr, StaysAsLoud, WritesLayers};

    // The same of a stack in which layers may stand above the disk.
    fn read_under_layers(&mut self, range: Range, out: &mut [u8]) -> Result<(), Io>
        requires some { 0 < range.count }
        requires inside { range.first + range.count ≤ stack_size self.old }
        requires room { length out.old ≡ 512 * range.count }
        ensures answer { AnswersRead range result self.old }
        ensures layers { ReadsLayers range self.old self.new }
        ensures loud { StaysAsLoud self.old self.new }
        ensures data { GivesSectors range result out.new self.old }
        ensures data_err { OnErr result (out.new ≡ out.old) }
        ensures contents { KeepsContents self.old self.new }
        ensures durable { KeepsDurable self.old self.new }
        ensures size { stack_size self.new ≡ stack_size self.old }
        ensures faults { CountsFault result self.old self.new }
        ensures done { CountsOne self.old self.new }
        ensures stop { HoldsNoMore self.old self.new }
        ensures counts { CountsRead range self.old self.new }
    {
        match self {
            Stack::Disk(disk) => disk.read(range, out),
            Stack::Flakey(flakey, below) => {
                flakey.done = flakey.done.wrapping_add(1);
                if flakey.passes_read(range) {
                    if let Ok(()) = below.read_under_layers(range.shifted(flakey.offset), out) {
                        return Ok(());
                    }
                }
                flakey.faults = flakey.faults.wrapping_add(1);
                Err(Io)
            }
            Stack::Dust(dust, below) => {
                dust.done = dust.done.wrapping_add(1);
                if dust.passes_read(range) {
                    if let Ok(()) = below.read_under_layers(range, out) {
                        return Ok(());
                    }
                }
                dust.faults = dust.faults.wrapping_add(1);
                Err(Io)
            }
            Stack::Error(error) => {
                error.done = error.done.wrapping_add(1);
                error.faults = error.faults.wrapping_add(1);
                Err(Io)
            }
        }
    }

    // The same of a stack in which layers may stand above the disk.
    fn write_under_layers(&mut self, range: Range, bytes: &[u8]) -> Result<(), Io>
        requires some { 0 < range.count }
        requires inside { range.first + range.count ≤ stack_size self.old }
        requires room { length bytes.now ≡ 512 * range.count }
        ensures answer { AnswersWrite range result self.old }
        ensures layers { WritesLayers range self.old self.new }
        ensures loud { StaysAsLoud self.old self.new }
        ensures passed { Passes range bytes.now self.old self.new }
        ensures written { OnOk result (IsTrue (is_loud (stack_layers self.old)) → stack_contents self.new ≡ with_sectors (stack_contents self.old) range.first bytes.now) }
        ensures dropped { Drops range self.old self.new }
        ensures err { SameOnErr result self.old self.new }
        ensures rest { ChangesOnly range self.old self.new }
        ensures durable { KeepsDurable self.old self.new }
        ensures size { stack_size self.new ≡ stack_size self.old }
        ensures faults { CountsFault result self.old self.new }
        ensures done { CountsOne self.old self.new }
        ensures stop { AddsOnly range bytes.now self.old self.new }
        ensures stop_err { NoMoreOnErr result self.old self.new }
        ensures counts { CountsWrite range self.old self.new }
    {
        match self {
            Stack::Disk(disk) => disk.write(range, bytes),
            Stack::Flakey(flakey, below) => {
                flakey.done = flakey.done.wrapping_add(1);
                match flakey.fate(Operation::Writes(range.first, range.count)) {
                    Fate::Drop => return Ok(()),
                    Fate::Fail => {}
                    Fate::Pass => {
                        if let Ok(()) = below.write_under_layers(
                            range.shifted(flakey.offset),
                            bytes,
                        ) {
                            return Ok(());
                        }
                    }
                }
                flakey.faults = flakey.faults.wrapping_add(1);
                Err(Io)
            }
            Stack::Dust(dust, below) => {
                dust.done = dust.done.wrapping_add(1);
                if let Ok(()) = below.write_under_layers(range, bytes) {
                    dust.written(range);
                    return Ok(());
                }
                dust.faults = dust.faults.wrapping_add(1);
                Err(Io)
            }
            Stack::Error(error) => {
                error.done = error.done.wrapping_add(1);
                error.faults = error.faults.wrapping_add(1);
                Err(Io)
            }
        }
    }

    // The same of a stack in which layers may stand above the disk.
    fn flush_under_layers(&mut self) -> Result<(), Io>
        ensures answer { AnswersFlush result self.old }
        ensures layers { FlushesLayers self.old self.new }
        ensures loud { StaysAsLoud self.old self.new }
        ensures contents { KeepsContents self.old self.new }
        ensures durable { IsFlushed self.old self.new }
        ensures size { stack_size self.new ≡ stack_size self.old }
        ensures faults { CountsFault result self.old self.new }
        ensures done { CountsOne self.old self.new }
        ensures stop { HoldsNoMore self.old self.new }
        ensures flushed { FirmOnOk result self.old self.new }
        ensures counts { CountsFlush self.old self.new }
    {
        match self {
            Stack::Disk(disk) => match disk.flush() {
                Ok(()) => Ok(()),
                Err(error) => Err(error),
            },
            Stack::Flakey(flakey, below) => {
                flakey.done = flakey.done.wrapping_add(1);
                match flakey.fate(Operation::Flushes) {
                    Fate::Drop => return Ok(()),
                    Fate::Fail => {}
                    Fate::Pass => {
                        if let Ok(()) = below.flush_under_layers() {
                            return Ok(());
                        }
                    }
                }
                flakey.faults = flakey.faults.wrapping_add(1);
                Err(Io)
            }
            Stack::Dust(dust, below) => {
                dust.done = dust.done.wrapping_add(1);
                if let Ok(()) = below.flush_under_layers() {
                    return Ok(());
                }
                dust.faults = dust.faults.wrapping_add(1);
                Err(Io)
            }
            Stack::Error(error) => {
                error.done = error.done.wrapping_add(1);
                error.faults = error.faults.wrapping_add(1);
                Err(Io)
            }
        }
    }

    // How many sectors it has, where layers may stand above the disk.
    fn sectors_under_layers(&self) -> u64
        ensures { result ≡ stack_size self.now }
    {
        match self {
            Stack::Disk(disk) => disk.sectors(),
            Stack::Flakey(flakey, below) => flakey
                .sectors
                .min(below.sectors_under_layers().saturating_sub(flakey.offset)),
            Stack::Dust(dust, below) => dust.sectors.min(below.sectors_under_layers()),
            Stack::Error(error) => error.sectors,
        }
    }

    /// The stack under a flakey layer, whose sectors lie inside it. `NoMemory` where the allocator refuses room; the stack
    /// is then given back.
    pub fn under_flakey(self, alloc: Global, flakey: Flakey) -> Result<Stack, (Refusal, Stack)>
        requires inside { flakey.offset + flakey.sectors ≤ stack_size self }
        ensures below { IfOk result (λ s. below_of s ≡ Some self) }
        ensures layers { IfOk result (λ s. stack_layers s ≡ flakey_layer flakey ∷ Window (beside (stack_contents self) flakey.offset flakey.sectors) ∷ stack_layers self) }
        ensures over { IfOk result (λ s. IsOver self s) }
        ensures size { IfOk result (λ s. stack_size s ≡ flakey.sectors) }
        ensures contents { IfOk result (λ s. stack_contents s ≡ sectors_at (stack_contents self) flakey.offset flakey.sectors) }
        ensures durable { IfOk result (λ s. stack_durable s ≡ sectors_at (stack_durable self) flakey.offset flakey.sectors) }
        ensures counts { IfOk result (λ s. (stack_faults s ≡ flakey.faults) × (stack_done s ≡ flakey.done)) }
        ensures disk { IfOk result (λ s. disk_of s ≡ disk_of self) }
        ensures err { GivesBack self result }
    {
        match Box::new(alloc, self) {
            Ok(below) => Ok(Stack::Flakey(flakey, below)),
            Err(failed) => Err((Refusal::NoMemory, failed.value)),
        }
    }

    /// The stack under a dust layer, which has no more sectors. `NoMemory` where the allocator refuses room; the stack is
    /// then given back.
    pub fn under_dust(self, alloc: Global, dust: Dust) -> Result<Stack, (Refusal, Stack)>
        requires inside { dust.sectors ≤ stack_size self }
        ensures below { IfOk result (λ s. below_of s ≡ Some self) }
        ensures layers { IfOk result (λ s. stack_layers s ≡ dust_layer dust ∷ Window (beside (stack_contents self) 0 dust.sectors) ∷ stack_layers self) }
        ensures over { IfOk result (λ s. IsOver self s) }
        ensures size { IfOk result (λ s. stack_size s ≡ dust.sectors) }
        ensures contents { IfOk result (λ s. stack_contents s ≡ sectors_at (stack_contents self) 0 dust.sectors) }
        ensures durable { IfOk result (λ s. stack_durable s ≡ sectors_at (stack_durable self) 0 dust.sectors) }
        ensures counts { IfOk result (λ s. (stack_faults s ≡ dust.faults) × (stack_done s ≡ dust.done)) }
        ensures disk { IfOk result (λ s. disk_of s ≡ disk_of self) }
        ensures err { GivesBack self result }
    {
        match Box::new(alloc, self) {
            Ok(below) => Ok(Stack::Dust(dust, below)),
            Err(failed) => Err((Refusal::NoMemory, failed.value)),
        }
    }

    /// What is below the top layer, which is dropped. `None` for a disk and an error layer, which nothing is below.
    #[tactic(auto, using(crate::specs::Beneath::stack_over_none))]
    pub fn into_below(self) -> Option<Stack>
        ensures below { result ≡ below_of self }
        ensures over { IfSome result (λ s. IsOver s self) }
        ensures none { IfNone result (layers_below (stack_layers self) ≡ None) }
    {
        match self {
            Stack::Disk(_) | Stack::Error(_) => None,
            Stack::Flakey(_, below) => Some(Box::into_inner(below)),
            Stack::Dust(_, below) => Some(Box::into_inner(below)),
        }
    }

    /// The disk at the bottom, whose sectors are its own, past all layers. `None` over an error layer.
    pub fn disk(&self) -> Option<&MemDisk>
        ensures { option_copied result ≡ disk_of self.now }
    {
        match self {
            Stack::Disk(disk) => Some(disk),
            Stack::Flakey(_, below) | Stack::Dust(_, below) => below.disk(),
            Stack::Error(_) => None,
        }
    }

    /// Puts bytes in the place of sectors of the disk at the bottom, past all layers; they count as flushed. The sectors
    /// are the disk's own, whatever the layers' offsets. It counts no operation.
    pub fn load(&mut self, range: Range, bytes: &[u8])
        requires inside { HasSectors (disk_of self.old) range.first range.count }
        requires room { length bytes.now ≡ 512 * range.count }
        ensures disk { IsLoaded range.first bytes.now (disk_of self.old) (disk_of self.new) }
        ensures bare { stack_layers self.old ≡ [] → (stack_layers self.new ≡ []) × (stack_contents self.new ≡ with_sectors (stack_contents self.old) range.first bytes.now) × (stack_durable self.new ≡ with_sectors (stack_durable self.old) range.first bytes.now) }
        ensures same { ChangesOnlyDisk self.old self.new }
        ensures layers { KeepsLayers self.old self.new }
        ensures size { stack_size self.new ≡ stack_size self.old }
        ensures counts { KeepsCounts self.old self.new }
    {
        match self {
            Stack::Disk(disk) => disk.load(range, bytes),
            Stack::Flakey(_, below) => below.load(range, bytes),
            Stack::Dust(_, below) => below.load(range, bytes),
            Stack::Error(_) => {}
        }
    }

    /// Loses what was not flushed: each sector of the disk at the bottom goes back to its value at the last flush that
    /// reached it. The layers stay. It counts no operation.
    pub fn lose(&mut self)
        ensures disk { IsLost (disk_of self.old) (disk_of self.new) }
        ensures same { ChangesOnlyDisk self.old self.new }
        ensures contents { stack_contents self.new ≡ stack_durable self.old }
        ensures durable { KeepsDurable self.old self.new }
        ensures layers { KeepsLayers self.old self.new }
        ensures size { stack_size self.new ≡ stack_size self.old }
        ensures counts { KeepsCounts self.old self.new }
    {
        match self {
            Stack::Disk(disk) => disk.lose(),
            Stack::Flakey(_, below) => below.lose(),
            Stack::Dust(_, below) => below.lose(),
            Stack::Error(_) => {}
        }
    }
}
