// The first copies are committed, after the next area is zeroed, and the store flushed since, where they fill the current
// one; and are published.
ghost use Rattle.std.specs.Prelude.{◌≡◌, ℕ, ◌+◌, ◌*◌, ◌<◌, ◌≤◌, ◌||◌, ◌++◌, length, take, drop, map, replicate, slice_index_or, vec_capacity, is_ok, OnOk, IsTrue, false, true};
ghost use Rattle.std.specs.List.{All, remove};
ghost use Rattle.sector.specs.Bytes.{with_part, with_sectors};
ghost use Rattle.device.specs.declared.operation.Operation.TheVariants.{Writes};
ghost use Rattle.device.specs.Layers.{is_loud};
ghost use Rattle.cow_format.specs.Places.{area_place};
ghost use Rattle.in_flight.specs.declared.copies.Mark.{Mark};
ghost use Rattle.in_flight.specs.declared.copies.Stage.TheVariants.{Flushed};
ghost use Rattle.store.specs.Operations.{IsOneOperation};
ghost use Rattle.store.specs.Slots.{pairs_bytes, slot_start};
ghost use Rattle.store.specs.Stored.{after_commit};
ghost use Rattle.volume_laws.specs.Steps.{ZeroesArea, Commits, Unmarks, mark_of};
ghost use Rattle.std.specs.Option.{is_some};
ghost use Rattle.snapshot.specs.Held.{IsSpared};
ghost use Rattle.snapshot.specs.Kept.{books_of, is_among, needs_area, spare_after, unpublished};
ghost use Rattle.snapshot.specs.Devices.{IsZeroedIfFirm, KeepsDurable, KeepsRoom, KeepsSize, KeptOnErr, MayHoldNowIfLoud, SameOnErr, StaysAsLoud, StaysInStep};

use crate::Snapshot;
use device::{Block, Io};
use in_flight::{ChunkCopy, Mark};
use plain_machine::CopyId;

impl<B: Block> Snapshot<B> {
    /// Zeroes the area after the current one, for copies whose pairs fill that. At `Io` nothing changed but the device's
    /// counts and layers.
    pub fn zero_next(&mut self) -> Result<(), Io>
        requires live { self.old.live ≡ true }
        requires some { 0 < length self.old.copies }
        requires due { needs_area self.old.state self.old.copies ≡ true }
        requires inside { self.old.state.chunk * (area_place self.old.state.chunk (self.old.state.current + 1) + 1) ≤ self.old.state.size }

        ensures operation { IsOneOperation (Writes (self.old.state.chunk * area_place self.old.state.chunk (self.old.state.current + 1)) self.old.state.chunk) (is_ok result) (B.layers self.old.device) (B.layers self.new.device) (B.fault_count self.old.device) (B.fault_count self.new.device) (B.done_count self.old.device) (B.done_count self.new.device) }
        ensures loud { StaysAsLoud B.Block self.old self.new }
        ensures written { OnOk result (IsTrue (is_loud (B.layers self.old.device)) → B.contents self.new.device ≡ with_sectors (B.contents self.old.device) (self.old.state.chunk * area_place self.old.state.chunk (self.old.state.current + 1)) (replicate (512 * self.old.state.chunk) 0)) }
        ensures same { SameOnErr B.Block result self.old self.new }
        ensures durable { KeepsDurable B.Block self.old self.new }
        ensures adds { MayHoldNowIfLoud B.Block self.old self.new }
        ensures size { KeepsSize B.Block self.old self.new }

        ensures fields { OnOk result (self.new ≡ record self.old { device = self.new.device; state = record self.old.state { zeroed = true; firm = false } }) }
        ensures ahead { IsZeroedIfFirm self.old.state }
        ensures zeroes { OnOk result (ZeroesArea (self.old.state.current + 1) (books_of B.contents B.layers self.old) (books_of B.contents B.layers self.new)) }
        ensures kept { KeptOnErr result self.old self.new }
        ensures in_step { StaysInStep B.Block self.new }
    {
        match self.store.zero_next() {
            Ok(()) => Ok(()),
            Err(io) => Err(io),
        }
    }

    /// Commits the copies that started first, so many of them, all of them written and flushed: their pairs are written into
    /// the current area. Each bears a mark from then on, until it is published, which is safe once the store is flushed
    /// again. The one that a merge started gives its buffer back, and of the others the last one's is kept for the next copy.
    /// At `Io` nothing changed but the device's counts and layers.
    pub fn write_area(&mut self, count: u32) -> Result<(), Io>
        requires live { self.old.live ≡ true }
        requires few { count ≤ length self.old.copies }
        requires ready { All (λ p. p.stage ≡ Flushed) (take count self.old.copies) }
        requires fits { 1 < count → self.old.state.filled + count ≤ 32 * self.old.state.chunk }
        requires next { self.old.state.filled + count ≡ 32 * self.old.state.chunk → self.old.state.firm ≡ true }

        ensures operation { IsOneOperation (Writes (self.old.state.chunk * area_place self.old.state.chunk self.old.state.current) self.old.state.chunk) (is_ok result) (B.layers self.old.device) (B.layers self.new.device) (B.fault_count self.old.device) (B.fault_count self.new.device) (B.done_count self.old.device) (B.done_count self.new.device) }
        ensures loud { StaysAsLoud B.Block self.old self.new }
        ensures written { OnOk result (IsTrue (is_loud (B.layers self.old.device)) → B.contents self.new.device ≡ with_part (B.contents self.old.device) (slot_start self.old.state.chunk self.old.state.current self.old.state.filled) (pairs_bytes (take count self.old.begun))) }
        ensures same { SameOnErr B.Block result self.old self.new }
        ensures durable { KeepsDurable B.Block self.old self.new }
        ensures adds { MayHoldNowIfLoud B.Block self.old self.new }
        ensures size { KeepsSize B.Block self.old self.new }

        ensures fields { OnOk result (self.new ≡ record self.old { device = self.new.device; state = after_commit self.old.state count; pairs = self.old.pairs ++ take count self.old.begun; begun = drop count self.old.begun; copies = drop count self.old.copies; marks = self.old.marks ++ map mark_of (take count self.old.copies); spare = spare_after count self.old }) }
        ensures commits { OnOk result (Commits count self.old.state.current (books_of B.contents B.layers self.old) (books_of B.contents B.layers self.new)) }
        ensures kept { KeptOnErr result self.old self.new }
        ensures in_step { StaysInStep B.Block self.new }
    {
        match self.store.write_area(count) {
            Ok(()) => {
                mark_first(
                    &mut self.copies,
                    &mut self.marks,
                    &mut self.spare,
                    &mut self.idle,
                    self.merging,
                    count,
                );
                Ok(())
            }
            Err(io) => Err(io),
        }
    }

    /// Publishes a committed copy, counted from 0 among those that bear a mark: its mark is taken away. A merge may start
    /// its next copy once the one that it started is published.
    pub fn publish(&mut self, index: usize)
        requires within { index < length self.old.marks }
        ensures fields { (m : Mark) → m ≡ slice_index_or self.old.marks index m → self.new ≡ record self.old { marks = remove self.old.marks index; merging = unpublished m.number self.old.merging } }
        ensures publishes { (m : Mark) → m ≡ slice_index_or self.old.marks index m → m.safe ≡ true → Unmarks index m (books_of B.contents B.layers self.old) (books_of B.contents B.layers self.new) }
    {
        let mark = self.marks.remove(index);
        self.merging = still_merging(self.merging, mark.number);
    }
}

/// The copy that a merge started, but for one that is published now.
fn still_merging(merging: Option<CopyId>, published: CopyId) -> Option<CopyId>
    ensures { result ≡ unpublished published merging }
{
    let Some(own) = merging else {
        return None;
    };
    if own == published { None } else { Some(own) }
}

/// Takes the first copies away, so many of them, and marks them, in their order. The buffer of the first one that a merge
/// started is the spare one then, where there is none; of the others that of the last is the idle one.
fn mark_first(
    copies: &mut Vec<ChunkCopy>,
    marks: &mut Vec<Mark>,
    spare: &mut Option<Vec<u8>>,
    idle: &mut Vec<u8>,
    merging: Option<CopyId>,
    count: u32,
)
    requires few { count ≤ length copies.old.items }
    requires room { length marks.old.items + count ≤ vec_capacity marks.old }
    ensures copies { copies.new.items ≡ drop count copies.old.items }
    ensures marks { marks.new.items ≡ marks.old.items ++ map mark_of (take count copies.old.items) }
    ensures spare { is_some spare.new ≡ (is_some spare.old || is_among merging (take count copies.old.items)) }
    ensures spared { (chunk : ℕ) → IsSpared chunk spare.old merging copies.old.items → IsSpared chunk spare.new merging copies.new.items }
    ensures copies_capacity { KeepsRoom copies.old copies.new }
    ensures marks_capacity { KeepsRoom marks.old marks.new }
{
    for _i in 0..count {
        mark_one(copies, marks, spare, idle, merging);
    }
}

/// Takes the first copy away, and marks it. Its buffer is the spare one then, where a merge started it and there is none,
/// and else the idle one.
fn mark_one(
    copies: &mut Vec<ChunkCopy>,
    marks: &mut Vec<Mark>,
    spare: &mut Option<Vec<u8>>,
    idle: &mut Vec<u8>,
    merging: Option<CopyId>,
)
    requires some { 0 < length copies.old.items }
    requires room { length marks.old.items < vec_capacity marks.old }
    ensures copies { copies.new.items ≡ drop 1 copies.old.items }
    ensures marks { marks.new.items ≡ marks.old.items ++ map mark_of (take 1 copies.old.items) }
    ensures spare { is_some spare.new ≡ (is_some spare.old || is_among merging (take 1 copies.old.items)) }
    ensures spared { (chunk : ℕ) → IsSpared chunk spare.old merging copies.old.items → IsSpared chunk spare.new merging copies.new.items }
    ensures copies_capacity { KeepsRoom copies.old copies.new }
    ensures marks_capacity { KeepsRoom marks.old marks.new }
{
    let ChunkCopy {
        number,
        pair,
        stage: _,
        buffer,
    } = copies.remove(0);
    marks.push_reserved(Mark {
        number,
        chunk: pair.old,
        safe: false,
    });
    let Some(own) = merging else {
        *idle = buffer;
        return;
    };
    if spare.is_none() && number == own {
        *spare = Some(buffer);
    } else {
        *idle = buffer;
    }
}
