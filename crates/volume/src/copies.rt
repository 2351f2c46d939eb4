// The events of copies, stores and marks, each a call of its own.
ghost use Rattle.std.specs.Prelude.{◌≡◌, [], ◌∷◌, ◌<◌, false, IfNone, IfOk, IfSome, OnErr, is_ok, length, map, slice_index_or, Some, true, None};
ghost use Rattle.std.specs.List.{list_any, position};
ghost use Rattle.in_flight.specs.declared.copies.Stage.TheVariants.{Read};
ghost use Rattle.plain_machine.specs.declared.event.Event.TheVariants.{CopyRead, CopyWrite, FlushStore, Publish, WriteArea, WriteInvalid, ZeroNext};
ghost use Rattle.in_flight.specs.Routes.{refused_of};
ghost use Rattle.volume_laws.specs.Due.{is_due};
ghost use Rattle.volume_laws.specs.Steps.{SpoilsSnap};
ghost use Rattle.snapshot.specs.Kept.{books_of, Kept};
ghost use Rattle.snapshot_list.specs.Finding.{has_copy_at, is_copy_of};
ghost use Rattle.volume.specs.Volumed.{dues_of, is_loud_in_all};
ghost use Rattle.volume.specs.Stepping.{IsStepped};
ghost use Rattle.volume.specs.Exact.{IsExact};
ghost use Rattle.volume.specs.Calls.{OriginLasts, SnapsLast};

use crate::Volume;
use device::{Block, Io};
use in_flight::{Flight, Mark, Stage, refuse};
use plain_machine::{CopyId, NotDue, Outcome, SnapId};
use sector::Chunk;
use snapshot::Snapshot;
use snapshot_list::{
    committing_near, find_copy_from, find_copy_near, find_mark_near, flushing_near, route_again,
    route_placed, save_next_pair, trying_at, zeroing_at,
};

/// Spoils a snapshot whose device failed, and refuses its requests.
#[inline(never)]
fn spoil<B: Block>(snap: &mut Snapshot<B>, flights: &mut Vec<Flight>)
    requires { snap.old.live ≡ true }
    ensures fields { snap.new ≡ record snap.old { live = false; untried = true; state = record snap.old.state { copying = false }; begun = []; copies = []; marks = []; kept_back = 0; spare = false; merging = None } }
    ensures spoils { SpoilsSnap (books_of B.contents B.layers snap.old) (books_of B.contents B.layers snap.new) }
    ensures flights { flights.new.items ≡ map (refused_of (snap.old.number ∷ [])) flights.old.items }
{
    snap.spoil();
    refuse(flights, snap.number());
}

/// The chunk of the mark at this place.
fn chunk_at(marks: &[Mark], index: usize) -> Chunk
    requires { index < length marks.now }
    ensures { (m : Mark) → result ≡ (slice_index_or marks.now index m).chunk }
{
    marks[index].chunk
}

impl<B: Block> Volume<B> {
    /// The place of a snapshot that has a copy with this number whose chunk was read, and the copy's place in it.
    #[inline(always)]
    pub fn find_read(&self, number: CopyId) -> Option<(usize, usize)>
        ensures found { IfSome result (λ p. (p.0 < length self.now.snaps) × ((s : Kept B) → position (is_copy_of Read number) (slice_index_or self.now.snaps p.0 s).copies ≡ Some p.1)) }
        ensures none { IfNone result (list_any (has_copy_at Read number) self.now.snaps ≡ false) }
    {
        find_copy_near(&self.snaps, self.last, Stage::Read, number)
    }

    /// Reads a copy's chunk from the origin disk. Where that fails, the copy's snapshot is spoiled.
    #[inline(always)]
    pub(crate) fn copy_read(&mut self, number: CopyId) -> Result<Outcome, NotDue>
        ensures step { IfOk result (λ outcome. IsStepped B.contents B.layers B.size B.fault_count B.done_count (CopyRead number) outcome self.old self.new) }
        ensures exact { IfOk result (λ outcome. IsExact B.contents B.layers (CopyRead number) outcome self.old self.new) }
        ensures stops_snaps { SnapsLast B.Block result self.old self.new }
        ensures stops_origin { OriginLasts B.Block result self.old self.new }
        ensures due { is_ok result ≡ is_due (dues_of B.contents B.layers self.old) self.old.flights (CopyRead number) }
        ensures same { OnErr result (self.new ≡ self.old) }
    {
        match find_copy_from(&self.snaps, self.last, Stage::Waiting, number) {
            Some((place, index)) => {
                self.last = place;
                let snap = &mut self.snaps[place];
                match snap.read_copy(&mut self.origin, index) {
                    Ok(()) => Ok(Outcome::Done),
                    Err(Io) => {
                        spoil(snap, &mut self.flights);
                        Ok(Outcome::Fault)
                    }
                }
            }
            None => Err(NotDue),
        }
    }

    /// Writes a copy that was read to its place. Where that fails, its snapshot is spoiled.
    #[inline(always)]
    pub(crate) fn copy_write(&mut self, number: CopyId) -> Result<Outcome, NotDue>
        ensures step { IfOk result (λ outcome. IsStepped B.contents B.layers B.size B.fault_count B.done_count (CopyWrite number) outcome self.old self.new) }
        ensures exact { IfOk result (λ outcome. IsExact B.contents B.layers (CopyWrite number) outcome self.old self.new) }
        ensures stops_snaps { SnapsLast B.Block result self.old self.new }
        ensures stops_origin { OriginLasts B.Block result self.old self.new }
        ensures due { is_ok result ≡ is_due (dues_of B.contents B.layers self.old) self.old.flights (CopyWrite number) }
        ensures same { OnErr result (self.new ≡ self.old) }
    {
        match find_copy_near(&self.snaps, self.last, Stage::Read, number) {
            Some((place, index)) => {
                let snap = &mut self.snaps[place];
                match snap.write_copy(index) {
                    Ok(()) => Ok(Outcome::Done),
                    Err(Io) => {
                        spoil(snap, &mut self.flights);
                        Ok(Outcome::Fault)
                    }
                }
            }
            None => Err(NotDue),
        }
    }

    /// Zeroes the area after the current one of a snapshot's store. Where that fails, or the store has no room for it, the
    /// snapshot is spoiled; want of room is no fault.
    pub(crate) fn zero_next(&mut self, number: SnapId) -> Result<Outcome, NotDue>
        ensures step { IfOk result (λ outcome. IsStepped B.contents B.layers B.size B.fault_count B.done_count (ZeroNext number) outcome self.old self.new) }
        ensures exact { IfOk result (λ outcome. IsExact B.contents B.layers (ZeroNext number) outcome self.old self.new) }
        ensures stops_snaps { SnapsLast B.Block result self.old self.new }
        ensures stops_origin { OriginLasts B.Block result self.old self.new }
        ensures due { is_ok result ≡ is_due (dues_of B.contents B.layers self.old) self.old.flights (ZeroNext number) }
        ensures same { OnErr result (self.new ≡ self.old) }
    {
        match zeroing_at(&self.snaps, number) {
            Some(place) => {
                let snap = &mut self.snaps[place];
                if snap.lacks_next_area() {
                    spoil(snap, &mut self.flights);
                    return Ok(Outcome::Done);
                }
                match snap.zero_next() {
                    Ok(()) => Ok(Outcome::Done),
                    Err(Io) => {
                        spoil(snap, &mut self.flights);
                        Ok(Outcome::Fault)
                    }
                }
            }
            None => Err(NotDue),
        }
    }

    /// Commits the first copies of a snapshot, those that are written and flushed, up to the first that is not and up to the end of
    /// the area. Where that fails, the snapshot is spoiled.
    #[inline(always)]
    pub(crate) fn write_area(&mut self, number: SnapId) -> Result<Outcome, NotDue>
        ensures step { IfOk result (λ outcome. IsStepped B.contents B.layers B.size B.fault_count B.done_count (WriteArea number) outcome self.old self.new) }
        ensures exact { IfOk result (λ outcome. IsExact B.contents B.layers (WriteArea number) outcome self.old self.new) }
        ensures stops_snaps { SnapsLast B.Block result self.old self.new }
        ensures stops_origin { OriginLasts B.Block result self.old self.new }
        ensures due { is_ok result ≡ is_due (dues_of B.contents B.layers self.old) self.old.flights (WriteArea number) }
        ensures same { OnErr result (self.new ≡ self.old) }
    {
        match committing_near(&self.snaps, self.last, number) {
            Some(place) => {
                let snap = &mut self.snaps[place];
                let count = snap.batch();
                match snap.write_area(count) {
                    Ok(()) => Ok(Outcome::Done),
                    Err(Io) => {
                        spoil(snap, &mut self.flights);
                        Ok(Outcome::Fault)
                    }
                }
            }
            None => Err(NotDue),
        }
    }

    /// Publishes a committed copy: its mark is taken away, its snapshot's held writes of the chunk go to its place, and
    /// held origin writes are routed again. Where a merge has a group, the copy that it waits for next is started: a
    /// snapshot copies the chunks that a merged chunk touches one after the other. One whose store is full is spoiled, and
    /// its requests are refused.
    #[inline(always)]
    pub(crate) fn publish(&mut self, number: CopyId) -> Result<Outcome, NotDue>
        ensures step { IfOk result (λ outcome. IsStepped B.contents B.layers B.size B.fault_count B.done_count (Publish number) outcome self.old self.new) }
        ensures exact { IfOk result (λ outcome. IsExact B.contents B.layers (Publish number) outcome self.old self.new) }
        ensures stops_snaps { SnapsLast B.Block result self.old self.new }
        ensures stops_origin { OriginLasts B.Block result self.old self.new }
        ensures due { is_ok result ≡ is_due (dues_of B.contents B.layers self.old) self.old.flights (Publish number) }
        ensures same { OnErr result (self.new ≡ self.old) }
    {
        match find_mark_near(&self.snaps, self.last, &self.flights, number) {
            Some((place, index)) => {
                let snap = &mut self.snaps[place];
                let chunk = chunk_at(snap.marks(), index);
                snap.publish(index);
                route_placed(snap, &mut self.flights);
                route_again(&self.snaps, &self.merge, &mut self.flights);
                self.copies = save_next_pair(
                    &self.merge,
                    &mut self.snaps,
                    &mut self.flights,
                    self.copies,
                    place,
                    chunk,
                );
                Ok(Outcome::Done)
            }
            None => Err(NotDue),
        }
    }

    /// Marks the header of a spoiled snapshot's store invalid. Where that fails, the store is stale, and held origin writes
    /// are routed again; where it is done, they wait for the flush that follows.
    pub(crate) fn write_invalid(&mut self, number: SnapId) -> Result<Outcome, NotDue>
        ensures step { IfOk result (λ outcome. IsStepped B.contents B.layers B.size B.fault_count B.done_count (WriteInvalid number) outcome self.old self.new) }
        ensures exact { IfOk result (λ outcome. IsExact B.contents B.layers (WriteInvalid number) outcome self.old self.new) }
        ensures stops_snaps { SnapsLast B.Block result self.old self.new }
        ensures stops_origin { OriginLasts B.Block result self.old self.new }
        ensures due { is_ok result ≡ is_due (dues_of B.contents B.layers self.old) self.old.flights (WriteInvalid number) }
        ensures same { OnErr result (self.new ≡ self.old) }
    {
        match trying_at(&self.snaps, number) {
            Some(place) => {
                let snap = &mut self.snaps[place];
                match snap.write_invalid() {
                    Ok(()) => Ok(Outcome::Done),
                    Err(Io) => {
                        route_again(&self.snaps, &self.merge, &mut self.flights);
                        Ok(Outcome::Fault)
                    }
                }
            }
            None => Err(NotDue),
        }
    }

    /// Flushes a snapshot's store. Of a live one the copies that were written may then be committed, its committed copies may
    /// be published, and a zeroed area may be the next one; where the flush fails, the snapshot is spoiled. Of one whose mark
    /// was written the mark is tried, whatever became of the flush, and held origin writes are routed again; where it fails,
    /// the store is stale.
    #[inline(always)]
    pub(crate) fn flush_store(&mut self, number: SnapId) -> Result<Outcome, NotDue>
        ensures step { IfOk result (λ outcome. IsStepped B.contents B.layers B.size B.fault_count B.done_count (FlushStore number) outcome self.old self.new) }
        ensures exact { IfOk result (λ outcome. IsExact B.contents B.layers (FlushStore number) outcome self.old self.new) }
        ensures stops_snaps { SnapsLast B.Block result self.old self.new }
        ensures stops_origin { OriginLasts B.Block result self.old self.new }
        ensures due { is_ok result ≡ is_due (dues_of B.contents B.layers self.old) self.old.flights (FlushStore number) }
        ensures same { OnErr result (self.new ≡ self.old) }
    {
        match flushing_near(&self.snaps, self.last, number) {
            Some(place) => {
                let snap = &mut self.snaps[place];
                if snap.is_live() {
                    match snap.flush_store() {
                        Ok(()) => Ok(Outcome::Done),
                        Err(Io) => {
                            spoil(snap, &mut self.flights);
                            Ok(Outcome::Fault)
                        }
                    }
                } else {
                    match snap.flush_mark() {
                        Ok(()) => {
                            route_again(&self.snaps, &self.merge, &mut self.flights);
                            Ok(Outcome::Done)
                        }
                        Err(Io) => {
                            route_again(&self.snaps, &self.merge, &mut self.flights);
                            Ok(Outcome::Fault)
                        }
                    }
                }
            }
            None => Err(NotDue),
        }
    }
}
