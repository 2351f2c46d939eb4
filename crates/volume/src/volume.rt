// A volume, and what callers ask of it.
ghost use Rattle.std.specs.Prelude.{◌≡◌, ◌≤◌, [], None, IfNone, IfOk, IfSome, Option, Some, false, length, true};
ghost use Rattle.chunk.specs.Sizes.{is_chunk};
ghost use Rattle.std.specs.List.{All};
ghost use Rattle.plain_machine.specs.declared.event.Event.{Event};
ghost use Rattle.plain_machine.specs.declared.request.Reply.{Reply};
ghost use Rattle.event_machine.specs.MergeDue.{due_all};
ghost use Rattle.volume.specs.Moved.{moving_of};
ghost use Rattle.merge.specs.Due.{has_group_of};
ghost use Rattle.merge.specs.Merging.{Merging, books_of as merging_books};
ghost use Rattle.volume_laws.specs.MergeDue.{has_group};
ghost use Rattle.volume_laws.specs.Waits.{IsQuiet};
ghost use Rattle.volume.specs.Asking.{IsMergeStill};
ghost use Rattle.volume.specs.EventKinds.{is_of_merge};
ghost use Rattle.volume.specs.Leaving.{has_group_in, is_quiet_of};
ghost use Rattle.volume.specs.OnlyMerging.{is_only_merging_of};
ghost use Rattle.volume.specs.Volumed.{books_of, is_due_of, next_of, piece_of, piece_with};
ghost use Rattle.volume.specs.Calls.{GivesBack};

use device::Block;
use in_flight::{Flight, MAX_REQUESTS};
use merge::Merge;
use plain_machine::Event;
use sector::Refusal;
use snapshot::Snapshot;
use snapshot_list::{first_due, merge_due};
use std::alloc::Global;
use std::marker::Model;

/// The sectors of a piece of a volume without snapshots.
pub const LARGEST_PIECE: u32 = 1024;

/// A volume has at most so many snapshots.
pub const MAX_SNAPSHOTS: usize = 8;

/// An origin disk, its snapshots in order of attaching, and the requests in flight in order of acceptance. Contracts see
/// the devices, each snapshot's state and the lists; a call of a volume does no more than it names.
#[derive(Drop)]
pub struct Volume<B: Block> {
    pub(crate) origin: B,
    pub(crate) snaps: Vec<Snapshot<B>>,
    /// The snapshot that is being merged, which is none of these.
    pub(crate) merge: Option<Merge<B>>,
    pub(crate) flights: Vec<Flight>,
    /// The rooms of the copies that a write starts, while they are handed over; empty between calls, and its memory is kept.
    pub(crate) rooms: Vec<Vec<u8>>,
    /// The place of the snapshot whose copy was read last: the events that follow are mostly that one's, and are sought there first.
    pub(crate) last: usize,
    /// How many numbers of requests, of copies and of snapshots were given.
    pub(crate) requests: u64,
    pub(crate) copies: u64,
    pub(crate) attached: u32,
}

impl<B: Block> Model for Volume<B> {
    ghost use Rattle.volume.specs.Volumed.{Volumed};

    ghost Value = { Volumed B };

    ghost use Rattle.volume.specs.Lasting.{IsKept};

    ghost view = { λ v. record { origin = v.origin; snaps = v.snaps.items; merge = v.merge; flights = v.flights.items; requests = v.requests; copies = v.copies; attached = v.attached } };

    ghost invariant = { λ v. IsKept B.may_hold B.contents B.layers B.size (record { origin = v.origin; snaps = v.snaps.items; merge = v.merge; flights = v.flights.items; requests = v.requests; copies = v.copies; attached = v.attached }) };
}

/// The sectors of the least chunk of some snapshots, or of the largest chunk where there is none.
fn least_chunk<B: Block>(snaps: &[Snapshot<B>]) -> u32
    ensures is { result ≡ piece_of snaps.now }
    ensures each { All (λ s. is_chunk s.state.chunk ≡ true) snaps.now }
    ensures allowed { is_chunk result ≡ true }
{
    let mut least = LARGEST_PIECE;
    for snap in snaps {
        least = least.min(snap.chunk());
    }
    least
}

impl<B: Block> Volume<B> {
    /// A volume over an origin disk, without snapshots and requests. Where the room for both is refused, the disk is given
    /// back.
    pub fn new(alloc: Global, origin: B) -> Result<Volume<B>, (Refusal, B)>
        ensures ok { IfOk result (λ v. v ≡ record { origin = origin; snaps = []; merge = None; flights = []; requests = 0; copies = 0; attached = 0 }) }
        ensures err { GivesBack origin result }
    {
        let Ok(flights) = Vec::with_capacity(alloc, MAX_REQUESTS) else {
            return Err((Refusal::NoMemory, origin));
        };
        let Ok(snaps) = Vec::with_capacity(alloc, MAX_SNAPSHOTS) else {
            return Err((Refusal::NoMemory, origin));
        };
        Ok(Volume {
            origin,
            snaps,
            merge: None,
            flights,
            rooms: Vec::new(alloc),
            last: 0,
            requests: 0,
            copies: 0,
            attached: 0,
        })
    }

    /// The origin disk.
    pub fn origin(&self) -> &B
        ensures { result.now ≡ self.now.origin }
    {
        &self.origin
    }

    /// How many snapshots there are: eight at most.
    pub fn len(&self) -> usize
        ensures len { result ≡ length self.now.snaps }
        ensures few { result ≤ 8 }
    {
        self.snaps.len()
    }

    /// The sectors of a piece: of the least chunk of the snapshots, spoiled ones and the one that is being merged among them,
    /// or of the largest chunk where there is none. A request lies inside one piece, and so inside one chunk of each.
    pub fn piece(&self) -> u32
        ensures piece { result ≡ piece_with self.now.merge self.now.snaps }
        ensures within { All (λ s. (is_chunk s.state.chunk ≡ true) × (result ≤ s.state.chunk)) self.now.snaps }
        ensures allowed { is_chunk result ≡ true }
    {
        let least = least_chunk(self.snaps.as_slice());
        match &self.merge {
            Some(merge) => merge.chunk().min(least),
            None => least,
        }
    }

    /// The event that is due first: of the snapshots and requests, by kind and then by number, and then of the merge. None is
    /// due where the volume is quiet: no request is in flight, and no copy, publication or mark of a spoiled store is left to
    /// do; and a merge that is begun has no group, and stopped at a fault or has no pair left. A merge without a group goes
    /// on only where the volume is quiet.
    pub fn due(&self) -> Option<Event>
        ensures event { result ≡ next_of B.contents B.layers self.now }
        ensures machine { (replied : Option Reply) → due_all (moving_of B.contents B.layers replied self.now) ≡ result }
        ensures calm { IfSome result (λ event. is_of_merge event ≡ true → has_group_in self.now.merge ≡ false → is_quiet_of self.now ≡ true) }
        ensures seen { IfSome result (λ event. is_of_merge event ≡ true → (m : Merging B) → self.now.merge ≡ Some m → has_group_of m.group ≡ has_group (merging_books B.contents true m)) }
        ensures quiet { IfNone result (IsQuiet (books_of B.contents B.layers B.size self.now) × IsMergeStill self.now.merge) }
    {
        match first_due(&self.snaps, &self.flights) {
            Some(event) => Some(event),
            None => match &self.merge {
                Some(merge) => {
                    // A look: what the merge's looks say of its books is known from here on.
                    let _ = merge.has_group();
                    merge_due(merge, &self.snaps, &self.flights)
                }
                None => None,
            },
        }
    }

    /// Whether no request is in flight, and no snapshot is there but one that is being merged. An event of the merge that is due
    /// is due first then.
    #[inline(always)]
    pub fn is_only_merging(&self) -> bool
        ensures value { result ≡ is_only_merging_of self.now }
        ensures event { result ≡ true → (event : Event) → is_of_merge event ≡ true → is_due_of B.contents B.layers self.now event ≡ true → next_of B.contents B.layers self.now ≡ Some event }
        ensures machine { result ≡ true → (event : Event) → is_of_merge event ≡ true → is_due_of B.contents B.layers self.now event ≡ true → (replied : Option Reply) → due_all (moving_of B.contents B.layers replied self.now) ≡ Some event }
    {
        match &self.merge {
            Some(merge) => {
                // A look: what the merge's looks say of its books is known from here on.
                let _ = merge.has_group();
                self.snaps.is_empty() && self.flights.is_empty()
            }
            None => false,
        }
    }
}
