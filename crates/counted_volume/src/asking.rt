// What callers may ask of a volume and of its snapshots.
ghost use Rattle.std.specs.Prelude.{◌≡◌, ◌<◌, ◌≤◌, AllPairs, IfErr, IfNone, IfOk, IfSome, None, Option, Some, false, length, map, slice_index_or, true};
ghost use Rattle.std.specs.List.{All};
ghost use Rattle.sector.specs.declared.refusal.Refusal.TheVariants.{NoSuchDevice};
ghost use Rattle.chunk.specs.Sizes.{is_chunk};
ghost use Rattle.plain_machine.specs.declared.event.Event.{Event};
ghost use Rattle.plain_machine.specs.declared.request.Reply.{Reply};
ghost use Rattle.whole_commands.specs.MergeShown.{IsMerging};
ghost use Rattle.snapshot.specs.Kept.{Kept};
ghost use Rattle.merge.specs.Due.{has_group_of};
ghost use Rattle.merge.specs.Merging.{Merging, books_of as merging_books};
ghost use Rattle.event_machine.specs.Due.{due};
ghost use Rattle.event_machine.specs.Held.{MergeHeld};
ghost use Rattle.event_machine.specs.MergeDue.{due_all};
ghost use Rattle.event_machine.specs.MergeRest.{IsBetween, in_big_steps};
ghost use Rattle.volume_laws.specs.MergeDue.{has_group};
ghost use Rattle.volume_laws.specs.Waits.{IsQuiet};
ghost use Rattle.snapshot_list.specs.Finding.{place_of_snap};
ghost use Rattle.snapshot_list.specs.Numbers.{number_of_snap};
ghost use Rattle.volume.specs.Asking.{HasNone, HoldsOf, IsMergeStill, merging_chunk_of, merging_number, merging_usage};
ghost use Rattle.volume.specs.EventKinds.{is_of_merge};
ghost use Rattle.volume.specs.Leaving.{has_group_in, is_quiet_of, usage_of};
ghost use Rattle.volume.specs.Lent.{is_bare};
ghost use Rattle.volume.specs.OnlyMerging.{is_only_merging_of};
ghost use Rattle.volume.specs.Moved.{moving_of};
ghost use Rattle.volume.specs.Stepping.{has_failed};
ghost use Rattle.volume.specs.Submitting.{is_merging};
ghost use Rattle.volume.specs.Volumed.{books_of, is_due_of, is_loud_in_all, next_of, piece_with};
ghost use Rattle.volume.specs.Whole.{IsCounted};

use crate::CountedVolume;
use chunk_alloc::Usage;
use layers::Layered;
use plain_machine::{Event, ReqId, SnapId};
use sector::Refusal;
use snapshot::Snapshot;

impl<B: Layered> CountedVolume<B> {
    /// The origin disk.
    pub fn origin(&self) -> &B
        ensures { result.now ≡ self.now.volume.origin }
    {
        self.volume.origin()
    }

    /// How many snapshots there are: eight at most.
    pub fn len(&self) -> usize
        ensures len { result ≡ length self.now.volume.snaps }
        ensures few { result ≤ 8 }
    {
        self.volume.len()
    }

    /// The sectors of a piece: of the least chunk of the snapshots, the one that is being merged among them. A request lies
    /// inside one piece.
    pub fn piece(&self) -> u32
        ensures piece { result ≡ piece_with self.now.volume.merge self.now.volume.snaps }
        ensures within { All (λ s. (is_chunk s.state.chunk ≡ true) × (result ≤ s.state.chunk)) self.now.volume.snaps }
        ensures allowed { is_chunk result ≡ true }
    {
        self.volume.piece()
    }

    /// The event that is due first.
    pub fn due(&self) -> Option<Event>
        ensures event { result ≡ next_of B.contents B.layers self.now.volume }
        ensures machine { (replied : Option Reply) → due_all (moving_of B.contents B.layers replied self.now.volume) ≡ result }
        ensures calm { IfSome result (λ event. is_of_merge event ≡ true → has_group_in self.now.volume.merge ≡ false → is_quiet_of self.now.volume ≡ true) }
        ensures seen { IfSome result (λ event. is_of_merge event ≡ true → (m : Merging B) → self.now.volume.merge ≡ Some m → has_group_of m.group ≡ has_group (merging_books B.contents true m)) }
        ensures quiet { IfNone result (IsQuiet (books_of B.contents B.layers B.size self.now.volume) × IsMergeStill self.now.volume.merge) }
    {
        self.volume.due()
    }

    /// Whether no request is in flight, and no snapshot is there but one that is being merged. An event of the merge that is due
    /// is due first then.
    #[inline(always)]
    pub(crate) fn is_only_merging(&self) -> bool
        ensures value { result ≡ is_only_merging_of self.now.volume }
        ensures event { result ≡ true → (event : Event) → is_of_merge event ≡ true → is_due_of B.contents B.layers self.now.volume event ≡ true → next_of B.contents B.layers self.now.volume ≡ Some event }
        ensures machine { result ≡ true → (event : Event) → is_of_merge event ≡ true → is_due_of B.contents B.layers self.now.volume event ≡ true → (replied : Option Reply) → due_all (moving_of B.contents B.layers replied self.now.volume) ≡ Some event }
    {
        self.volume.is_only_merging()
    }

    /// The number of the snapshot that is being merged, if one is. It is none of the others.
    pub fn merging(&self) -> Option<SnapId>
        ensures value { result ≡ merging_number self.now.volume.merge }
        ensures apart { IfSome result (λ number. place_of_snap number self.now.volume.snaps ≡ None) }
        ensures fine { (m : Merging B) → self.now.volume.merge ≡ Some m → (is_chunk m.state.chunk ≡ true) × (m.state.origin ≡ B.size self.now.volume.origin) }
    {
        self.volume.merging()
    }

    /// The sectors of the chunks of the snapshot that is being merged, if one is.
    pub fn merging_chunk(&self) -> Option<u32>
        ensures { result ≡ merging_chunk_of self.now.volume.merge }
    {
        self.volume.merging_chunk()
    }

    /// Whether a merge is begun that stopped at a fault, and was not resumed.
    pub fn is_merge_failed(&self) -> bool
        ensures { result ≡ has_failed self.now.volume.merge }
    {
        self.volume.is_merge_failed()
    }

    /// Whether no request is in flight, no group of a merge is formed, no copy is pending, and no invalid mark is untried.
    pub fn is_quiet(&self) -> bool
        ensures value { result ≡ is_quiet_of self.now.volume }
        ensures between { result ≡ true → is_loud_in_all B.layers self.now.volume ≡ true → (replied : Option Reply) → IsBetween (B.size self.now.volume.origin) (moving_of B.contents B.layers replied self.now.volume) }
        ensures calm { result ≡ true → (replied : Option Reply) → due (moving_of B.contents B.layers replied self.now.volume) ≡ None }
        ensures under { result ≡ true → is_loud_in_all B.layers self.now.volume ≡ true → (replied : Option Reply) → (h : MergeHeld) → (moving_of B.contents B.layers replied self.now.volume).merge ≡ Some h → IsMerging (B.size self.now.volume.origin) (in_big_steps h (moving_of B.contents B.layers replied self.now.volume)) }
        ensures few { length self.now.volume.snaps ≤ 8 }
        ensures numbers { AllPairs (λ m n. m < n) (map number_of_snap self.now.volume.snaps) }
    {
        self.volume.is_quiet()
    }

    /// Whether `write_lent` may be called: there is no snapshot and no merge, and the volume is quiet.
    pub fn is_bare(&self) -> bool
        ensures { result ≡ is_bare self.now.volume }
    {
        self.volume.is_bare()
    }

    /// How many requests are in flight: 64 at most.
    pub fn flying(&self) -> usize
        ensures len { result ≡ length self.now.volume.flights }
        ensures few { result ≤ 64 }
    {
        self.volume.flying()
    }

    /// The number of the request that was accepted last.
    pub fn last_request(&self) -> ReqId
        ensures { result ≡ self.now.volume.requests }
    {
        self.volume.last_request()
    }

    /// The snapshot at a place, counted from 0 in order of attaching. It is not the one that is being merged.
    pub fn snap(&self, k: usize) -> &Snapshot<B>
        requires { k < length self.now.volume.snaps }
        ensures value { (d : Kept B) → result.now ≡ slice_index_or self.now.volume.snaps k d }
        ensures first { place_of_snap result.now.number self.now.volume.snaps ≡ Some k }
        ensures counted { IsCounted result.now }
        ensures other { is_merging result.now.number self.now.volume.merge ≡ false }
        ensures sized { result.now.live ≡ true → result.now.state.size ≡ B.size result.now.device }
    {
        self.volume.snap(k)
    }

    /// The device of a snapshot's store, also of the one that is being merged.
    pub fn store(&self, number: SnapId) -> Result<&B, Refusal>
        ensures ok { IfOk result (λ device. HoldsOf (λ m. device.now ≡ m.device) (λ s. device.now ≡ s.device) number self.now.volume) }
        ensures err { IfErr result (λ refusal. (refusal ≡ NoSuchDevice) × HasNone number self.now.volume) }
    {
        self.volume.store(number)
    }

    /// The sectors in use on a snapshot's store, also of the one that is being merged; none of a snapshot that is spoiled.
    pub fn usage(&self, number: SnapId) -> Result<Option<Usage>, Refusal>
        ensures ok { IfOk result (λ usage. HoldsOf (λ m. usage ≡ Some (merging_usage m)) (λ s. usage ≡ usage_of s) number self.now.volume) }
        ensures err { IfErr result (λ refusal. (refusal ≡ NoSuchDevice) × HasNone number self.now.volume) }
    {
        self.volume.usage(number)
    }
}
