// Requests that one call starts and later ones end.
ghost use Rattle.std.specs.Prelude.{◌≡◌, ◌≢◌, ◌*◌, ◌<◌, ◌≤◌, ℕ, List, length, get_or, is_ok, true, false, not, ◌&&◌, None, Ok, Err, IfErr, IfOk, OnOk, OnErr};
ghost use Rattle.sector.specs.declared.refusal.Refusal.TheVariants.{NoMemory, Invalid, JournalFull, Overflow};
ghost use Rattle.plain_machine.specs.declared.request.Op.TheVariants.{Write};
ghost use Rattle.whole_commands.specs.Snaps.{Snap};
ghost use Rattle.volume.specs.EventKinds.{is_of_merge};
ghost use Rattle.command_semantics.specs.Events.{merge_done};
ghost use Rattle.command_semantics.specs.Places.{IsRoleIn};
ghost use Rattle.command_semantics.specs.Sectors.{asked_of};
ghost use Rattle.device_list.specs.Asked.{IsFullIn};
ghost use Rattle.device_list.specs.Backed.{InBacked, IsNotDueIn, Counts, MayAsk};
ghost use Rattle.device_list.specs.Flights.{Declines, IsEventDone, Settles, Starts};
ghost use Rattle.device_list.specs.Names.{KeepsNames};

use crate::origin::NamedVolume;
use crate::sectors::ask;
use crate::stored::{look, look_at_places, number_at};
use command_semantics::Role;
use plain_machine::{Event, NotDue, Op, Outcome, ReqId, Request, SnapId};
use sector::Refusal;
use std::alloc::Global;
use volume::is_of_merge;
use volume_commands::Replied;

impl NamedVolume {
    /// Whether nothing is in flight or left to do.
    pub fn is_quiet(&self) -> bool
        ensures { result ≡ self.now.shown.quiet }
    {
        self.volume.is_quiet()
    }

    /// The number of the snapshot at a place.
    pub fn number(&self, k: usize) -> SnapId
        requires { k < length self.now.shown.snaps }
        ensures { (d : Snap) → result ≡ (get_or self.now.shown.state.snaps k d).number }
    {
        number_at(&self.volume, k)
    }

    /// Starts a read or a write of so many sectors from `first` on, and tells its number; it is in flight from then on. Refused
    /// in this order: `BadTable` for disks and layers, `OutOfRange` for sectors past the end, `MergingSnapshot` for the snapshot
    /// that is being merged, `TooMany` where 2^60 sectors were asked for in all. Then, as the volume submits, `JournalFull`,
    /// `Invalid` for a spoiled snapshot, `Overflow` for a write of one whose store overflowed, `OutOfRange` for sectors of two
    /// chunks, `TooMany` and `NoMemory`. Last, for a snapshot whose store is full, `Invalid`, which spoils it, or `Overflow`, if it
    /// may overflow.
    pub fn start(
        &mut self,
        alloc: Global,
        role: Role,
        first: u32,
        count: u32,
        op: Op,
    ) -> Result<ReqId, Refusal>
        requires role { IsRoleIn role self.old.shown }
        requires some { 0 < count }
        requires few { count ≤ 2048 }
        requires bytes { (bytes : List ℕ) → op ≡ Write bytes → length bytes ≡ 512 * count }
        ensures asks { MayAsk role first count self.old result }
        ensures stays { IfErr (asked_of role first count self.old.shown) (λ _. self.new ≡ self.old) }
        ensures flies { OnOk result (self.new.shown.quiet ≡ false) }
        ensures started { IfOk result (λ number. IfOk (asked_of role first count self.old.shown) (λ asks. InBacked (Starts op number asks) self.old self.new)) }
        ensures refused { IfErr result (λ e. IfOk (asked_of role first count self.old.shown) (λ asks. InBacked (Declines op e asks) self.old self.new)) }
        ensures counts { Counts role first count self.old self.new }
        ensures same { IfErr result (λ e. e ≢ Invalid → e ≢ Overflow → self.new.shown.state ≡ self.old.shown.state) }
        ensures still { IfErr result (λ e. e ≢ Invalid → self.new.shown.quiet ≡ self.old.shown.quiet) }
        ensures kept { KeepsNames self.old.shown self.new.shown }
        ensures full { IsFullIn result self.new.shown }
    {
        let (dev, range) = match ask(&self.volume, &mut self.asked, role, first, count) {
            Ok(asks) => asks,
            Err(refusal) => return Err(refusal),
        };
        look_at_places(&self.volume);
        self.volume.start(alloc, Request { dev, op, range })
    }

    /// Does an event. `NotDue` where it isn't due, and then nothing changed; where nothing is in flight or left to do, none is
    /// but those of a merge.
    pub fn step(&mut self, event: Event) -> Result<Outcome, NotDue>
        ensures idle { self.old.shown.quiet ≡ true → is_of_merge event ≡ false → is_ok result ≡ false }
        ensures stepped { IfOk result (λ outcome. InBacked (IsEventDone event outcome) self.old self.new) }
        ensures due { (not (is_of_merge event) && self.old.shown.quiet) ≡ false → OnErr result (IsNotDueIn event self.old) }
        ensures same { OnErr result (self.new ≡ self.old) }
        ensures kept { KeepsNames self.old.shown self.new.shown }
    {
        if !is_of_merge(event) && self.is_quiet() {
            return Err(NotDue);
        }
        self.volume.step(event)
    }

    /// Does the events that are due, each time the one that is due first, until none is. Each request that ends is told at the
    /// end of `ended`. `NoMemory` where the allocator refuses room for that, and then nothing is done. Where nothing is in flight, this is the
    /// whole merge, or up to the first of its operations that fails, and no memory is asked for.
    pub fn settle(&mut self, ended: &mut Vec<Replied>) -> Result<(), Refusal>
        ensures quiet { OnOk result (self.new.shown.quiet ≡ true) }
        ensures drained { OnOk result (InBacked (Settles ended.old.items ended.new.items) self.old self.new) }
        ensures done { self.old.shown.sound ≡ true → self.old.shown.quiet ≡ true → OnOk result (self.new.shown ≡ merge_done self.old.shown) }
        ensures idle { self.old.shown.quiet ≡ true → is_ok result ≡ true }
        ensures still { self.old.shown.quiet ≡ true → ended.new.items ≡ ended.old.items }
        ensures alone { self.old.shown.quiet ≡ true → self.old.shown.merging ≡ None → self.new ≡ self.old }
        ensures kept { KeepsNames self.old.shown self.new.shown }
        ensures err { IfErr result (λ e. (e ≡ NoMemory) × (self.new ≡ self.old) × (ended.new.items ≡ ended.old.items)) }
    {
        look(&self.volume);
        self.volume.settle(ended)
    }
}
