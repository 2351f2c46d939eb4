// A volume with its life.
ghost use Rattle.std.specs.Prelude.{◌≡◌, ◌*◌, ◌+◌, [], IfErr, IfOk, List, None, Some, length, true, false, ℕ};
ghost use Rattle.sector.specs.declared.refusal.Refusal.TheVariants.{NoMemory};
ghost use Rattle.plain_machine.specs.declared.request.Op.TheVariants.{Write};
ghost use Rattle.merge.specs.declared.group.Group.{Group};
ghost use Rattle.merge.specs.Merging.{Merging};
ghost use Rattle.volume.specs.Beginning.{IsNotBegun};
ghost use Rattle.volume.specs.Copied.{AreCopied, can_copy_group};
ghost use Rattle.volume.specs.DoesAttach.{DoesAttach};
ghost use Rattle.volume.specs.DoesBeginMerge.{DoesBeginMerge};
ghost use Rattle.volume.specs.DoesDetach.{DoesDetach};
ghost use Rattle.volume.specs.DoesFinishMerge.{DoesFinishMerge};
ghost use Rattle.volume.specs.DoesMessage.{DoesMessage};
ghost use Rattle.volume.specs.DoesResumeMerge.{DoesResumeMerge};
ghost use Rattle.volume.specs.DoesServe.{DoesServe, IsServedAtOnce};
ghost use Rattle.volume.specs.DoesStep.{DoesStep};
ghost use Rattle.volume.specs.DoesSubmit.{DoesSubmit};
ghost use Rattle.volume.specs.DoesTick.{DoesTick};
ghost use Rattle.volume.specs.Finishing.{finish_refusal};
ghost use Rattle.volume.specs.Layering.{Measures};
ghost use Rattle.volume.specs.Leaving.{close_refusal, detach_refusal};
ghost use Rattle.volume.specs.Lent.{is_bare, origin_write};
ghost use Rattle.volume.specs.Stopped.{devices_of};
ghost use Rattle.volume.specs.Stopping.{StopsVolume};
ghost use Rattle.volume.specs.Submitting.{IsRefusedAs, submit_refusal};
ghost use Rattle.volume.specs.Taking.{IsNotTaken};
ghost use Rattle.volume.specs.Volumed.{is_loud_in_all};
ghost use Rattle.volume_lifetime.specs.Life.{HasLife, begun_over};
ghost use Rattle.volume_lifetime.specs.Lived.{IsLived, IsLoudDeed};
ghost use Rattle.std.specs.List.{All};

use layers::{Answer, Layered, Message};
use plain_machine::{Dev, Event, NotDue, Outcome, Reply, ReqId, Request, SnapId};
use sector::{Range, Refusal};
use snapshot::StoreDev;
use std::alloc::Global;
use std::marker::Model;
use volume::{Served, Stopped, Volume};

/// A volume to which nothing was done but deeds: it began over a device, without snapshots, and there is one list of deeds that made it
/// what it is, each with an answer that a volume may give there (`HasLife`). Which answer a call gave is said by the call's own clauses.
#[derive(Drop)]
pub struct LivedVolume<B: Layered> {
    pub(crate) volume: Volume<B>,
}

impl<B: Layered> Model for LivedVolume<B> {
    ghost use Rattle.volume.specs.Layering.{Measures};
    ghost use Rattle.volume.specs.Volumed.{Volumed};
    ghost use Rattle.volume_lifetime.specs.Life.{HasLife};

    ghost Value = { Volumed B };

    ghost view = { λ v. v.volume };

    ghost invariant = { λ v. HasLife B.may_hold (record { contents = B.contents; durable = B.durable; size = B.size; faults = B.fault_count; done = B.done_count }) B.layers v.volume };
}

impl<B: Layered + Drop> LivedVolume<B> {
    /// A volume over an origin disk, without snapshots and requests. Where memory is refused, the disk is given back.
    pub fn new(alloc: Global, origin: B) -> Result<LivedVolume<B>, (Refusal, B)>
        ensures ok { IfOk result (λ v. v ≡ record { origin = origin; snaps = []; merge = None; flights = []; requests = 0; copies = 0; attached = 0 }) }
        ensures err { IfErr result (λ e. e ≡ record { 0 = NoMemory; 1 = origin }) }
    {
        let volume = Volume::new(alloc, origin)?;
        Ok(LivedVolume { volume })
    }

    /// Gives the origin disk back. `Busy` where a snapshot is attached or a merge is begun, `NotQuiet` where a request is in
    /// flight.
    pub fn close(self) -> Result<B, (Refusal, LivedVolume<B>)>
        ensures ok { IfOk result (λ origin. (origin ≡ self.origin) × (close_refusal self ≡ None)) }
        ensures err { IfErr result (λ e. (close_refusal self ≡ Some e.0) × (e.1 ≡ self)) }
    {
        match self.volume.close() {
            Ok(origin) => Ok(origin),
            Err((refusal, volume)) => Err((refusal, LivedVolume { volume })),
        }
    }
}

impl<B: Layered> LivedVolume<B> {
    /// The volume, for all that it may be asked.
    #[inline(always)]
    pub fn volume(&self) -> &Volume<B>
        ensures { result.now ≡ self.now }
    {
        &self.volume
    }

    /// A look at its life, which does nothing: what it is came of deeds, with the volume's own answers; and where no device drops
    /// writes, what `live` promises of such a list was seen of them.
    pub fn look_at_life(&self)
        ensures life { HasLife B.may_hold (record { contents = B.contents; durable = B.durable; size = B.size; faults = B.fault_count; done = B.done_count }) B.layers self.now }
        ensures seen { (life : HasLife B.may_hold (record { contents = B.contents; durable = B.durable; size = B.size; faults = B.fault_count; done = B.done_count }) B.layers self.now) → is_loud_in_all B.layers (begun_over life.origin) ≡ true → All (IsLoudDeed B.layers) life.deeds → IsLived (record { contents = B.contents; durable = B.durable; size = B.size; faults = B.fault_count; done = B.done_count }) B.layers [] life.deeds life.dones (begun_over life.origin) self.now }
    {
        let _ = &self.volume;
    }

    /// The volume, whatever is in flight.
    pub fn into_volume(self) -> Volume<B>
        ensures { result ≡ self }
    {
        self.volume
    }

    /// Ends the volume without a further event, whatever is in flight: what is left are its devices, as they are.
    pub fn stop(self) -> Stopped<B>
        ensures devices { result ≡ devices_of self }
        ensures stops { is_loud_in_all B.layers self ≡ true → StopsVolume B.may_hold B.size None self self }
    {
        self.volume.stop()
    }

    /// Accepts a request, and tells its number.
    pub fn submit(&mut self, alloc: Global, request: Request) -> Result<ReqId, Refusal>
        requires bytes { (bytes : List ℕ) → request.op ≡ Write bytes → length bytes ≡ 512 * request.range.count }
        ensures does { DoesSubmit B.contents B.layers B.size request result self.old self.new }
        ensures refused { IfErr result (λ refusal. IsRefusedAs B.contents B.layers B.size request refusal self.old self.new) }
    {
        self.volume.submit(alloc, request)
    }

    /// Accepts a request, and answers it at once where it waits for nothing.
    #[inline(always)]
    pub fn serve(&mut self, alloc: Global, request: Request) -> Result<Served, Refusal>
        requires bytes { (bytes : List ℕ) → request.op ≡ Write bytes → length bytes ≡ 512 * request.range.count }
        ensures does { DoesServe B.may_hold B.contents B.layers B.size B.fault_count B.done_count request result self.old self.new }
        ensures refused { IfErr result (λ refusal. IsRefusedAs B.contents B.layers B.size request refusal self.old self.new) }
    {
        self.volume.serve(alloc, request)
    }

    /// Writes sectors of the origin of a bare volume by bytes that are lent, as `serve` does of such a request.
    pub fn write_lent(
        &mut self,
        alloc: Global,
        range: Range,
        bytes: &[u8],
    ) -> Result<Reply, Refusal>
        requires bare { is_bare self.old ≡ true }
        requires bytes { length bytes.now ≡ 512 * range.count }
        ensures does { IfOk result (λ reply. IsServedAtOnce B.may_hold B.contents B.layers B.size B.fault_count B.done_count (origin_write range bytes.now) (self.old.requests + 1) reply self.old self.new) }
        ensures refused { IfErr result (λ refusal. (submit_refusal B.size (origin_write range bytes.now) self.old ≡ Some refusal) × (self.new ≡ self.old)) }
    {
        self.volume.write_lent(alloc, range, bytes)
    }

    /// Does one event, where it is due.
    #[inline(always)]
    pub fn step(&mut self, event: Event) -> Result<Outcome, NotDue>
        ensures does { DoesStep B.may_hold B.contents B.layers B.size B.fault_count B.done_count true event result self.old self.new }
    {
        self.volume.step(event)
    }

    /// Copies all chunks of a merge's group back at once, where the volume can.
    pub fn copy_group(&mut self) -> bool
        ensures answer { result ≡ can_copy_group B.copies_runs B.layers self.old }
        ensures copied { result ≡ true → (m : Merging B) → self.old.merge ≡ Some m → (g : Group) → m.group ≡ Some g → AreCopied B.may_hold B.contents B.layers B.size B.fault_count B.done_count g.waiting self.old self.new }
        ensures beside { self.new ≡ record self.old { origin = self.new.origin; merge = self.new.merge } }
        ensures same { result ≡ false → self.new ≡ self.old }
    {
        self.volume.copy_group()
    }

    /// Lets so many seconds pass for the layers of every device.
    pub fn tick(&mut self, seconds: u32)
        ensures does { DoesTick B.may_hold (record { contents = B.contents; durable = B.durable; size = B.size; faults = B.fault_count; done = B.done_count }) B.layers seconds self.old self.new }
    {
        self.volume.tick(seconds)
    }

    /// Tells a layer of one of the devices a message.
    pub fn message(&mut self, dev: Dev, depth: usize, message: &Message) -> Result<Answer, Refusal>
        ensures does { DoesMessage B.may_hold (record { contents = B.contents; durable = B.durable; size = B.size; faults = B.fault_count; done = B.done_count }) B.layers dev depth message.now result self.old self.new }
    {
        self.volume.message(dev, depth, message)
    }

    /// Takes a snapshot over a store, and tells its number.
    pub fn attach(
        &mut self,
        alloc: Global,
        store: StoreDev<B>,
        chunk: u32,
        overflow: bool,
    ) -> Result<SnapId, (Refusal, StoreDev<B>)>
        ensures does { DoesAttach B.may_hold (record { contents = B.contents; durable = B.durable; size = B.size; faults = B.fault_count; done = B.done_count }) B.layers store chunk overflow result self.old self.new }
        ensures refused { IfErr result (λ e. IsNotTaken store.stale chunk (B.size self.old.origin) (B.size store.device) (B.contents store.device) self.old e.0) }
    {
        self.volume.attach(alloc, store, chunk, overflow)
    }

    /// Takes a snapshot away, and gives the device of its store back.
    pub fn detach(&mut self, number: SnapId) -> Result<StoreDev<B>, Refusal>
        ensures does { DoesDetach B.may_hold B.contents B.layers B.size number result self.old self.new }
        ensures err { IfErr result (λ refusal. (detach_refusal number self.old ≡ Some refusal) × (self.new ≡ self.old)) }
    {
        self.volume.detach(number)
    }

    /// Begins to merge a live snapshot into the origin.
    pub fn begin_merge(&mut self, alloc: Global, number: SnapId) -> Result<(), Refusal>
        ensures does { DoesBeginMerge B.may_hold B.contents B.layers B.size number result self.old self.new }
        ensures refused { IfErr result (λ refusal. IsNotBegun number refusal self.old self.new) }
    {
        self.volume.begin_merge(alloc, number)
    }

    /// Lets a merge that failed go on.
    pub fn resume_merge(&mut self) -> Result<(), Refusal>
        ensures does { DoesResumeMerge B.contents B.layers result self.old self.new }
    {
        self.volume.resume_merge()
    }

    /// Takes a merge out that has nothing left to do, and gives the device of its store back.
    pub fn finish_merge(&mut self) -> Result<StoreDev<B>, Refusal>
        ensures does { DoesFinishMerge B.may_hold B.contents B.layers B.size result self.old self.new }
        ensures err { IfErr result (λ refusal. (finish_refusal self.old ≡ Some refusal) × (self.new ≡ self.old)) }
    {
        self.volume.finish_merge()
    }
}
