// Reads, writes and flushes of the origin and of snapshots.
ghost use Rattle.std.specs.Prelude.{◌≡◌, ◌≢◌, ◌⊎◌, ◌+◌, ◌*◌, ◌<◌, ◌≤◌, length, is_some, true, false, Ok, Err, IfOk, IfErr, OnOk, OnErr};
ghost use Rattle.sector.specs.declared.refusal.Refusal.TheVariants.{NoMemory, JournalFull, BadTable, TooMany};
ghost use Rattle.chunk.specs.Pieces.{span_of};
ghost use Rattle.layers.specs.Stack.{stack_size};
ghost use Rattle.volume_commands.specs.Rested.{has_dev};
ghost use Rattle.command_semantics.specs.State.{Volume};
ghost use Rattle.command_semantics.specs.Changes.{Serves};
ghost use Rattle.command_semantics.specs.Places.{HasRole, IsRoleIn};
ghost use Rattle.command_semantics.specs.Sectors.{asked_of, dev_of, serves, takes, flushed_in, read_in, written_in, IsReadAsked, IsPartWritten};
ghost use Rattle.device_list.specs.Asked.{IsFullIn};
ghost use Rattle.device_list.specs.Backed.{InBacked, Counts, MayAsk, TellsNone};
ghost use Rattle.device_list.specs.Flights.{FlushesAmong, FlushesAtRest, IsDenied, ReadsAmong, ReadsAtRest, WritesAmong, WritesAtRest};
ghost use Rattle.device_list.specs.Held.{settled_in};
ghost use Rattle.device_list.specs.Names.{KeepsNames, StaysQuiet};

use crate::origin::NamedVolume;
use crate::stored::look_at_places;
use command_semantics::Role;
use device_stacks::{range_in, sectors_of};
use layers::Stack;
use plain_machine::Dev;
use sector::{Buf, Range, Refusal};
use std::alloc::Global;
use volume_commands::{Replied, Resting};

/// One more than the most sectors that a volume is asked for in all.
const ASKED_END: u64 = 1_152_921_504_606_846_976;

/// Whether a request may be sent to this role. `BadTable` for disks and layers.
fn serves(role: Role) -> Result<(), Refusal>
    ensures value { result ≡ serves role }
    ensures known { IfErr result (λ e. e ≡ BadTable) }
{
    match role {
        Role::Origin | Role::Snapshot(_) | Role::Merging => Ok(()),
        Role::Under(_) | Role::Store(_, _) | Role::MergingStore(_) => Err(Refusal::BadTable),
    }
}

/// What a request to this role is sent to. `BadTable` for disks and layers, `MergingSnapshot` for the one that is being
/// merged.
#[tactic(auto, unfolding(command_semantics::specs::Sectors::dev_of))]
fn dev_of(volume: &Resting<Stack>, role: Role) -> Result<Dev, Refusal>
    requires { HasRole role (length volume.now.rested.snaps) (is_some volume.now.rested.events.merge) }
    ensures value { result ≡ dev_of role (settled_in volume.now.rested) }
    ensures there { IfOk result (λ dev. has_dev dev volume.now.rested ≡ true) }
    ensures known { IfErr result (λ e. e ≢ NoMemory) }
    ensures room { IfErr result (λ e. e ≢ JournalFull) }
{
    match role {
        Role::Origin => Ok(Dev::Origin),
        Role::Snapshot(k) => Ok(Dev::Snap(volume.number(k))),
        Role::Merging => Err(Refusal::MergingSnapshot),
        Role::Under(_) | Role::Store(_, _) | Role::MergingStore(_) => Err(Refusal::BadTable),
    }
}

/// Counts sectors that are asked for. `TooMany` where they would be 2^60 in all.
fn count_asked(asked: &mut u64, count: u32) -> Result<(), Refusal>
    ensures value { (v : Volume) → v.asked ≡ asked.old → result ≡ takes count v }
    ensures ok { OnOk result ((asked.new ≡ asked.old + count) × (asked.new < 1_152_921_504_606_846_976)) }
    ensures err { OnErr result (asked.new ≡ asked.old) }
    ensures known { IfErr result (λ e. e ≡ TooMany) }
{
    if *asked < ASKED_END - u64::from(count) {
        *asked += u64::from(count);
        Ok(())
    } else {
        Err(Refusal::TooMany)
    }
}

/// What a command asks of a volume that was asked for so many sectors: of which device, and which sectors. They are counted
/// then. In this order: `BadTable` for disks and layers, `OutOfRange` for sectors past the end, `MergingSnapshot`, `TooMany`.
pub(crate) fn ask(
    volume: &Resting<Stack>,
    asked: &mut u64,
    role: Role,
    first: u32,
    count: u32,
) -> Result<(Dev, Range), Refusal>
    requires role { HasRole role (length volume.now.rested.snaps) (is_some volume.now.rested.events.merge) }
    ensures ok { IfOk result (λ asks. (v : Volume) → v.state ≡ settled_in volume.now.rested → v.asked ≡ asked.old → asked_of role first count v ≡ Ok (record { dev = asks.0; span = span_of asks.1 })) }
    ensures err { IfErr result (λ e. (v : Volume) → v.state ≡ settled_in volume.now.rested → v.asked ≡ asked.old → asked_of role first count v ≡ Err e) }
    ensures known { IfErr result (λ e. e ≢ NoMemory) }
    ensures room { IfErr result (λ e. e ≢ JournalFull) }
    ensures there { IfOk result (λ asks. has_dev asks.0 volume.now.rested ≡ true) }
    ensures inside { IfOk result (λ asks. asks.1.first + asks.1.count ≤ stack_size volume.now.rested.origin) }
    ensures count { IfOk result (λ asks. asks.1.count ≡ count) }
    ensures more { OnOk result ((asked.new ≡ asked.old + count) × (asked.new < 1_152_921_504_606_846_976)) }
    ensures same { OnErr result (asked.new ≡ asked.old) }
{
    match serves(role) {
        Ok(()) => {}
        Err(refusal) => return Err(refusal),
    }
    let range = match range_in(u64::from(sectors_of(volume.origin())), first, count) {
        Ok(range) => range,
        Err(refusal) => return Err(refusal),
    };
    let dev = match dev_of(volume, role) {
        Ok(dev) => dev,
        Err(refusal) => return Err(refusal),
    };
    match count_asked(asked, count) {
        Ok(()) => Ok((dev, range)),
        Err(refusal) => Err(refusal),
    }
}

impl NamedVolume {
    /// Reads so many sectors of the origin or of a snapshot, from `first` on. In this order: `BadTable` for disks and layers,
    /// `OutOfRange` for sectors past the end, `MergingSnapshot` for the snapshot that is being merged, `TooMany` where 2^60
    /// sectors were asked for in all; then, as the volume reads, `JournalFull`, `Invalid`, `Io` and `NoMemory`. Where requests
    /// are in flight, those that end in the meantime are told at the end of `ended`.
    pub fn read(
        &mut self,
        alloc: Global,
        role: Role,
        first: u32,
        count: u32,
        ended: &mut Vec<Replied>,
    ) -> Result<Buf, Refusal>
        requires role { IsRoleIn role self.old.shown }
        requires some { 0 < count }
        requires few { count ≤ 2048 }
        ensures done { self.old.shown.sound ≡ true → self.old.shown.quiet ≡ true → Serves result self.new.shown (λ v. (v ≡ self.old.shown) ⊎ IsReadAsked count self.old.shown v) (read_in role first count self.old.shown) }
        ensures among { self.old.shown.quiet ≡ false → IfOk (asked_of role first count self.old.shown) (λ asks. InBacked (ReadsAmong result ended.old.items ended.new.items asks) self.old self.new) }
        ensures at_rest { self.old.shown.quiet ≡ true → IfOk (asked_of role first count self.old.shown) (λ asks. InBacked (ReadsAtRest result asks) self.old self.new) }
        ensures counts { Counts role first count self.old self.new }
        ensures told { TellsNone self.old ended.old ended.new }
        ensures asks { MayAsk role first count self.old result }
        ensures denied { self.old.shown.quiet ≡ true → IfErr result (λ e. IfOk (asked_of role first count self.old.shown) (λ _. IsDenied e)) }
        ensures stays { IfErr (asked_of role first count self.old.shown) (λ _. (self.new ≡ self.old) × (ended.new.items ≡ ended.old.items)) }
        ensures quiet { StaysQuiet self.old.shown self.new.shown }
        ensures kept { KeepsNames self.old.shown self.new.shown }
        ensures full { IsFullIn result self.new.shown }
    {
        let (dev, range) = match ask(&self.volume, &mut self.asked, role, first, count) {
            Ok(asks) => asks,
            Err(refusal) => return Err(refusal),
        };
        if self.volume.is_quiet() {
            let did = self.volume.read(alloc, dev, range);
            look_at_places(&self.volume);
            return did;
        }
        let did = self.volume.read_among(alloc, dev, range, ended);
        look_at_places(&self.volume);
        did
    }

    /// Writes sectors of the origin or of a snapshot, from `first` on. Refused as a read is, and with `Overflow` where the
    /// snapshot's store overflows, or did before. The bytes are lent, as `volume_commands::Resting::write` says.
    pub fn write(
        &mut self,
        alloc: Global,
        role: Role,
        first: u32,
        count: u32,
        bytes: &mut Buf,
        ended: &mut Vec<Replied>,
    ) -> Result<(), Refusal>
        requires role { IsRoleIn role self.old.shown }
        requires some { 0 < count }
        requires few { count ≤ 2048 }
        requires room { length bytes.old ≡ 512 * count }
        ensures done { self.old.shown.sound ≡ true → self.old.shown.quiet ≡ true → Serves result self.new.shown (λ v. (v ≡ self.old.shown) ⊎ IsPartWritten role first count bytes.old self.old.shown v) (written_in role first count bytes.old self.old.shown) }
        ensures among { self.old.shown.quiet ≡ false → IfOk (asked_of role first count self.old.shown) (λ asks. InBacked (WritesAmong bytes.old result ended.old.items ended.new.items asks) self.old self.new) }
        ensures at_rest { self.old.shown.quiet ≡ true → IfOk (asked_of role first count self.old.shown) (λ asks. InBacked (WritesAtRest bytes.old result asks) self.old self.new) }
        ensures counts { Counts role first count self.old self.new }
        ensures told { TellsNone self.old ended.old ended.new }
        ensures asks { MayAsk role first count self.old result }
        ensures denied { self.old.shown.quiet ≡ true → IfErr result (λ e. IfOk (asked_of role first count self.old.shown) (λ _. IsDenied e)) }
        ensures stays { IfErr (asked_of role first count self.old.shown) (λ _. (self.new ≡ self.old) × (ended.new.items ≡ ended.old.items)) }
        ensures quiet { StaysQuiet self.old.shown self.new.shown }
        ensures kept { KeepsNames self.old.shown self.new.shown }
        ensures full { IsFullIn result self.new.shown }
    {
        let (dev, range) = match ask(&self.volume, &mut self.asked, role, first, count) {
            Ok(asks) => asks,
            Err(refusal) => return Err(refusal),
        };
        if self.volume.is_quiet() {
            let did = self.volume.write(alloc, dev, range, bytes);
            look_at_places(&self.volume);
            return did;
        }
        let did = self.volume.write_among(alloc, dev, range, bytes, ended);
        look_at_places(&self.volume);
        did
    }
    /// Flushes the origin, or a snapshot: what was written to it lasts. While a merge is begun, the merging store is flushed
    /// before the origin. Refused as a read of the first sector is, before the volume is asked and by it.
    pub fn flush(&mut self, role: Role, ended: &mut Vec<Replied>) -> Result<(), Refusal>
        requires role { IsRoleIn role self.old.shown }
        ensures done { self.old.shown.sound ≡ true → self.old.shown.quiet ≡ true → Serves result self.new.shown (λ v. (v ≡ self.old.shown) ⊎ IsReadAsked 1 self.old.shown v) (flushed_in role self.old.shown) }
        ensures among { self.old.shown.quiet ≡ false → IfOk (asked_of role 0 1 self.old.shown) (λ asks. InBacked (FlushesAmong result ended.old.items ended.new.items asks) self.old self.new) }
        ensures at_rest { self.old.shown.quiet ≡ true → IfOk (asked_of role 0 1 self.old.shown) (λ asks. InBacked (FlushesAtRest result asks) self.old self.new) }
        ensures counts { Counts role 0 1 self.old self.new }
        ensures told { TellsNone self.old ended.old ended.new }
        ensures asks { MayAsk role 0 1 self.old result }
        ensures denied { self.old.shown.quiet ≡ true → IfErr result (λ e. IfOk (asked_of role 0 1 self.old.shown) (λ _. IsDenied e)) }
        ensures stays { IfErr (asked_of role 0 1 self.old.shown) (λ _. (self.new ≡ self.old) × (ended.new.items ≡ ended.old.items)) }
        ensures quiet { StaysQuiet self.old.shown self.new.shown }
        ensures kept { KeepsNames self.old.shown self.new.shown }
        ensures full { IsFullIn result self.new.shown }
    {
        let (dev, _range) = match ask(&self.volume, &mut self.asked, role, 0, 1) {
            Ok(asks) => asks,
            Err(refusal) => return Err(refusal),
        };
        if self.volume.is_quiet() {
            let did = self.volume.flush(dev);
            look_at_places(&self.volume);
            return did;
        }
        let did = self.volume.flush_among(dev, ended);
        look_at_places(&self.volume);
        did
    }
}
