// Reading, writing and flushing origins and snapshots.
ghost use Rattle.std.specs.Prelude.{◌≡◌, ◌⊎◌, ◌<◌, ◌≤◌, ◌*◌, length, true, Err, IfErr, IfOk};
ghost use Rattle.sector.specs.declared.refusal.Refusal.TheVariants.{JournalFull};
ghost use Rattle.command_semantics.specs.Changes.{Serves};
ghost use Rattle.command_semantics.specs.Places.{IsPlaceIn, volume_at};
ghost use Rattle.command_semantics.specs.Sectors.{IsFlushStarved, IsInVolume, IsPartWritten, IsReadAsked, IsReadStarved, IsWriteStarved, flush, flushed_in, in_volume, read, read_in, write, written_in};
ghost use Rattle.command_semantics.specs.Starting.{asked_at, flush_asked, read_asked, write_asked};
ghost use Rattle.command_semantics.specs.declared.place.Place.TheVariants.{In};
ghost use Rattle.device_list.specs.Flights.{IsDenied};
ghost use Rattle.device_list.specs.Tables.{StaysNamed, StaysSound, table_of};
ghost use Rattle.device_commands.specs.Asked.{IsFullAt, IsFullFor};
ghost use Rattle.device_commands.specs.Devices.{ChangesOne, KeepsNamesAt, MayAsk};
ghost use Rattle.device_commands.specs.Flights.{IsDoneFor, IsFlushedAmong, IsReadAmong, IsWrittenAmong, TellsNoneAt};
ghost use Rattle.device_commands.specs.Order.{IsOrderedFor};
ghost use Rattle.device_commands.specs.Ruled.{is_quiet_in, is_sound_in, volume_for};

use crate::order::find_in_order;
use command_semantics::{Place, Role};
use device_list::{Devices, find_device};
use device_stacks::{some_sectors, whole_sectors};
use plain_machine::Replied;
use sector::{Buf, Refusal};
use std::alloc::Global;
use words::Name;

/// Reads sectors of a device of a volume.
fn read_at(
    alloc: Global,
    held: &mut Devices,
    v: usize,
    role: Role,
    first: u32,
    count: u32,
    ended: &mut Vec<Replied>,
) -> Result<Buf, Refusal>
    requires place { IsPlaceIn (In v role) (table_of held.old) }
    requires some { 0 < count }
    requires few { count ≤ 2048 }
    ensures done { is_sound_in (volume_at v (table_of held.old)) ≡ true → Serves result (table_of held.new) (λ t. (t ≡ table_of held.old) ⊎ IsInVolume (IsReadAsked count) v (table_of held.old) t (volume_at v (table_of held.old))) (in_volume v (table_of held.old) (read_in role first count) (volume_at v (table_of held.old))) }
    ensures told { TellsNoneAt v held.old ended.old ended.new }
    ensures asks { MayAsk v role first count held.old result }
    ensures stays { IfErr (asked_at (In v role) first count (table_of held.old)) (λ _. (table_of held.new ≡ table_of held.old) × (ended.new.items ≡ ended.old.items)) }
    ensures among { IfOk (asked_at (In v role) first count (table_of held.old)) (λ asks. IsInVolume (IsReadAmong result ended.old.items ended.new.items asks) v (table_of held.old) (table_of held.new) (volume_at v (table_of held.old))) }
    ensures denied { is_quiet_in (volume_at v (table_of held.old)) ≡ true → IfErr result (λ e. IfOk (asked_at (In v role) first count (table_of held.old)) (λ _. IsDenied e)) }
    ensures one { KeepsNamesAt v held.old held.new }
    ensures sound { StaysSound held.old held.new }
    ensures named { StaysNamed held.old held.new }
    ensures full { IsFullAt v result held.new }
{
    held.volumes[v].read(alloc, role, first, count, ended)
}

/// `read DEV S N`: so many sectors of an origin or of a snapshot. In this order: `OutOfRange` for a number of sectors
/// outside 1 to 2048, `NoSuchDevice` for a name that no device has, `BadTable` for a disk or a layer. Then `OutOfRange` where
/// the sectors don't lie inside the origin, `MergingSnapshot` for a snapshot that is being merged, `TooMany` where the volume
/// has taken too many, and what its devices answer. Devices are met also where they answer with an error; `NoMemory`, and
/// `JournalFull` where the volume's journal has no room for a piece, may come before and after that. Requests that are in flight
/// may end in it: their replies go to the end of `ended`.
#[tactic(auto, unfolding(command_semantics::specs::Starting::read_asked, command_semantics::specs::Starting::asked_by, command_semantics::specs::Sectors::read, command_semantics::specs::Sectors::IsReadStarved, crate::specs::Devices::KeepsOthers))]
pub fn read_device(
    alloc: Global,
    held: &mut Devices,
    name: &Name,
    first: u32,
    count: u32,
    ended: &mut Vec<Replied>,
) -> Result<Buf, Refusal>
    ensures done { is_sound_in (volume_for name.now (table_of held.old)) ≡ true → Serves result (table_of held.new) (λ t. (t ≡ table_of held.old) ⊎ IsReadStarved name.now first count (table_of held.old) t) (read name.now first count (table_of held.old)) }
    ensures told { is_quiet_in (volume_for name.now (table_of held.old)) ≡ true → ended.new.items ≡ ended.old.items }
    ensures asks { IfErr (read_asked name.now first count (table_of held.old)) (λ e. result ≡ Err e) }
    ensures stays { IfErr (read_asked name.now first count (table_of held.old)) (λ _. (table_of held.new ≡ table_of held.old) × (ended.new.items ≡ ended.old.items)) }
    ensures among { IfOk (read_asked name.now first count (table_of held.old)) (λ asks. IsDoneFor name.now (IsReadAmong result ended.old.items ended.new.items asks) (table_of held.old) (table_of held.new)) }
    ensures denied { is_quiet_in (volume_for name.now (table_of held.old)) ≡ true → IfErr result (λ e. IfOk (read_asked name.now first count (table_of held.old)) (λ _. IsDenied e)) }
    ensures one { ChangesOne name.now held.old held.new }
    ensures sound { StaysSound held.old held.new }
    ensures named { StaysNamed held.old held.new }
    ensures full { IsFullFor name.now result held.old held.new }
{
    let count = some_sectors(count)?;
    let Place::In(v, role) = find_device(held, name)? else {
        return Err(Refusal::BadTable);
    };
    read_at(alloc, held, v, role, first, count, ended)
}

/// Writes sectors of a device of a volume.
fn write_at(
    alloc: Global,
    held: &mut Devices,
    v: usize,
    role: Role,
    first: u32,
    count: u32,
    bytes: &mut Buf,
    ended: &mut Vec<Replied>,
) -> Result<(), Refusal>
    requires place { IsPlaceIn (In v role) (table_of held.old) }
    requires some { 0 < count }
    requires few { count ≤ 2048 }
    requires room { length bytes.old ≡ 512 * count }
    ensures done { is_sound_in (volume_at v (table_of held.old)) ≡ true → Serves result (table_of held.new) (λ t. (t ≡ table_of held.old) ⊎ IsInVolume (IsPartWritten role first count bytes.old) v (table_of held.old) t (volume_at v (table_of held.old))) (in_volume v (table_of held.old) (written_in role first count bytes.old) (volume_at v (table_of held.old))) }
    ensures told { TellsNoneAt v held.old ended.old ended.new }
    ensures asks { MayAsk v role first count held.old result }
    ensures stays { IfErr (asked_at (In v role) first count (table_of held.old)) (λ _. (table_of held.new ≡ table_of held.old) × (ended.new.items ≡ ended.old.items)) }
    ensures among { IfOk (asked_at (In v role) first count (table_of held.old)) (λ asks. IsInVolume (IsWrittenAmong bytes.old result ended.old.items ended.new.items asks) v (table_of held.old) (table_of held.new) (volume_at v (table_of held.old))) }
    ensures denied { is_quiet_in (volume_at v (table_of held.old)) ≡ true → IfErr result (λ e. IfOk (asked_at (In v role) first count (table_of held.old)) (λ _. IsDenied e)) }
    ensures one { KeepsNamesAt v held.old held.new }
    ensures sound { StaysSound held.old held.new }
    ensures named { StaysNamed held.old held.new }
    ensures full { IsFullAt v result held.new }
{
    held.volumes[v].write(alloc, role, first, count, bytes, ended)
}

/// `write DEV S DATA`: writes sectors of an origin or of a snapshot. In this order: `BadTable` for bytes that are no whole
/// sectors, `OutOfRange` where they are not 1 to 2048, `NoSuchDevice` for a name that no device has, `BadTable` for a disk
/// or a layer. Then `OutOfRange` where the sectors don't lie inside the origin, `MergingSnapshot` for a snapshot that is being
/// merged, `TooMany` where the volume has taken too many, and what its devices answer. `NoMemory` and `JournalFull` may come
/// where some first pieces were written. Requests that are in flight may end in it: their replies go to the end of `ended`. The
/// bytes are lent: many of them leave their memory to the caller.
#[tactic(auto, unfolding(command_semantics::specs::Starting::write_asked, command_semantics::specs::Starting::asked_by, command_semantics::specs::Sectors::write, command_semantics::specs::Sectors::IsWriteStarved, crate::specs::Devices::KeepsOthers))]
pub fn write_device(
    alloc: Global,
    held: &mut Devices,
    name: &Name,
    first: u32,
    bytes: &mut Buf,
    ended: &mut Vec<Replied>,
) -> Result<(), Refusal>
    ensures done { is_sound_in (volume_for name.now (table_of held.old)) ≡ true → Serves result (table_of held.new) (λ t. (t ≡ table_of held.old) ⊎ IsWriteStarved name.now first bytes.old (table_of held.old) t) (write name.now first bytes.old (table_of held.old)) }
    ensures told { is_quiet_in (volume_for name.now (table_of held.old)) ≡ true → ended.new.items ≡ ended.old.items }
    ensures asks { IfErr (write_asked name.now first bytes.old (table_of held.old)) (λ e. result ≡ Err e) }
    ensures stays { IfErr (write_asked name.now first bytes.old (table_of held.old)) (λ _. (table_of held.new ≡ table_of held.old) × (ended.new.items ≡ ended.old.items)) }
    ensures among { IfOk (write_asked name.now first bytes.old (table_of held.old)) (λ asks. IsDoneFor name.now (IsWrittenAmong bytes.old result ended.old.items ended.new.items asks) (table_of held.old) (table_of held.new)) }
    ensures denied { is_quiet_in (volume_for name.now (table_of held.old)) ≡ true → IfErr result (λ e. IfOk (write_asked name.now first bytes.old (table_of held.old)) (λ _. IsDenied e)) }
    ensures one { ChangesOne name.now held.old held.new }
    ensures ordered { IsOrderedFor name.now held.old }
    ensures sound { StaysSound held.old held.new }
    ensures named { StaysNamed held.old held.new }
    ensures full { IsFullFor name.now result held.old held.new }
{
    let place = find_in_order(held, name);
    let count = whole_sectors(bytes.as_slice())?;
    match place? {
        Place::Free(_, _) => Err(Refusal::BadTable),
        Place::In(v, role) => write_at(alloc, held, v, role, first, count, bytes, ended),
    }
}

/// Flushes a device of a volume.
fn flush_at(
    held: &mut Devices,
    v: usize,
    role: Role,
    ended: &mut Vec<Replied>,
) -> Result<(), Refusal>
    requires place { IsPlaceIn (In v role) (table_of held.old) }
    ensures done { is_sound_in (volume_at v (table_of held.old)) ≡ true → Serves result (table_of held.new) (λ t. (t ≡ table_of held.old) ⊎ IsInVolume (IsReadAsked 1) v (table_of held.old) t (volume_at v (table_of held.old))) (in_volume v (table_of held.old) (flushed_in role) (volume_at v (table_of held.old))) }
    ensures told { TellsNoneAt v held.old ended.old ended.new }
    ensures asks { MayAsk v role 0 1 held.old result }
    ensures stays { IfErr (asked_at (In v role) 0 1 (table_of held.old)) (λ _. (table_of held.new ≡ table_of held.old) × (ended.new.items ≡ ended.old.items)) }
    ensures among { IfOk (asked_at (In v role) 0 1 (table_of held.old)) (λ asks. IsInVolume (IsFlushedAmong result ended.old.items ended.new.items asks) v (table_of held.old) (table_of held.new) (volume_at v (table_of held.old))) }
    ensures denied { is_quiet_in (volume_at v (table_of held.old)) ≡ true → IfErr result (λ e. IfOk (asked_at (In v role) 0 1 (table_of held.old)) (λ _. IsDenied e)) }
    ensures one { KeepsNamesAt v held.old held.new }
    ensures sound { StaysSound held.old held.new }
    ensures named { StaysNamed held.old held.new }
    ensures full { IsFullAt v result held.new }
{
    held.volumes[v].flush(role, ended)
}

/// `flush DEV`: makes what was written to an origin or to a snapshot last: of an origin whose merge is begun, the merging store
/// is flushed, and then the origin. In this order: `NoSuchDevice` for a name that no device has, `BadTable` for a disk or a
/// layer, `OutOfRange` where the origin has no sector, `MergingSnapshot` for a snapshot that is being merged. Then `TooMany` where
/// the volume has taken too many, `JournalFull` and what its devices answer; `NoMemory` may come before that, where
/// something is in flight. Requests that are in flight may end in it: their replies go to the end of `ended`.
#[inline(never)]
#[tactic(auto, unfolding(command_semantics::specs::Starting::flush_asked, command_semantics::specs::Starting::asked_by, command_semantics::specs::Sectors::flush, command_semantics::specs::Sectors::IsFlushStarved, crate::specs::Devices::KeepsOthers))]
pub fn flush_device(
    held: &mut Devices,
    name: &Name,
    ended: &mut Vec<Replied>,
) -> Result<(), Refusal>
    ensures done { is_sound_in (volume_for name.now (table_of held.old)) ≡ true → Serves result (table_of held.new) (λ t. (t ≡ table_of held.old) ⊎ IsFlushStarved name.now (table_of held.old) t) (flush name.now (table_of held.old)) }
    ensures told { is_quiet_in (volume_for name.now (table_of held.old)) ≡ true → ended.new.items ≡ ended.old.items }
    ensures asks { IfErr (flush_asked name.now (table_of held.old)) (λ e. result ≡ Err e) }
    ensures stays { IfErr (flush_asked name.now (table_of held.old)) (λ _. (table_of held.new ≡ table_of held.old) × (ended.new.items ≡ ended.old.items)) }
    ensures among { IfOk (flush_asked name.now (table_of held.old)) (λ asks. IsDoneFor name.now (IsFlushedAmong result ended.old.items ended.new.items asks) (table_of held.old) (table_of held.new)) }
    ensures denied { is_quiet_in (volume_for name.now (table_of held.old)) ≡ true → IfErr result (λ e. IfOk (flush_asked name.now (table_of held.old)) (λ _. IsDenied e)) }
    ensures one { ChangesOne name.now held.old held.new }
    ensures sound { StaysSound held.old held.new }
    ensures named { StaysNamed held.old held.new }
    ensures full { IsFullFor name.now result held.old held.new }
{
    match find_device(held, name)? {
        Place::Free(_, _) => Err(Refusal::BadTable),
        Place::In(v, role) => flush_at(held, v, role, ended),
    }
}
