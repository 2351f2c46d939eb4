// Requests that one command starts and later ones end, and the events of a volume, one by one.
ghost use Rattle.std.specs.Prelude.{◌≡◌, ◌≢◌, ◌<◌, ◌≤◌, ◌*◌, ◌&&◌, ℕ, List, length, is_ok, not, IfSome, IfNone, true, false, Some, Ok, Err, IfOk, IfErr, OnOk, OnErr, MatchResult};
ghost use Rattle.std.specs.Option.{option_copied};
ghost use Rattle.plain_machine.specs.declared.request.Op.TheVariants.{Read, Write};
ghost use Rattle.sector.specs.declared.refusal.Refusal.TheVariants.{JournalFull, NoMemory};
ghost use Rattle.command_semantics.specs.Changes.{Changes, Does, refused};
ghost use Rattle.command_semantics.specs.Events.{event_asked, event_at, is_merge_event, none_due, numbered, origin_at, origin_by, rested, settle, snapshot_at, snapshot_named, step_event};
ghost use Rattle.command_semantics.specs.Places.{IsPlaceIn, volume_at};
ghost use Rattle.command_semantics.specs.Sectors.{IsInVolume};
ghost use Rattle.command_semantics.specs.Sound.{is_sound};
ghost use Rattle.command_semantics.specs.Starting.{asked_at, read_asked, write_asked};
ghost use Rattle.command_semantics.specs.declared.place.Place.TheVariants.{In};
ghost use Rattle.command_semantics.specs.declared.place.Role.TheVariants.{Merging, Origin, Snapshot};
ghost use Rattle.device_list.specs.Flights.{IsSettledBy, IsStepped};
ghost use Rattle.device_list.specs.Tables.{StaysNamed, StaysSound, table_of};
ghost use Rattle.device_commands.specs.Asked.{IsFullAt, IsFullFor};
ghost use Rattle.device_commands.specs.Devices.{ChangesOne, Flies, IsOfVolume, KeepsNamesAt, MayAsk, NeedsOrigin, StaysOnErr};
ghost use Rattle.device_commands.specs.Flights.{IsDoneFor, IsNotDueIn, IsNotStartedAs, IsStartedAs, StaysSoundBy, TellsNoneAt, event_of, is_about_merging, number_about};
ghost use Rattle.device_commands.specs.Merging.{settled_at};
ghost use Rattle.device_commands.specs.Order.{IsOrderedFor};
ghost use Rattle.device_commands.specs.Ruled.{is_alone_in, is_quiet_in, is_sound_in, rests_at, volume_for};
ghost use Rattle.volume.specs.EventKinds.{is_of_merge};

use crate::order::find_in_order;
use command::EventWords;
use command_semantics::{Place, Role};
use device_list::{Devices, find_device};
use device_stacks::{some_sectors, whole_sectors};
use plain_machine::{NotDue, Op, Outcome, Replied, ReqId, SnapId};
use sector::{Buf, Refusal};
use std::alloc::Global;
use words::Name;

/// Starts a request of a device of a volume.
fn start_at(
    alloc: Global,
    held: &mut Devices,
    v: usize,
    role: Role,
    first: u32,
    count: u32,
    op: Op,
) -> Result<ReqId, Refusal>
    requires place { IsPlaceIn (In v role) (table_of held.old) }
    requires some { 0 < count }
    requires few { count ≤ 2048 }
    requires bytes { (b : List ℕ) → op ≡ Write b → length b ≡ 512 * count }
    ensures asks { MayAsk v role first count held.old result }
    ensures stays { IfErr (asked_at (In v role) first count (table_of held.old)) (λ _. table_of held.new ≡ table_of held.old) }
    ensures started { IfOk result (λ number. IfOk (asked_at (In v role) first count (table_of held.old)) (λ asks. IsInVolume (IsStartedAs op number asks) v (table_of held.old) (table_of held.new) (volume_at v (table_of held.old)))) }
    ensures refused { IfErr result (λ e. IfOk (asked_at (In v role) first count (table_of held.old)) (λ asks. IsInVolume (IsNotStartedAs op e asks) v (table_of held.old) (table_of held.new) (volume_at v (table_of held.old)))) }
    ensures flies { OnOk result (IsInVolume (λ was now. now.quiet ≡ false) v (table_of held.old) (table_of held.new) (volume_at v (table_of held.old))) }
    ensures one { KeepsNamesAt v held.old held.new }
    ensures named { StaysNamed held.old held.new }
    ensures full { IsFullAt v result held.new }
{
    held.volumes[v].start(alloc, role, first, count, op)
}

/// `start DEV read S N`: starts a read of an origin or of a snapshot, and gives its number; it ends in a later command. In
/// this order: `OutOfRange` for a number of sectors outside 1 to 2048, `NoSuchDevice` for a name that no device has,
/// `BadTable` for a disk or a layer. Then `OutOfRange` where the sectors don't lie inside the origin, `MergingSnapshot` for a
/// snapshot that is being merged, `TooMany` where the volume has taken too many, and as the volume refuses requests.
#[tactic(auto, unfolding(command_semantics::specs::Starting::read_asked, command_semantics::specs::Starting::asked_by, crate::specs::Devices::Flies, crate::specs::Devices::KeepsOthers))]
pub fn start_read(
    alloc: Global,
    held: &mut Devices,
    name: &Name,
    first: u32,
    count: u32,
) -> Result<ReqId, Refusal>
    ensures asks { IfErr (read_asked name.now first count (table_of held.old)) (λ e. result ≡ Err e) }
    ensures stays { IfErr (read_asked name.now first count (table_of held.old)) (λ _. table_of held.new ≡ table_of held.old) }
    ensures started { IfOk result (λ number. IfOk (read_asked name.now first count (table_of held.old)) (λ asks. IsDoneFor name.now (IsStartedAs Read number asks) (table_of held.old) (table_of held.new))) }
    ensures refused { IfErr result (λ e. IfOk (read_asked name.now first count (table_of held.old)) (λ asks. IsDoneFor name.now (IsNotStartedAs Read e asks) (table_of held.old) (table_of held.new))) }
    ensures flies { OnOk result (Flies name.now (table_of held.old) (table_of held.new)) }
    ensures one { ChangesOne name.now held.old held.new }
    ensures named { StaysNamed held.old held.new }
    ensures full { IsFullFor name.now result held.old held.new }
{
    let count = some_sectors(count)?;
    match find_device(held, name)? {
        Place::Free(_, _) => Err(Refusal::BadTable),
        Place::In(v, role) => start_at(alloc, held, v, role, first, count, Op::Read),
    }
}

/// `start DEV write S DATA`: starts a write of an origin or of a snapshot, and gives its number; it ends in a later command.
/// In this order: `BadTable` for bytes that are no whole sectors, `OutOfRange` where they are not 1 to 2048, then as a read.
#[tactic(auto, unfolding(command_semantics::specs::Starting::write_asked, command_semantics::specs::Starting::asked_by, crate::specs::Devices::Flies, crate::specs::Devices::KeepsOthers))]
pub fn start_write(
    alloc: Global,
    held: &mut Devices,
    name: &Name,
    first: u32,
    bytes: Buf,
) -> Result<ReqId, Refusal>
    ensures asks { IfErr (write_asked name.now first bytes (table_of held.old)) (λ e. result ≡ Err e) }
    ensures stays { IfErr (write_asked name.now first bytes (table_of held.old)) (λ _. table_of held.new ≡ table_of held.old) }
    ensures started { IfOk result (λ number. IfOk (write_asked name.now first bytes (table_of held.old)) (λ asks. IsDoneFor name.now (IsStartedAs (Write bytes) number asks) (table_of held.old) (table_of held.new))) }
    ensures refused { IfErr result (λ e. IfOk (write_asked name.now first bytes (table_of held.old)) (λ asks. IsDoneFor name.now (IsNotStartedAs (Write bytes) e asks) (table_of held.old) (table_of held.new))) }
    ensures flies { OnOk result (Flies name.now (table_of held.old) (table_of held.new)) }
    ensures one { ChangesOne name.now held.old held.new }
    ensures named { StaysNamed held.old held.new }
    ensures full { IsFullFor name.now result held.old held.new }
{
    let count = whole_sectors(bytes.as_slice())?;
    match find_device(held, name)? {
        Place::Free(_, _) => Err(Refusal::BadTable),
        Place::In(v, role) => start_at(alloc, held, v, role, first, count, Op::Write(bytes)),
    }
}

/// The volume of the origin at a place. `BadTable` for another device.
pub fn origin_at(place: Place) -> Result<usize, Refusal>
    ensures value { result ≡ origin_at place }
    ensures place { IfOk result (λ v. place ≡ In v Origin) }
    ensures room { IfErr result (λ e. e ≢ JournalFull) }
{
    match place {
        Place::In(v, Role::Origin) => Ok(v),
        _ => Err(Refusal::BadTable),
    }
}

/// The volume of the snapshot at a place, and the snapshot's place in it; one that is being merged has none. `BadTable` for
/// another device.
fn snapshot_at(place: Place) -> Result<(usize, Option<usize>), Refusal>
    ensures value { MatchResult result (λ at. snapshot_at place ≡ Ok at.0) (λ e. snapshot_at place ≡ Err e) }
    ensures place { IfOk result (λ at. IfSome at.1 (λ k. place ≡ In at.0 (Snapshot k))) }
    ensures merging { IfOk result (λ at. IfNone at.1 (place ≡ In at.0 Merging)) }
{
    match place {
        Place::In(v, Role::Snapshot(k)) => Ok((v, Some(k))),
        Place::In(v, Role::Merging) => Ok((v, None)),
        _ => Err(Refusal::BadTable),
    }
}

/// The name of the snapshot that an event is about, if it is about one.
fn snapshot_named(event: &EventWords) -> Option<&Name>
    ensures { option_copied result ≡ snapshot_named event.now }
{
    match event {
        EventWords::ZeroNext(name) | EventWords::WriteArea(name) => Some(name),
        EventWords::WriteInvalid(name) | EventWords::FlushStore(name) => Some(name),
        EventWords::Issue(_)
        | EventWords::CopyRead(_)
        | EventWords::CopyWrite(_)
        | EventWords::Publish(_) => None,
        EventWords::MergeGroup
        | EventWords::MergeAreaRead
        | EventWords::MergeRead
        | EventWords::MergeWrite => None,
        EventWords::MergeFlush | EventWords::MergeCommit | EventWords::MergeRelease => None,
    }
}

/// An event as its volume knows it, with the number of the snapshot that it is about, if it is about one.
fn numbered(event: &EventWords, number: SnapId) -> plain_machine::Event
    ensures value { result ≡ numbered event.now number }
    ensures merging { is_of_merge result ≡ is_merge_event event.now }
{
    match event {
        EventWords::Issue(request) => plain_machine::Event::Issue(u64::from(*request)),
        EventWords::CopyRead(copy) => plain_machine::Event::CopyRead(u64::from(*copy)),
        EventWords::CopyWrite(copy) => plain_machine::Event::CopyWrite(u64::from(*copy)),
        EventWords::Publish(copy) => plain_machine::Event::Publish(u64::from(*copy)),
        EventWords::ZeroNext(_) => plain_machine::Event::ZeroNext(number),
        EventWords::WriteArea(_) => plain_machine::Event::WriteArea(number),
        EventWords::WriteInvalid(_) => plain_machine::Event::WriteInvalid(number),
        EventWords::FlushStore(_) => plain_machine::Event::FlushStore(number),
        EventWords::MergeGroup => plain_machine::Event::MergeGroup,
        EventWords::MergeAreaRead => plain_machine::Event::MergeAreaRead,
        EventWords::MergeRead => plain_machine::Event::MergeRead,
        EventWords::MergeWrite => plain_machine::Event::MergeWrite,
        EventWords::MergeFlush => plain_machine::Event::MergeFlush,
        EventWords::MergeCommit => plain_machine::Event::MergeCommit,
        EventWords::MergeRelease => plain_machine::Event::MergeRelease,
    }
}

/// The volume of the origin at a place, and the number of the snapshot of a name in it. `NotDue` for a snapshot of another
/// volume, and for one that is being merged.
#[tactic(auto, using(device_list::proofs::Showing::shown_there))]
fn about(held: &Devices, place: Place, snapshot: &Name) -> Result<(usize, SnapId), Refusal>
    requires { IsPlaceIn place (table_of held.now) }
    ensures value { MatchResult result (λ at. event_at place (Some snapshot.now) (table_of held.now) ≡ Ok at.0) (λ e. none_due (event_at place (Some snapshot.now) (table_of held.now)) ≡ e) }
    ensures within { IsOfVolume result held.now }
    ensures place { IfOk result (λ at. place ≡ In at.0 Origin) }
    ensures number { IfOk result (λ at. at.1 ≡ number_about (Some snapshot.now) (table_of held.now)) }
    ensures other { IfOk result (λ at. is_about_merging (Some snapshot.now) (table_of held.now) ≡ false) }
    ensures merging { OnErr result (IfOk (event_at place (Some snapshot.now) (table_of held.now)) (λ v. is_about_merging (Some snapshot.now) (table_of held.now) ≡ true)) }
{
    let other = find_device(held, snapshot)?;
    let v = origin_at(place)?;
    let (w, k) = snapshot_at(other)?;
    if v != w {
        return Err(Refusal::NotDue);
    }
    match k {
        Some(k) => Ok((v, held.volumes[w].number(k))),
        None => Err(Refusal::NotDue),
    }
}

/// The volume that an event is asked of, and the number of the snapshot that it is about; 0 where it is about none. `NotDue`
/// as for the snapshot.
fn asked(held: &Devices, place: Place, event: &EventWords) -> Result<(usize, SnapId), Refusal>
    requires { IsPlaceIn place (table_of held.now) }
    ensures value { MatchResult result (λ at. event_at place (snapshot_named event.now) (table_of held.now) ≡ Ok at.0) (λ e. none_due (event_at place (snapshot_named event.now) (table_of held.now)) ≡ e) }
    ensures within { IsOfVolume result held.now }
    ensures place { IfOk result (λ at. place ≡ In at.0 Origin) }
    ensures number { IfOk result (λ at. at.1 ≡ number_about (snapshot_named event.now) (table_of held.now)) }
    ensures other { IfOk result (λ at. is_about_merging (snapshot_named event.now) (table_of held.now) ≡ false) }
    ensures merging { OnErr result (IfOk (event_at place (snapshot_named event.now) (table_of held.now)) (λ v. is_about_merging (snapshot_named event.now) (table_of held.now) ≡ true)) }
{
    match snapshot_named(event) {
        None => Ok((origin_at(place)?, 0)),
        Some(snapshot) => about(held, place, snapshot),
    }
}

/// Does an event of a volume.
fn step_at(held: &mut Devices, v: usize, event: plain_machine::Event) -> Result<Outcome, NotDue>
    requires { v < length (table_of held.old).volumes }
    ensures idle { is_quiet_in (volume_at v (table_of held.old)) ≡ true → is_of_merge event ≡ false → is_ok result ≡ false }
    ensures stepped { IfOk result (λ outcome. IsInVolume (IsStepped event outcome) v (table_of held.old) (table_of held.new) (volume_at v (table_of held.old))) }
    ensures due { (not (is_of_merge event) && is_quiet_in (volume_at v (table_of held.old))) ≡ false → OnErr result (IsNotDueIn event (volume_at v (table_of held.old))) }
    ensures same { OnErr result (table_of held.new ≡ table_of held.old) }
    ensures one { KeepsNamesAt v held.old held.new }
    ensures sound { is_of_merge event ≡ false → is_sound (table_of held.old) ≡ true → is_sound (table_of held.new) ≡ true }
    ensures named { StaysNamed held.old held.new }
{
    held.volumes[v].step(event)
}

/// `step VOL EVENT`: does one event of an origin's volume. In this order: `NoSuchDevice` for a name that no device has, the
/// volume's before the snapshot's, and `BadTable` where the one is no origin or the other no snapshot. Then `NotDue` for a snapshot
/// of another volume, for one that is being merged and for an event that is not due. A refusal changes nothing.
#[tactic(auto, unfolding(command_semantics::specs::Events::event_asked, command_semantics::specs::Events::step_event, crate::specs::Devices::KeepsOthers))]
pub fn step_device(held: &mut Devices, name: &Name, event: &EventWords) -> Result<Outcome, Refusal>
    ensures asks { IfErr (event_asked name.now event.now (table_of held.old)) (λ e. result ≡ Err e) }
    ensures done { is_merge_event event.now ≡ false → is_quiet_in (volume_for name.now (table_of held.old)) ≡ true → Does result (table_of held.new) (λ t. t ≡ table_of held.old) (refused (table_of held.old) (step_event name.now event.now (table_of held.old))) }
    ensures refused { IfErr result (λ e. e ≡ step_event name.now event.now (table_of held.old)) }
    ensures merging { is_about_merging (snapshot_named event.now) (table_of held.old) ≡ true → is_ok result ≡ false }
    ensures stepped { IfOk result (λ outcome. IsDoneFor name.now (IsStepped (event_of event.now (table_of held.old)) outcome) (table_of held.old) (table_of held.new)) }
    ensures due { OnErr result (IfOk (event_asked name.now event.now (table_of held.old)) (λ v. is_about_merging (snapshot_named event.now) (table_of held.old) ≡ false → (not (is_merge_event event.now) && is_quiet_in (volume_at v (table_of held.old))) ≡ false → IsNotDueIn (event_of event.now (table_of held.old)) (volume_at v (table_of held.old)))) }
    ensures err { StaysOnErr result held.old held.new }
    ensures one { ChangesOne name.now held.old held.new }
    ensures sound { StaysSoundBy event.now held.old held.new }
    ensures named { StaysNamed held.old held.new }
{
    let place = find_device(held, name)?;
    let (v, number) = asked(held, place, event)?;
    match step_at(held, v, numbered(event, number)) {
        Ok(outcome) => Ok(outcome),
        Err(NotDue) => Err(Refusal::NotDue),
    }
}

/// Does all events of a volume that are left to do, those of its merge too.
fn settle_at(held: &mut Devices, v: usize, ended: &mut Vec<Replied>) -> Result<(), Refusal>
    requires { v < length (table_of held.old).volumes }
    ensures done { is_sound_in (volume_at v (table_of held.old)) ≡ true → Changes result (table_of held.old) (table_of held.new) (settled_at v (table_of held.old)) }
    ensures told { TellsNoneAt v held.old ended.old ended.new }
    ensures idle { is_quiet_in (volume_at v (table_of held.old)) ≡ true → is_ok result ≡ true }
    ensures alone { is_alone_in (volume_at v (table_of held.old)) ≡ true → table_of held.new ≡ table_of held.old }
    ensures drained { OnOk result (IsInVolume (IsSettledBy ended.old.items ended.new.items) v (table_of held.old) (table_of held.new) (volume_at v (table_of held.old))) }
    ensures err { IfErr result (λ e. (e ≡ NoMemory) × (table_of held.new ≡ table_of held.old) × (ended.new.items ≡ ended.old.items)) }
    ensures rested { OnOk result (rests_at v (table_of held.new) ≡ Ok tt) }
    ensures one { KeepsNamesAt v held.old held.new }
    ensures sound { StaysSound held.old held.new }
    ensures named { StaysNamed held.old held.new }
{
    held.volumes[v].settle(ended)
}

/// `settle VOL`: does all events of an origin's volume that are left to do: its merge, if one is begun, goes on up to its end,
/// or to the first operation of it that fails. The replies to requests that end in it go to the end of `ended`. In this order:
/// `NoSuchDevice` for a name that no device has, `BadTable` for a device that is no origin, `NoMemory` where something is in flight
/// and the allocator refuses room for the replies. A refusal changes nothing.
#[inline(never)]
#[tactic(auto, unfolding(command_semantics::specs::Events::origin_by, command_semantics::specs::Events::rested, command_semantics::specs::Events::settle, crate::specs::Devices::KeepsOthers))]
pub fn settle_device(
    held: &mut Devices,
    name: &Name,
    ended: &mut Vec<Replied>,
) -> Result<(), Refusal>
    ensures asks { NeedsOrigin name.now held.old result }
    ensures stays { IfErr (origin_by name.now (table_of held.old)) (λ _. (table_of held.new ≡ table_of held.old) × (ended.new.items ≡ ended.old.items)) }
    ensures done { is_sound_in (volume_for name.now (table_of held.old)) ≡ true → Changes result (table_of held.old) (table_of held.new) (settle name.now (table_of held.old)) }
    ensures told { is_quiet_in (volume_for name.now (table_of held.old)) ≡ true → ended.new.items ≡ ended.old.items }
    ensures idle { IfOk (origin_by name.now (table_of held.old)) (λ v. is_quiet_in (volume_at v (table_of held.old)) ≡ true → is_ok result ≡ true) }
    ensures alone { is_alone_in (volume_for name.now (table_of held.old)) ≡ true → table_of held.new ≡ table_of held.old }
    ensures drained { OnOk result (IsDoneFor name.now (IsSettledBy ended.old.items ended.new.items) (table_of held.old) (table_of held.new)) }
    ensures err { OnErr result ((table_of held.new ≡ table_of held.old) × (ended.new.items ≡ ended.old.items)) }
    ensures refused { IfErr result (λ e. IfOk (origin_by name.now (table_of held.old)) (λ _. e ≡ NoMemory)) }
    ensures rested { OnOk result (rested name.now (table_of held.old) (table_of held.new) ≡ Ok tt) }
    ensures one { ChangesOne name.now held.old held.new }
    ensures ordered { IsOrderedFor name.now held.old }
    ensures sound { StaysSound held.old held.new }
    ensures named { StaysNamed held.old held.new }
{
    let place = find_in_order(held, name)?;
    let v = origin_at(place)?;
    settle_at(held, v, ended)
}
