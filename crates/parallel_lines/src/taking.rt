// Volumes that are taken out of the table while their seats run, and put back.
ghost use Rattle.std.specs.Prelude.{◌≡◌, ◌+◌, ◌<◌, ◌≤◌, Bool, IfNone, IfSome, List, Some, [], true, drop, length, map, vec_len, vec_capacity};
ghost use Rattle.layers.specs.declared.stack.Stack.{Stack as StackShape};
ghost use Rattle.layers.specs.Stack.{stack_contents, stack_layers};
ghost use Rattle.audited_volume.specs.Books.{AuditShape};
ghost use Rattle.audited_volume.specs.Rooms.{KeepsRoom};
ghost use Rattle.volume.specs.Leaving.{is_quiet_of};
ghost use Rattle.volume.specs.Volumed.{left_in_all, next_of};
ghost use Rattle.command_semantics.specs.State.{Volume};
ghost use Rattle.parallel_lines.specs.Played.{Story};
ghost use Rattle.parallel_lines.specs.Taking.{AreSlots, IsBack, IsBackAt, IsMade, IsPutAt, IsRested, IsSlot};

use audited_volume::Audit;
use device_list::{NamedParts, NamedVolume};
use layers::Stack;
use plain_machine::{Event, NotDue};
use volume_commands::Resting;

/// What a place of the table has while a block is run.
#[derive(Drop)]
pub enum Slot {
    /// Its volume.
    Stays(NamedVolume),
    /// The names of a volume that is taken out: what they name is in its audit.
    Out(NamedParts),
}

/// Takes a quiet volume out, and puts its audit after the others. Where memory is refused for its audit, it stays.
fn take_out(volume: NamedVolume, audits: &mut Vec<Audit<Stack>>) -> Slot
    requires quiet { volume.shown.quiet ≡ true }
    requires room { vec_len audits.old < vec_capacity audits.old }
    ensures slot { IsSlot true result audits.new.items audits.old.items volume.shown }
    ensures few { vec_len audits.new ≤ vec_len audits.old + 1 }
    ensures room { KeepsRoom audits.old audits.new }
{
    let (parts, resting) = volume.into_parts();
    match resting.into_audit() {
        Ok(audit) => {
            // Looks: what its entries say, and how many places of its journal are taken.
            let _ = audit.entries();
            audit.look_at_places();
            audits.push_reserved(audit);
            Slot::Out(parts)
        }
        Err((_, resting)) => Slot::Stays(NamedVolume::of_parts(parts, resting)),
    }
}

/// Takes a volume out if it is used, and is quiet.
fn take(volume: NamedVolume, is_used: bool, audits: &mut Vec<Audit<Stack>>) -> Slot
    requires room { vec_len audits.old < vec_capacity audits.old }
    ensures slot { IsSlot is_used result audits.new.items audits.old.items volume.shown }
    ensures few { vec_len audits.new ≤ vec_len audits.old + 1 }
    ensures room { KeepsRoom audits.old audits.new }
{
    if is_used && volume.is_quiet() {
        take_out(volume, audits)
    } else {
        Slot::Stays(volume)
    }
}

/// Takes the volumes out that are used, the last of the table first, and puts what each place has into `slots`.
pub fn take_all(
    volumes: &mut Vec<NamedVolume>,
    used: &[bool],
    slots: &mut Vec<Slot>,
    audits: &mut Vec<Audit<Stack>>,
)
    requires many { length used.now ≡ vec_len volumes.old }
    requires none { (slots.old.items ≡ []) × (audits.old.items ≡ []) }
    requires slot_room { vec_len volumes.old ≤ vec_capacity slots.old }
    requires audit_room { vec_len volumes.old ≤ vec_capacity audits.old }
    ensures slots { AreSlots used.now slots.new.items audits.new.items (map (λ v. v.shown) volumes.old.items) }
    ensures empty { volumes.new.items ≡ [] }
    ensures few { vec_len slots.new ≡ vec_len volumes.old }
    ensures room { KeepsRoom volumes.old volumes.new }
{
    while let Some(volume) = volumes.pop() {
        let is_used = used[volumes.len()];
        slots.push_reserved(take(volume, is_used, audits));
    }
}

/// The event that is due first in an audit's volume that is not quiet.
fn left(audit: &Audit<Stack>) -> Option<Event>
    ensures due { IfSome result (λ event. next_of stack_contents stack_layers audit.now.volume ≡ Some event) }
    ensures quiet { IfNone result (is_quiet_of audit.now.volume ≡ true) }
{
    let volume = audit.volume();
    if volume.is_quiet() {
        return None;
    }
    volume.due()
}

/// Does the event that is due first. No request is in flight, so it is none of a request, and it is done.
fn do_first(audit: &mut Audit<Stack>, event: Event)
    requires none { audit.old.held ≡ [] }
    requires due { next_of stack_contents stack_layers audit.old.volume ≡ Some event }
    ensures rested { (before : AuditShape StackShape) → IsRested before audit.old → IsRested before audit.new }
    ensures lower { left_in_all stack_contents stack_layers audit.new.volume < left_in_all stack_contents stack_layers audit.old.volume }
{
    audit.look_at_requests();
    match audit.apply(1, event) {
        Ok(_) => {}
        Err(NotDue) => unreachable!(),
    }
}

/// Does what is left to do in an audit's volume until it is quiet: of a merge only what ends a group that is formed. No request is
/// in flight, so that memory is asked for nothing.
fn rest(audit: &mut Audit<Stack>)
    requires none { audit.old.held ≡ [] }
    ensures quiet { is_quiet_of audit.new.volume ≡ true }
    ensures rested { IsRested audit.old audit.new }
{
    while let Some(event) = left(audit) {
        do_first(audit, event);
    }
}

/// The volume of an audit under its names again.
fn name(parts: NamedParts, audit: Audit<Stack>) -> NamedVolume
    requires { (before : AuditShape StackShape) × (old : Volume) × IsBack before parts audit old }
    ensures { (before : AuditShape StackShape) (old : Volume) → IsBack before parts audit old → (story : Story) × IsMade before audit story old result.shown }
{
    let mut audit = audit;
    rest(&mut audit);
    // A look: what its entries say.
    let _ = audit.entries();
    NamedVolume::of_parts(parts, Resting::of_audit(audit))
}

/// What a place of the table has, put back into it: a volume that is taken out is that of the last audit.
pub fn put_back(slot: Slot, audits: &mut Vec<Audit<Stack>>) -> NamedVolume
    requires { (used : Bool) × (befores : List (AuditShape StackShape)) × (first : List (AuditShape StackShape)) × (others : List (AuditShape StackShape)) × (old : Volume) × IsBackAt used slot befores audits.old.items first others old }
    ensures put { (used : Bool) (befores first others : List (AuditShape StackShape)) (old : Volume) → IsBackAt used slot befores audits.old.items first others old → IsPutAt slot befores audits.old.items first others old result.shown }
    ensures others { (used : Bool) (befores first others : List (AuditShape StackShape)) (old : Volume) → IsBackAt used slot befores audits.old.items first others old → audits.new.items ≡ others }
{
    match slot {
        Slot::Stays(volume) => volume,
        Slot::Out(parts) => {
            let Some(audit) = audits.pop() else {
                unreachable!()
            };
            name(parts, audit)
        }
    }
}
