// What entries do to the base arrays and states, in place.
ghost use Rattle.std.specs.Prelude.{◌≡◌, ◌≢◌, ◌∷◌, [], ◌+◌, ◌*◌, ◌<◌, ◌≤◌, ℕ, IfNone, IfSome, List, Some, length, map, slice_index_or, vec_capacity, vec_len};
ghost use Rattle.plain_machine.specs.Plain.{Live, marked_in, saved_under, spoiled_entry, with_saved, without_saved};
ghost use Rattle.plain_machine.specs.Serves.{Shows};
ghost use Rattle.plain_machine.specs.declared.request.Overflowing.TheVariants.{Did};
ghost use Rattle.audited_volume.specs.declared.entry.Entry.TheVariants.{Answered as IsAnswered, Begun};
ghost use Rattle.audited_volume.specs.declared.entry.Saved.{Saved};
ghost use Rattle.sector.specs.Bytes.{with_sectors};
ghost use Rattle.audited_volume.specs.Books.{shown_in_base, shown_in, state_in};
ghost use Rattle.audited_volume.specs.Inside.{AllInside, IsInside, attached_count};
ghost use Rattle.audited_volume.specs.Replay.{AllLawful, IsLawful, after, plain_in, put, replay};
ghost use Rattle.audited_volume.specs.Rooms.{KeepsMany, KeepsRoom};

use crate::array::Array;
use crate::entry::{Answered, Base, Entry, Saved};
use plain_machine::{Dev, Op, Overflowing, Reply, SnapId};
use sector::Sector;

/// How many snapshots are taken.
pub(crate) fn count_attached(entries: &[Entry]) -> usize
    ensures { result ≡ attached_count entries.now }
{
    let mut count = 0;
    for entry in entries {
        if let Entry::Attached(_, _, _, _) = entry {
            count += 1;
        }
    }
    count
}

/// The place of the first snapshot with this number.
fn find(saved: &[Saved], number: SnapId) -> Option<usize>
    ensures some { IfSome result (λ k. (k < length saved.now) × ((d : Saved) → (slice_index_or saved.now k d).number ≡ number) × ((j : ℕ) (d : Saved) → j < k → (slice_index_or saved.now j d).number ≢ number)) }
    ensures none { IfNone result ((j : ℕ) (d : Saved) → j < length saved.now → (slice_index_or saved.now j d).number ≢ number) }
{
    saved.iter().position(|s| s.number == number)
}

/// Puts sectors into a snapshot's array, if it has one.
fn put_in(saved: &mut Saved, first: Sector, bytes: &[u8])
    ensures { (array : List ℕ) → saved.old.array ≡ Some array → 512 * first + length bytes.now ≤ length array → saved.new ≡ record saved.old { array = Some (with_sectors array first bytes.now) } }
{
    match &mut saved.array {
        Some(array) => array.put(first, bytes),
        None => {}
    }
}

/// Puts sectors into the array of the snapshot with this number, if there is one.
fn put_saved(saved: &mut Vec<Saved>, number: SnapId, first: Sector, bytes: &[u8])
    ensures put { (array : List ℕ) → saved_under number (map shown_in saved.old.items) ≡ Some (Live array) → 512 * first + length bytes.now ≤ length array → map shown_in saved.new.items ≡ with_saved number (Live (with_sectors array first bytes.now)) (map shown_in saved.old.items) }
    ensures len { KeepsMany saved.old saved.new }
    ensures capacity { KeepsRoom saved.old saved.new }
{
    let Some(k) = find(saved.as_slice(), number) else {
        return;
    };
    put_in(&mut saved[k], first, bytes);
}

/// Spoils a snapshot, if it has this number.
fn spoil_one(saved: &mut Saved, number: SnapId)
    ensures { shown_in saved.new ≡ spoiled_entry (number ∷ []) (shown_in saved.old) }
{
    if saved.number == number {
        saved.array = None;
    }
}

/// Spoils the snapshots with this number.
fn spoil(saved: &mut Vec<Saved>, number: SnapId)
    ensures spoilt { map shown_in saved.new.items ≡ map (spoiled_entry (number ∷ [])) (map shown_in saved.old.items) }
    ensures len { KeepsMany saved.old saved.new }
    ensures capacity { KeepsRoom saved.old saved.new }
{
    for k in 0..saved.len() {
        spoil_one(&mut saved[k], number);
    }
}

/// Its store overflowed.
fn mark_one(saved: &mut Saved)
    ensures { saved.new ≡ record saved.old { overflow = Did } }
{
    saved.overflow = Overflowing::Did;
}

/// Marks the first snapshot with this number, if there is one: its store overflowed.
fn mark(saved: &mut Vec<Saved>, number: SnapId)
    ensures marked { map shown_in saved.new.items ≡ marked_in number (map shown_in saved.old.items) }
    ensures len { KeepsMany saved.old saved.new }
    ensures capacity { KeepsRoom saved.old saved.new }
{
    let Some(k) = find(saved.as_slice(), number) else {
        return;
    };
    mark_one(&mut saved[k]);
}

/// Takes the first snapshot with this number away, if there is one.
fn take_out(saved: &mut Vec<Saved>, number: SnapId) -> Option<Saved>
    ensures left { map shown_in saved.new.items ≡ without_saved number (map shown_in saved.old.items) }
    ensures found { (array : List ℕ) → saved_under number (map shown_in saved.old.items) ≡ Some (Live array) → (s : Saved) × (result ≡ Some s) × (state_in s.array ≡ Live array) }
    ensures len { vec_len saved.new ≤ vec_len saved.old }
    ensures capacity { KeepsRoom saved.old saved.new }
{
    let Some(k) = find(saved.as_slice(), number) else {
        return None;
    };
    Some(saved.remove(k))
}

/// What a write does to the base.
fn write(base: &mut Base, dev: Dev, first: Sector, bytes: &[u8])
    ensures put { (array : List ℕ) → Shows (plain_in (shown_in_base base.old)) dev array → 512 * first + length bytes.now ≤ length array → shown_in_base base.new ≡ put dev first bytes.now (shown_in_base base.old) }
    ensures len { KeepsMany base.old.saved base.new.saved }
    ensures capacity { KeepsRoom base.old.saved base.new.saved }
{
    match dev {
        Dev::Origin => base.origin.put(first, bytes),
        Dev::Snap(number) => put_saved(&mut base.saved, number, first, bytes),
    }
}

/// What the entry of a request does to the base: a write that was done, and nothing else, does something.
fn serve(base: &mut Base, answered: &Answered)
    ensures after { IsLawful (shown_in_base base.old) (IsAnswered answered.now) → IsInside (shown_in_base base.old) (IsAnswered answered.now) → shown_in_base base.new ≡ after (shown_in_base base.old) (IsAnswered answered.now) }
    ensures len { KeepsMany base.old.saved base.new.saved }
    ensures capacity { KeepsRoom base.old.saved base.new.saved }
{
    match &answered.request.op {
        Op::Read => {}
        Op::Flush => {}
        Op::Write(bytes) => match &answered.reply {
            Reply::Written => {
                let first = answered.request.range.first;
                write(base, answered.request.dev, first, bytes.as_slice())
            }
            Reply::Data(_) => {}
            Reply::Flushed => {}
            Reply::Refused(_) => {}
        },
    }
}

/// The origin is what a snapshot was, which is none of the others any more.
fn begin(base: &mut Base, number: SnapId)
    ensures after { IsLawful (shown_in_base base.old) (Begun number) → shown_in_base base.new ≡ after (shown_in_base base.old) (Begun number) }
    ensures len { vec_len base.new.saved ≤ vec_len base.old.saved }
    ensures capacity { KeepsRoom base.old.saved base.new.saved }
{
    let Some(saved) = take_out(&mut base.saved, number) else {
        return;
    };
    let Some(array) = saved.array else {
        return;
    };
    base.origin = array;
    base.begun = Some(number);
}

/// Does what an entry does. Its array becomes the base's, and is not copied.
fn fold(base: &mut Base, entry: Entry)
    requires room { vec_len base.old.saved + attached_count (entry ∷ []) ≤ vec_capacity base.old.saved }
    ensures after { IsLawful (shown_in_base base.old) entry → IsInside (shown_in_base base.old) entry → shown_in_base base.new ≡ after (shown_in_base base.old) entry }
    ensures len { vec_len base.new.saved ≤ vec_len base.old.saved + attached_count (entry ∷ []) }
    ensures capacity { KeepsRoom base.old.saved base.new.saved }
{
    match entry {
        Entry::Answered(answered) => serve(base, &answered),
        Entry::Spoiled(number) => spoil(&mut base.saved, number),
        Entry::Overflowed(number) => mark(&mut base.saved, number),
        Entry::Attached(number, array, overflow, _) => base.saved.push_reserved(Saved {
            number,
            array: Some(array),
            overflow,
        }),
        Entry::Detached(number) => {
            take_out(&mut base.saved, number);
        }
        Entry::Begun(number) => begin(base, number),
        Entry::Finished => base.begun = None,
    }
}

/// Does what the entries do, in their order, and leaves none. A write past the end of its array, or to a snapshot that is not
/// there, is left out: none is where no device ever dropped writes.
pub(crate) fn fold_all(base: &mut Base, entries: &mut Vec<Entry>)
    requires room { vec_len base.old.saved + attached_count entries.old.items ≤ vec_capacity base.old.saved }
    ensures none { entries.new.items ≡ [] }
    ensures base { AllLawful (shown_in_base base.old) entries.old.items → AllInside (shown_in_base base.old) entries.old.items → shown_in_base base.new ≡ replay (shown_in_base base.old) entries.old.items }
    ensures capacity { KeepsRoom entries.old entries.new }
{
    entries.reverse();
    while let Some(entry) = entries.pop() {
        fold(base, entry);
    }
}
