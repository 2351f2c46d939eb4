// Snapshots that a call spoiled are noted, each as one entry, and so is one whose store overflowed.
ghost use Rattle.std.specs.Prelude.{◌≡◌, ◌≢◌, ◌+◌, ◌≤◌, ℕ, length, ◌<◌, ◌&&◌, not, false, slice_index_or, vec_capacity, vec_len};
ghost use Rattle.plain_machine.specs.Plain.{Entry as ShownEntry};
ghost use Rattle.volume.specs.Volumed.{plain_of};
ghost use Rattle.audited_volume.specs.Marked.{IsMarkNoted};
ghost use Rattle.audited_volume.specs.Noted.{Noted, is_live, live_count, may_count};
ghost use Rattle.audited_volume.specs.Rooms.{KeepsRoom};

use crate::entry::Entry;
use crate::leaving::place_in;
use crate::looking::is_marked;
use layers::Layered;
use plain_machine::{Dev, SnapId};
use volume_lifetime::LivedVolume;

/// Whether the snapshot at a place was live and is spoiled now.
fn is_lost<B: Layered>(volume: &LivedVolume<B>, lives: &[bool], k: usize) -> bool
    requires snaps { k < length volume.now.snaps }
    requires lives { k < length lives.now }
    ensures { (d : ShownEntry) → result ≡ (slice_index_or lives.now k false && not (is_live (slice_index_or (plain_of B.contents B.layers volume.now).saved k d))) }
{
    let snap = volume.snap(k);
    lives[k] && !snap.is_live()
}

/// Its number, which none before it has.
fn number_at<B: Layered>(volume: &LivedVolume<B>, k: usize) -> SnapId
    requires { k < length volume.now.snaps }
    ensures number { (d : ShownEntry) → (slice_index_or (plain_of B.contents B.layers volume.now).saved k d).number ≡ result }
    ensures first { (j : ℕ) (d : ShownEntry) → j < k → (slice_index_or (plain_of B.contents B.layers volume.now).saved j d).number ≢ result }
{
    volume.snap(k).number()
}

/// Notes each snapshot that was live and is spoiled now.
pub(crate) fn note_spoils<B: Layered>(
    volume: &LivedVolume<B>,
    lives: &mut Vec<bool>,
    entries: &mut Vec<Entry>,
)
    requires lives { length lives.old.items ≡ length volume.now.snaps }
    requires room { vec_len entries.old + live_count lives.old.items ≤ vec_capacity entries.old }
    ensures noted { Noted (length volume.now.snaps) (plain_of B.contents B.layers volume.now).saved lives.old.items lives.new.items entries.old.items entries.new.items }
    ensures capacity { KeepsRoom entries.old entries.new }
{
    for k in 0..lives.len() {
        if is_lost(volume, lives.as_slice(), k) {
            lives[k] = false;
            entries.push_reserved(Entry::Spoiled(number_at(volume, k)));
        }
    }
}

/// Notes that the store of a snapshot overflowed, where it did, and that was not noted before.
pub(crate) fn note_mark<B: Layered>(
    volume: &LivedVolume<B>,
    dev: Dev,
    lives: &[bool],
    may: &mut Vec<bool>,
    entries: &mut Vec<Entry>,
)
    requires lives { length lives.now ≡ length volume.now.snaps }
    requires may { length may.old.items ≡ length lives.now }
    requires room { vec_len entries.old + may_count lives.now may.old.items ≤ vec_capacity entries.old }
    ensures noted { IsMarkNoted dev (plain_of B.contents B.layers volume.now).saved lives.now may.old.items may.new.items entries.old.items entries.new.items }
    ensures capacity { KeepsRoom entries.old entries.new }
{
    let Dev::Snap(number) = dev else {
        return;
    };
    let Some(place) = place_in(volume, number) else {
        return;
    };
    if lives[place] && may[place] && is_marked(volume.snap(place).overflow()) {
        may[place] = false;
        entries.push_reserved(Entry::Overflowed(number));
    }
}
