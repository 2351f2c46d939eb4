// The events of a merge's group, one after the other, where nothing else can be due.
ghost use Rattle.std.specs.Prelude.{◌≡◌, ◌<◌, true};
ghost use Rattle.volume.specs.EventKinds.{is_of_merge};
ghost use Rattle.volume.specs.Volumed.{left_in_all};
ghost use Rattle.counted_volume.specs.Following.{AreMerged};

use crate::CountedVolume;
use layers::Layered;
use plain_machine::{Event, NotDue, Outcome};

/// Does one event of a merge where it is due and nothing else can be, and tells whether to go on: it was done, and nothing failed.
#[inline(always)]
fn merge_on<B: Layered>(volume: &mut CountedVolume<B>, event: Event) -> bool
    requires merges { is_of_merge event ≡ true }
    ensures merged { AreMerged B.may_hold B.contents B.layers B.fault_count B.size volume.old volume.new }
    ensures lower { result ≡ true → left_in_all B.contents B.layers volume.new.volume < left_in_all B.contents B.layers volume.old.volume }
{
    if !volume.is_only_merging() {
        return false;
    }
    match volume.step_here(event) {
        Ok(Outcome::Reply(_, _)) => unreachable!(),
        Ok(Outcome::Done) => true,
        Ok(Outcome::Fault) => false,
        Err(NotDue) => false,
    }
}

/// Does the events of a group that is formed: each of its chunks is read and written, all at once where they can be, the origin
/// disk is flushed, the area is written without the group's slots, and the group ends. One after the other, so that the kind of
/// each is known where it is done.
fn follow_group<B: Layered>(volume: &mut CountedVolume<B>)
    ensures { AreMerged B.may_hold B.contents B.layers B.fault_count B.size volume.old volume.new }
{
    volume.copy_group();
    while merge_on(volume, Event::MergeRead) {
        if !merge_on(volume, Event::MergeWrite) {
            return;
        }
    }
    if !merge_on(volume, Event::MergeFlush) {
        return;
    }
    if !merge_on(volume, Event::MergeCommit) {
        return;
    }
    let _ = merge_on(volume, Event::MergeRelease);
}

/// Does the events of a merge that are known to follow one that was due first and was done, as long as each is due, nothing else
/// can be, and nothing fails: each is then due first. Nothing is answered.
#[inline(always)]
pub fn follow_merge<B: Layered>(volume: &mut CountedVolume<B>, done: Event)
    ensures { AreMerged B.may_hold B.contents B.layers B.fault_count B.size volume.old volume.new }
{
    match done {
        Event::MergeGroup => follow_group(volume),
        _ => {}
    }
}
