// Tests of the trait's calls at each form.
ghost use Rattle.std.specs.Prelude.{◌≡◌, ◌^◌, ◌<◌, []};

use exception_arena::{Arena, Exceptions, PlainExceptions, abandon_all, finish_first, remove_last};
use sector::Refusal;
use std::test::Fail;

// Pairs of chunks 5, 6 and 7 begin; the last but one is dropped, and the others are committed.
fn commit_two<E: Exceptions>(exceptions: &mut E) -> Result<(), Refusal>
    requires { E.pending exceptions.old ≡ [] }
{
    exceptions.reserve(3)?;
    exceptions.begin(5, 2);
    let dropped = exceptions.begin(6, 3);
    exceptions.begin(7, 4);
    exceptions.abandon(dropped);
    finish_first(exceptions, 2);
    Ok(())
}

// Whether the pairs of chunks 5 and 7 are committed alone.
fn has_two<E: Exceptions>(exceptions: &E) -> bool {
    (exceptions.len(), exceptions.pending_len()) == (2, 0)
        && exceptions.get(5) == Some(2)
        && exceptions.get(6).is_none()
        && exceptions.get(7) == Some(4)
        && exceptions.get(2).is_none()
}

#[test]
fn commits_what_is_not_dropped(rt: HostRuntime) -> Result<(), Fail> {
    let mut plain = PlainExceptions::new(rt.alloc());
    commit_two(&mut plain)?;
    assert!(rt; has_two(&plain));
    let mut arena = Arena::new(rt.alloc());
    commit_two(&mut arena)?;
    assert!(rt; has_two(&arena));
    Ok(())
}

// Pairs begin in one order and are committed in another; then the last one is taken away.
fn commit_backwards<E: Exceptions>(exceptions: &mut E) -> Result<(), Refusal>
    requires committed { E.committed exceptions.old ≡ [] }
    requires pending { E.pending exceptions.old ≡ [] }
{
    exceptions.reserve(3)?;
    let first = exceptions.begin(5, 2);
    let second = exceptions.begin(6, 3);
    exceptions.begin(9, 4);
    exceptions.finish(second);
    exceptions.finish(first);
    abandon_all(exceptions);
    remove_last(exceptions, 5, 1);
    Ok(())
}

// Whether the pair of chunk 6 is committed alone.
fn has_one<E: Exceptions>(exceptions: &E) -> bool {
    (exceptions.len(), exceptions.pending_len()) == (1, 0)
        && exceptions.get(5).is_none()
        && exceptions.get(6) == Some(3)
}

#[test]
fn takes_the_last_one_away(rt: HostRuntime) -> Result<(), Fail> {
    let mut plain = PlainExceptions::new(rt.alloc());
    commit_backwards(&mut plain)?;
    assert!(rt; has_one(&plain));
    let mut arena = Arena::new(rt.alloc());
    commit_backwards(&mut arena)?;
    assert!(rt; has_one(&arena));
    Ok(())
}

// Commits the first pending pair, where there is one.
fn commit_first<E: Exceptions>(exceptions: &mut E) {
    if exceptions.pending_len() > 0 {
        finish_first(exceptions, 1);
    }
}

// Pairs whose chunks rise by one, so many, from chunk 200 of the origin and 1000 of the store on.
fn commit_in_order<E: Exceptions>(exceptions: &mut E, count: u64) -> Result<(), Refusal>
    requires { count < 2 ^ 31 }
{
    for i in 0..count {
        exceptions.reserve(1)?;
        exceptions.begin(200 + i, 1_000 + i);
        commit_first(exceptions);
    }
    Ok(())
}

// Takes the last committed pair away.
fn remove_one<E: Exceptions>(exceptions: &mut E) {
    let committed = exceptions.len();
    if committed == 0 {
        return;
    }
    let last = exceptions.committed_at(committed - 1);
    exceptions.remove(last.old);
}

// Whether the pairs of an arena are found, and none beside them.
fn has_all(arena: &Arena) -> bool {
    arena.len() == 600
        && arena.get(199).is_none()
        && arena.get(200) == Some(1_000)
        && arena.get(255) == Some(1_055)
        && arena.get(256) == Some(1_056)
        && arena.get(799) == Some(1_599)
        && arena.get(800).is_none()
}

#[test]
fn pairs_in_a_row_are_found_and_taken_away(rt: HostRuntime) -> Result<(), Fail> {
    let mut arena = Arena::new(rt.alloc());
    commit_in_order(&mut arena, 600)?;
    assert!(rt; has_all(&arena));
    for _i in 0..545 {
        remove_one(&mut arena);
    }
    assert!(rt; arena.len() == 55 && arena.get(254) == Some(1_054) && arena.get(255).is_none());
    Ok(())
}

// Each pair asks for room of its own. Were all pairs hung anew each time, this would be 2^39 steps, which no test has the time for.
#[test]
fn a_million_pairs_one_by_one(rt: HostRuntime) -> Result<(), Fail> {
    let mut arena = Arena::new(rt.alloc());
    commit_in_order(&mut arena, 1_048_576)?;
    assert!(rt; arena.len() == 1_048_576 && arena.get(199).is_none());
    assert!(rt; arena.get(200) == Some(1_000) && arena.get(524_488) == Some(525_288));
    assert!(rt; arena.get(1_048_775) == Some(1_049_575) && arena.get(1_048_776).is_none());
    Ok(())
}

// Pairs of chunks 1, 5 and 9, which share one bucket of four.
fn commit_three<E: Exceptions>(exceptions: &mut E) -> Result<(), Refusal>
    requires { E.pending exceptions.old ≡ [] }
{
    exceptions.reserve(3)?;
    exceptions.begin(1, 2);
    exceptions.begin(5, 3);
    exceptions.begin(9, 4);
    finish_first(exceptions, 3);
    Ok(())
}

#[test]
fn chunks_of_one_bucket_are_told_apart(rt: HostRuntime) -> Result<(), Fail> {
    let mut arena = Arena::new(rt.alloc());
    commit_three(&mut arena)?;
    assert!(rt; arena.get(1) == Some(2) && arena.get(5) == Some(3) && arena.get(9) == Some(4));
    assert!(rt; arena.get(13).is_none());
    remove_one(&mut arena);
    assert!(rt; arena.get(9).is_none() && arena.get(5) == Some(3) && arena.get(1) == Some(2));
    Ok(())
}
