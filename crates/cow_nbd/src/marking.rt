// Which bytes lie in chunks that have copies.
ghost use Rattle.std.specs.Prelude.{◌≡◌, ◌+◌, ◌^◌, ◌<◌, ◌≤◌};
ghost use Rattle.cow_image.specs.Sorted.{IsRisingBy, old_of};
ghost use Rattle.cow_nbd.specs.Shows.{has_copy};
ghost use Rattle.std.specs.Option.{is_some};
ghost use Rattle.nbd_read_session.specs.Blocks.{marked_for, same_kind};

use cow_image::{Run, run_at};
use nbd_read_session::Marked;
use sector::Pair;

/// How many copies in a row are looked for at once.
const MOST: u64 = 65536;

/// Whether the chunks of a run have copies just where they are asked for.
fn is_alike(run: Run, marked: bool) -> bool
    ensures { result ≡ same_kind (is_some run.place) marked }
{
    if run.place.is_some() { marked } else { !marked }
}

/// Whether a byte lies in a chunk that has a copy by these pairs, and how many from it on, up to so many, are as it is.
pub(crate) fn marked(chunk: u32, pairs: &[Pair], at: u64, most: u32) -> Marked
    requires some { 0 < chunk }
    requires allowed { chunk ≤ 1024 }
    requires rising { IsRisingBy old_of pairs.now }
    requires near { at + most < 2 ^ 64 }
    ensures marked { result.marked ≡ has_copy chunk pairs.now at }
    ensures len { result.len ≡ marked_for (has_copy chunk pairs.now) (has_copy chunk pairs.now at) most at }
{
    let bytes = 512 * chunk as u64;
    let marked = run_at(pairs, at / bytes, 1).place.is_some();
    let mut done: u32 = 0;
    while done < most {
        let from = at + done as u64;
        let run = run_at(pairs, from / bytes, MOST);
        if !is_alike(run, marked) {
            return Marked { marked, len: done };
        }
        let rest = run.chunks.saturating_mul(bytes) - from % bytes;
        done += rest.min((most - done) as u64) as u32;
    }
    Marked { marked, len: most }
}
