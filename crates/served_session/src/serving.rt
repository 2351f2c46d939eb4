// A client is served.
ghost use Rattle.nbd_backend.specs.Calls.{Step};
ghost use Rattle.nbd_backend.specs.declared.array.Stepped.{Stepped as Told};
ghost use Rattle.volume_nbd.specs.Calls.{does_by};
ghost use Rattle.served_session.specs.Served.{IsServed, StepsTo};

use crate::ReadyArray;
use device::Ahead;
use nbd_backend::{Array, Stepped};
use nbd_options::Export;
use nbd_write_session::{Ended, Finish};
use std::alloc::Global;
use std::io::{Read, Write};
use volume_nbd::{VolumeArray, look_at};

/// Does a step. `false` where nothing is left to do.
fn goes_on<B: Ahead>(array: &mut VolumeArray<B>) -> bool
    ensures { (told : Told) × does_by B.may_hold B.contents B.layers B.size B.fault_count B.done_count B.failed B.unanswered (Step told) array.old array.new }
{
    match array.step() {
        Stepped::Still | Stepped::Ended => false,
        Stepped::Idle | Stepped::Done | Stepped::Slow | Stepped::Back(..) => true,
    }
}

/// Goes on with a merge, where there is one, once the client is gone: for as many steps as a group of an area's pairs takes. So each
/// session takes a merge further, however short it is.
fn go_on<B: Ahead>(array: &mut VolumeArray<B>)
    ensures { StepsTo (does_by B.may_hold B.contents B.layers B.size B.fault_count B.done_count B.failed B.unanswered) array.old array.new }
{
    let Some(chunk) = array.volume().merging_chunk() else {
        return;
    };
    for _ in 0..64 * u64::from(chunk) + 16 {
        if !goes_on(array) {
            return;
        }
    }
}

impl<B: Ahead + Drop> ReadyArray<B> {
    /// Serves a client, until it goes, and then goes on with a merge. Gives the array, and how the session ended.
    pub fn serve<R: Read, W: Write>(
        self,
        alloc: Global,
        exports: &[Export<'_>],
        reader: &mut R,
        writer: &mut W,
    ) -> (VolumeArray<B>, Result<Finish, Ended>)
        ensures { IsServed B.may_hold (record { contents = B.contents; durable = B.durable; size = B.size; faults = B.fault_count; done = B.done_count }) B.layers B.failed B.unanswered exports.now self result.0 result.1 (record { client = R.remaining reader.old; before = W.contents writer.old; after = W.contents writer.new }) }
    {
        let ReadyArray { mut array } = self;
        look_at(array.volume());
        let ended = nbd_write_session::serve(alloc, &mut array, exports, reader, writer);
        if let Ok(Finish::Client) = &ended {
            go_on(&mut array);
        }
        (array, ended)
    }
}
