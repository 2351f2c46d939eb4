// A snapshot is served while another program writes its files.
ghost use Rattle.std.specs.Prelude.{◌<◌, ◌≤◌, IfOk};

use crate::serving::of_served;
use cow_header::{Found, decode};
use cow_image::read_first;
use cow_nbd::{LivePicture, serve_live};
use opened_files::{Input, LiveInputs, Trouble, Why, of_input, size_of};
use read_beside_writer::{LiveSnapshot, Lost};
use std::io::{Read, Write};

/// Serves a snapshot that is in use to the client on standard input and output. Once it is lost, no bytes are given any more, and
/// it is told when the client has left.
pub fn serve_in_use<'a, R: Read, W: Write>(
    rt: &'a HostRuntime,
    origin: &'a str,
    cow: &'a str,
    reader: &mut R,
    writer: &mut W,
) -> Result<bool, Trouble<'a>> {
    let mut inputs = LiveInputs::open(rt, origin, cow)?;
    let size = size_of(&mut inputs.origin)?;
    let chunk = chunk_in(&mut inputs.cow)?;
    let snapshot = LiveSnapshot::new(rt.alloc(), inputs, chunk, size);
    let mut picture = LivePicture {
        snapshot,
        ended: None,
    };
    let served = serve_live(rt.alloc(), &mut picture, reader, writer);
    match picture.ended {
        Some(Lost::Header) => Err(Trouble::new(cow, Why::NoSnapshot)),
        Some(_) => Err(Trouble::new(cow, Why::NoPairs)),
        None => of_served(served),
    }
}

/// The sectors of a chunk, by the header of a store.
fn chunk_in<'a>(cow: &mut Input<'a>) -> Result<u32, Trouble<'a>>
    ensures some { IfOk result (λ chunk. 0 < chunk) }
    ensures allowed { IfOk result (λ chunk. chunk ≤ 1024) }
{
    let mut first = [0u8; 512];
    let read = read_first(cow, &mut first);
    of_input(cow, read)?;
    match decode(first.as_slice()) {
        Ok(Found::Header { chunk }) => Ok(chunk),
        _ => Err(Trouble::new(cow.name, Why::NoSnapshot)),
    }
}
