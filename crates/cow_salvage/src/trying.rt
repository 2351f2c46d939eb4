// The sectors of an image that can't be read.
ghost use Rattle.std.specs.Prelude.{◌≡◌, ◌+◌, ◌*◌, ◌<◌, ◌≤◌, length, IfOk, OnOk};
ghost use Rattle.image.specs.Reads.{MayNoMore};
ghost use Rattle.cow_salvage.specs.Unread.{AreUnread, AddUnread, Stand};

use crate::Span;
use crate::joining::add_sector;
use image::Image;
use std::alloc::{AllocError, Global};

/// How many sectors are tried at once.
const PIECE: u64 = 2048;

/// Reads an image of so many sectors, and tells those that can't be read, neighbours joined.
pub fn unreadable<I: Image>(
    alloc: Global,
    image: &mut I,
    size: u64,
) -> Result<Vec<Span>, AllocError>
    requires { size ≤ 68_719_476_736 }
    ensures each { IfOk result (λ spans. AreUnread (I.may_fail image.old) (I.may_give image.old) size spans.items) }
    ensures bytes { I.bytes image.new ≡ I.bytes image.old }
{
    let mut spans: Vec<Span> = Vec::new(alloc);
    let mut room = vec![in alloc; 0u8; 1_048_576]?;
    try_pieces(image, size, room.as_mut_slice(), &mut spans)?;
    Ok(spans)
}

/// Reads an image of so many sectors by pieces, through room for one, and adds what can't be read.
fn try_pieces<I: Image>(
    image: &mut I,
    size: u64,
    room: &mut [u8],
    spans: &mut Vec<Span>,
) -> Result<(), AllocError>
    requires small { size ≤ 68_719_476_736 }
    requires room { length room.old ≡ 1_048_576 }
    ensures each { OnOk result (Stand 0 spans.old.items → AddUnread (I.may_fail image.old) (I.may_give image.old) 0 spans.old.items size spans.new.items) }
    ensures bytes { I.bytes image.new ≡ I.bytes image.old }
{
    let mut first = 0;
    while first < size {
        let count = (size - first).min(PIECE);
        let out = &mut room[..512 * count as usize];
        try_piece(image, first, count, out, spans)?;
        first += count;
    }
    Ok(())
}

/// Reads so many sectors at once, and where that fails one by one, and adds those that can't be read.
fn try_piece<I: Image>(
    image: &mut I,
    first: u64,
    count: u64,
    out: &mut [u8],
    spans: &mut Vec<Span>,
) -> Result<(), AllocError>
    requires small { first + count ≤ 68_719_476_736 }
    requires room { length out.old ≡ 512 * count }
    ensures each { OnOk result (Stand first spans.old.items → AddUnread (I.may_fail image.old) (I.may_give image.old) first spans.old.items (first + count) spans.new.items) }
    ensures bytes { I.bytes image.new ≡ I.bytes image.old }
    ensures calm { MayNoMore I.may_fail image.old image.new }
    ensures steady { MayNoMore I.may_give image.old image.new }
{
    match image.read_at(512 * first, out) {
        Ok(()) => Ok(()),
        Err(_) => {
            try_sectors(image, first, count, spans)?;
            Ok(())
        }
    }
}

/// Reads so many sectors one by one, and adds those that can't be read.
fn try_sectors<I: Image>(
    image: &mut I,
    first: u64,
    count: u64,
    spans: &mut Vec<Span>,
) -> Result<(), AllocError>
    requires { first + count ≤ 68_719_476_736 }
    ensures each { OnOk result (Stand first spans.old.items → AddUnread (I.may_fail image.old) (I.may_give image.old) first spans.old.items (first + count) spans.new.items) }
    ensures bytes { I.bytes image.new ≡ I.bytes image.old }
    ensures calm { MayNoMore I.may_fail image.old image.new }
    ensures steady { MayNoMore I.may_give image.old image.new }
{
    for sector in first..first + count {
        try_sector(image, sector, spans)?;
    }
    Ok(())
}

/// Reads a sector, and adds it where it can't be read.
fn try_sector<I: Image>(image: &mut I, sector: u64, spans: &mut Vec<Span>) -> Result<(), AllocError>
    requires { sector < 68_719_476_736 }
    ensures each { OnOk result (Stand sector spans.old.items → AddUnread (I.may_fail image.old) (I.may_give image.old) sector spans.old.items (sector + 1) spans.new.items) }
    ensures bytes { I.bytes image.new ≡ I.bytes image.old }
    ensures calm { MayNoMore I.may_fail image.old image.new }
    ensures steady { MayNoMore I.may_give image.old image.new }
{
    let mut room = [0u8; 512];
    match image.read_at(512 * sector, room.as_mut_slice()) {
        Ok(()) => Ok(()),
        Err(_) => {
            add_sector(spans, sector)?;
            Ok(())
        }
    }
}
