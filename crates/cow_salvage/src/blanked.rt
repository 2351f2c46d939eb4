// An image of which some sectors are not read.
ghost use Rattle.std.specs.Prelude.{◌≡◌, ℕ, ◌+◌, ◌*◌, ◌/◌, ◌<◌, ◌≤◌, List, length, slice_index, OnOk, Some};
ghost use Rattle.cow_salvage.specs.Blanks.{byte_or_blank, known_blanked};

use crate::Span;
use crate::spans::is_in;
use image::Image;
use std::io;

/// An image whose sectors in some spans are not read, and give zeros. Reads begin and end where sectors do.
#[derive(Drop)]
pub struct Blanked<I: Image> {
    pub below: I,
    pub spans: Vec<Span>,
}

impl<I: Image> Image for Blanked<I> {
    ghost bytes = { λ u. known_blanked u.spans.items (I.bytes u.below) };

    ghost may_fail = { λ _ _ _. Unit {0} };

    ghost may_give = { λ _ _ _. Unit {0} };

    fn len(&mut self) -> io::Result<u64> {
        self.below.len()
    }

    fn read_at(&mut self, at: u64, out: &mut [u8]) -> io::Result<()> {
        if at % 512 != 0 || out.len() % 512 != 0 {
            return Err(io::ErrorKind::InvalidInput.into());
        }
        if self.spans.len() == 0 {
            return self.below.read_at(at, out);
        }
        let len = self.below.len()?;
        if len < at || len - at < out.len() as u64 {
            return Err(io::ErrorKind::UnexpectedEof.into());
        }
        let spans = self.spans.as_slice();
        read_sectors(&mut self.below, spans, at / 512, out)
    }
}

/// Reads sectors one by one, those in the spans as zeros.
fn read_sectors<I: Image>(
    below: &mut I,
    spans: &[Span],
    first: u64,
    out: &mut [u8],
) -> io::Result<()>
    requires { 512 * first + length out.old ≤ 18_446_744_073_709_551_615 }
    ensures data { OnOk result ((b : List ℕ) → I.bytes below.old ≡ Some b → (i : ℕ) → i < 512 * (length out.old / 512) → slice_index out.new i ≡ byte_or_blank spans.now b (512 * first + i)) }
    ensures bytes { I.bytes below.new ≡ I.bytes below.old }
{
    for index in 0..out.len() / 512 {
        let piece = &mut out[512 * index..512 * index + 512];
        read_sector(below, spans, first + index as u64, piece)?;
    }
    Ok(())
}

/// Reads a sector, in the spans as zeros.
fn read_sector<I: Image>(
    below: &mut I,
    spans: &[Span],
    sector: u64,
    out: &mut [u8],
) -> io::Result<()>
    requires small { 512 * sector ≤ 18_446_744_073_709_551_615 }
    requires whole { length out.old ≡ 512 }
    ensures len { length out.new ≡ 512 }
    ensures data { OnOk result ((b : List ℕ) → I.bytes below.old ≡ Some b → (i : ℕ) → i < 512 → slice_index out.new i ≡ byte_or_blank spans.now b (512 * sector + i)) }
    ensures bytes { I.bytes below.new ≡ I.bytes below.old }
{
    if is_in(spans, sector) {
        out.fill(0);
        return Ok(());
    }
    below.read_at(512 * sector, out)
}
