// The arrays that are served.
ghost use Rattle.std.specs.Prelude.{◌≡◌, ℕ, ◌+◌, ◌*◌, ◌^◌, ◌<◌, ◌≤◌, List, length, take, drop, Some, IfSome, OnErr, OnOk};
ghost use Rattle.cow_image.specs.Sorted.{IsRisingBy, old_of};
ghost use Rattle.cow_image.specs.Fails.{ShownFails};
ghost use Rattle.cow_nbd.specs.Shows.{known_at, known_shown, FailsAt};

use crate::marking::marked;
use cow_image::show_range;
use image::Image;
use nbd_read_session::{Fault, Marked, Served};
use sector::Pair;
use std::io;

/// What the snapshot of a store shows, and its origin: two arrays of so many sectors.
#[derive(Drop)]
pub struct Pictures<O: Image, C: Image> {
    pub origin: O,
    pub cow: C,
    pub pairs: Vec<Pair>,
    pub chunk: u32,
    pub size: u64,
    pub ghost some: { 0 < chunk },
    pub ghost allowed: { chunk ≤ 1024 },
    pub ghost small: { size ≤ 68_719_476_736 },
    pub ghost rising: { IsRisingBy old_of pairs.items },
}

impl<O: Image, C: Image> Pictures<O, C> {
    /// Reads what the snapshot shows.
    fn read_snapshot(&mut self, at: u64, out: &mut [u8]) -> io::Result<()>
        requires { at + length out.old ≤ 512 * self.old.size }
        ensures data { OnOk result (IfSome (known_shown self.old.chunk self.old.pairs.items self.old.size (O.bytes self.old.origin) (C.bytes self.old.cow)) (λ b. out.new ≡ take (length out.old) (drop at b))) }
        ensures fails { OnErr result (ShownFails (O.may_fail self.old.origin) (C.may_fail self.old.cow) self.old.chunk self.old.pairs.items at (length out.old)) }
        ensures bytes { (k : ℕ) → known_at self.new.chunk self.new.pairs.items self.new.size (O.bytes self.new.origin) (C.bytes self.new.cow) k ≡ known_at self.old.chunk self.old.pairs.items self.old.size (O.bytes self.old.origin) (C.bytes self.old.cow) k }
        ensures calm { (k : ℕ) (from : ℕ) (count : ℕ) → FailsAt (O.may_fail self.new.origin) (C.may_fail self.new.cow) self.new.chunk self.new.pairs.items self.new.size k from count → FailsAt (O.may_fail self.old.origin) (C.may_fail self.old.cow) self.old.chunk self.old.pairs.items self.old.size k from count }
    {
        let pairs = self.pairs.as_slice();
        match show_range(&mut self.origin, &mut self.cow, self.chunk, pairs, at, out) {
            Ok(()) => Ok(()),
            Err(error) => Err(error),
        }
    }

    /// Reads an array.
    fn read_from(&mut self, export: usize, at: u64, out: &mut [u8]) -> io::Result<()>
        requires { at + length out.old < 2 ^ 64 }
        ensures data { OnOk result (IfSome (known_at self.old.chunk self.old.pairs.items self.old.size (O.bytes self.old.origin) (C.bytes self.old.cow) export) (λ b. out.new ≡ take (length out.old) (drop at b.bytes))) }
        ensures fails { OnErr result (FailsAt (O.may_fail self.old.origin) (C.may_fail self.old.cow) self.old.chunk self.old.pairs.items self.old.size export at (length out.old)) }
        ensures bytes { (k : ℕ) → known_at self.new.chunk self.new.pairs.items self.new.size (O.bytes self.new.origin) (C.bytes self.new.cow) k ≡ known_at self.old.chunk self.old.pairs.items self.old.size (O.bytes self.old.origin) (C.bytes self.old.cow) k }
        ensures calm { (k : ℕ) (from : ℕ) (count : ℕ) → FailsAt (O.may_fail self.new.origin) (C.may_fail self.new.cow) self.new.chunk self.new.pairs.items self.new.size k from count → FailsAt (O.may_fail self.old.origin) (C.may_fail self.old.cow) self.old.chunk self.old.pairs.items self.old.size k from count }
    {
        if 512 * self.size < at + out.len() as u64 {
            return Err(io::ErrorKind::UnexpectedEof.into());
        }
        if export == 0 {
            return self.read_snapshot(at, out);
        }
        self.origin.read_at(at, out)
    }
}

impl<O: Image, C: Image> Served for Pictures<O, C> {
    ghost shows = { λ p k. known_at p.chunk p.pairs.items p.size (O.bytes p.origin) (C.bytes p.cow) k };

    ghost may_fail = { λ p k at n. FailsAt (O.may_fail p.origin) (C.may_fail p.cow) p.chunk p.pairs.items p.size k at n };

    fn read(&mut self, export: usize, at: u64, out: &mut [u8]) -> Result<(), Fault> {
        match self.read_from(export, at, out) {
            Ok(()) => Ok(()),
            Err(_) => Err(Fault::Io),
        }
    }

    fn marks(&mut self, _export: usize, at: u64, most: u32) -> Result<Marked, Fault> {
        Ok(marked(self.chunk, self.pairs.as_slice(), at, most))
    }
}
