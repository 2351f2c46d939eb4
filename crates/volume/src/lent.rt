// A write of the origin whose bytes are lent.
ghost use Rattle.std.specs.Prelude.{◌≡◌, ◌*◌, ◌+◌, IfErr, IfOk, Some, length, true};
ghost use Rattle.volume.specs.DoesServe.{IsServedAtOnce};
ghost use Rattle.volume.specs.Lent.{is_bare, origin_write};
ghost use Rattle.volume.specs.Submitting.{submit_refusal};

use crate::Volume;
use device::Block;
use plain_machine::{Dev, Op, Reply, Request};
use sector::{Buf, Range, Refusal};
use std::alloc::Global;

impl<B: Block> Volume<B> {
    /// Whether `write_lent` may be called: there is no snapshot and no merge, and the volume is quiet.
    pub fn is_bare(&self) -> bool
        ensures { result ≡ is_bare self.now }
    {
        self.snaps.is_empty() && self.merge.is_none() && self.is_quiet()
    }

    /// Writes sectors of the origin of a bare volume by bytes that are lent: what is done is just what `serve` does of such a
    /// request, and no memory is asked for. It is refused as by `submit`, and then nothing changed.
    pub fn write_lent(
        &mut self,
        alloc: Global,
        range: Range,
        bytes: &[u8],
    ) -> Result<Reply, Refusal>
        requires bare { is_bare self.old ≡ true }
        requires bytes { length bytes.now ≡ 512 * range.count }
        ensures does { IfOk result (λ reply. IsServedAtOnce B.may_hold B.contents B.layers B.size B.fault_count B.done_count (origin_write range bytes.now) (self.old.requests + 1) reply self.old self.new) }
        ensures refused { IfErr result (λ refusal. (submit_refusal B.size (origin_write range bytes.now) self.old ≡ Some refusal) × (self.new ≡ self.old)) }
    {
        // A look at a field: what the type keeps is known from here on.
        let _ = &self.flights;
        // No refusal depends on the bytes.
        let asked = Request {
            dev: Dev::Origin,
            op: Op::Write(Buf::from_vec(Vec::new(alloc))),
            range,
        };
        match self.submit_refused(&asked) {
            Some(refusal) => return Err(refusal),
            None => {}
        }
        Ok(self.write_at_disk(range, bytes))
    }
}
