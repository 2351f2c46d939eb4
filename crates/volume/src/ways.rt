// Which way a request goes that is accepted.
ghost use Rattle.std.specs.Prelude.{◌≡◌, None};
ghost use Rattle.in_flight.specs.Kinds.{kind_of};
ghost use Rattle.in_flight.specs.declared.flights.Kind.TheVariants.{OriginWrite, SnapRead};
ghost use Rattle.volume.specs.Calls.{MayGo};

use crate::Volume;
use device::Block;
use in_flight::{Kind, request_kind};
use plain_machine::{Request, SnapId};
use sector::Chunk;
use snapshot_list::{is_clear, own_chunk, snap_at};

/// Which way a request goes.
#[derive(Drop)]
pub(crate) enum Way {
    /// It waits for nothing, and goes to the origin disk.
    Disk,
    /// It waits for nothing: a read of the snapshot at this place of the list, whose chunk's committed copy stands at this chunk of
    /// its store.
    Store(usize, Chunk),
    /// A write of the origin that waits for copies.
    Copies,
    /// Any other.
    Other,
}

impl<B: Block> Volume<B> {
    /// Which way a request goes. Beside a merge each is any other.
    #[inline(always)]
    pub(crate) fn way_of(&self, request: &Request) -> Way
        ensures { MayGo B.Block request.now result self.now }
    {
        if self.merge.is_some() {
            return Way::Other;
        }
        match request_kind(request) {
            Kind::OriginRead => if self.is_quiet() {
                Way::Disk
            } else {
                Way::Other
            },
            Kind::OriginWrite => self.way_of_write(request),
            Kind::SnapRead(id) => self.way_of_read(request, id),
            Kind::OriginFlush | Kind::SnapWrite(_) | Kind::SnapFlush(_) => Way::Other,
        }
    }

    /// Which way a write of the origin goes, where no merge is begun.
    fn way_of_write(&self, request: &Request) -> Way
        requires alone { self.now.merge ≡ None }
        requires kind { kind_of request.now ≡ OriginWrite }
        ensures { MayGo B.Block request.now result self.now }
    {
        if !is_clear(self.snaps.as_slice(), request.range.first) {
            return Way::Copies;
        }
        if self.is_quiet() {
            Way::Disk
        } else {
            Way::Other
        }
    }

    /// Which way a read of a snapshot goes, where no merge is begun.
    fn way_of_read(&self, request: &Request, id: SnapId) -> Way
        requires alone { self.now.merge ≡ None }
        requires kind { kind_of request.now ≡ SnapRead id }
        ensures { MayGo B.Block request.now result self.now }
    {
        if !self.is_quiet() {
            return Way::Other;
        }
        let Some(k) = snap_at(self.snaps.as_slice(), id) else {
            return Way::Other;
        };
        let snap = &self.snaps[k];
        match snap.place_of(own_chunk(snap, request.range.first)) {
            None => Way::Disk,
            Some(at) => Way::Store(k, at),
        }
    }
}
