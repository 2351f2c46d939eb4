// What a volume's devices show, by their own bytes: for tests and audits.
ghost use Rattle.std.specs.Prelude.{◌≡◌, ℕ, ◌+◌, ◌-◌, ◌*◌, ◌/◌, ◌<◌, ◌≤◌, IfErr, List, None, OnOk, Some, length, true};
ghost use Rattle.sector.specs.Bytes.{sectors_at};
ghost use Rattle.cow_format.specs.Picture.{place_of as place_in};
ghost use Rattle.plain_machine.specs.Serves.{Shows};
ghost use Rattle.volume.specs.Peeking.{is_loud_merging, is_loud_under, listed_origin, picture_by, IsListed};
ghost use Rattle.volume.specs.Volumed.{plain_of};
ghost use Rattle.volume.specs.Submitting.{dev_refusal};

use crate::Volume;
use chunk::Geometry;
use layers::Layered;
use merge::Merge;
use plain_machine::Dev;
use sector::{Range, Refusal, SECTOR_BYTES};
use snapshot::Snapshot;
use snapshot_list::snap_at;

/// Copies a piece of what a snapshot shows: from its store where the piece's chunk has a copy, else from the origin disk.
fn peek_piece<B: Layered>(
    snap: &Snapshot<B>,
    origin: &B,
    geometry: &Geometry,
    piece: Range,
    out: &mut [u8],
)
    requires chunk { geometry.now.chunk ≡ snap.now.state.chunk }
    requires places { (c n : ℕ) → place_in snap.now.pairs c ≡ Some n → snap.now.state.chunk * (n + 1) ≤ B.size snap.now.device }
    requires some { 0 < piece.count }
    requires one { (piece.first + piece.count - 1) / geometry.now.chunk ≡ piece.first / geometry.now.chunk }
    requires inside { piece.first + piece.count ≤ B.size origin.now }
    requires room { length out.old ≡ 512 * piece.count }
    ensures { out.new ≡ sectors_at (picture_by snap.now.state.chunk (B.contents origin.now) (B.contents snap.now.device) snap.now.pairs) piece.first piece.count }
{
    match snap.place_of(geometry.chunk_of(piece.first)) {
        None => origin.peek(piece, out),
        Some(place) => {
            let chunk = u64::from(geometry.chunk);
            let range = Range {
                first: chunk * place + piece.first % chunk,
                count: piece.count,
                size: snap.device().sectors(),
            };
            snap.device().peek(range, out)
        }
    }
}

/// Copies a range of what a snapshot shows, piece after piece.
fn peek_pieces<B: Layered>(
    snap: &Snapshot<B>,
    origin: &B,
    geometry: &Geometry,
    range: Range,
    out: &mut [u8],
)
    requires chunk { geometry.now.chunk ≡ snap.now.state.chunk }
    requires places { (c n : ℕ) → place_in snap.now.pairs c ≡ Some n → snap.now.state.chunk * (n + 1) ≤ B.size snap.now.device }
    requires inside { range.first + range.count ≤ B.size origin.now }
    requires room { length out.old ≡ 512 * range.count }
    ensures { out.new ≡ sectors_at (picture_by snap.now.state.chunk (B.contents origin.now) (B.contents snap.now.device) snap.now.pairs) range.first range.count }
{
    let mut from = 0;
    for piece in geometry.pieces(range) {
        let to = from + piece.count as usize * SECTOR_BYTES;
        peek_piece(snap, origin, geometry, piece, &mut out[from..to]);
        from = to;
    }
}

/// Copies a piece of what the origin shows beside a merge: from the merging store where the piece's chunk has a copy, else from the
/// origin disk.
fn peek_merged_piece<B: Layered>(
    merge: &Merge<B>,
    origin: &B,
    geometry: &Geometry,
    piece: Range,
    out: &mut [u8],
)
    requires chunk { geometry.now.chunk ≡ merge.now.state.chunk }
    requires places { (c n : ℕ) → place_in merge.now.pairs c ≡ Some n → merge.now.state.chunk * (n + 1) ≤ B.size merge.now.device }
    requires some { 0 < piece.count }
    requires one { (piece.first + piece.count - 1) / geometry.now.chunk ≡ piece.first / geometry.now.chunk }
    requires inside { piece.first + piece.count ≤ B.size origin.now }
    requires room { length out.old ≡ 512 * piece.count }
    ensures { out.new ≡ sectors_at (picture_by merge.now.state.chunk (B.contents origin.now) (B.contents merge.now.device) merge.now.pairs) piece.first piece.count }
{
    match merge.place_of(geometry.chunk_of(piece.first)) {
        None => origin.peek(piece, out),
        Some(place) => {
            let chunk = u64::from(geometry.chunk);
            let range = Range {
                first: chunk * place + piece.first % chunk,
                count: piece.count,
                size: merge.device().sectors(),
            };
            merge.device().peek(range, out)
        }
    }
}

/// Copies a range of what the origin shows beside a merge, piece after piece.
fn peek_merged<B: Layered>(
    merge: &Merge<B>,
    origin: &B,
    geometry: &Geometry,
    range: Range,
    out: &mut [u8],
)
    requires chunk { geometry.now.chunk ≡ merge.now.state.chunk }
    requires places { (c n : ℕ) → place_in merge.now.pairs c ≡ Some n → merge.now.state.chunk * (n + 1) ≤ B.size merge.now.device }
    requires inside { range.first + range.count ≤ B.size origin.now }
    requires room { length out.old ≡ 512 * range.count }
    ensures { out.new ≡ sectors_at (picture_by merge.now.state.chunk (B.contents origin.now) (B.contents merge.now.device) merge.now.pairs) range.first range.count }
{
    let mut from = 0;
    for piece in geometry.pieces(range) {
        let to = from + piece.count as usize * SECTOR_BYTES;
        peek_merged_piece(merge, origin, geometry, piece, &mut out[from..to]);
        from = to;
    }
}

impl<B: Layered> Volume<B> {
    /// Copies sectors of what the origin shows.
    fn peek_origin(&self, range: Range, out: &mut [u8])
        requires some { 0 < range.count }
        requires inside { range.first + range.count ≤ B.size self.now.origin }
        requires room { length out.old ≡ 512 * range.count }
        ensures shown { is_loud_merging B.layers self.now.merge ≡ true → out.new ≡ sectors_at (plain_of B.contents B.layers self.now).origin range.first range.count }
        ensures listed { out.new ≡ sectors_at (listed_origin B.contents self.now.origin self.now.merge) range.first range.count }
    {
        match &self.merge {
            None => self.origin.peek(range, out),
            Some(merge) => {
                // A look: the store's bytes say the pairs.
                merge.look_at_store();
                let geometry = Geometry {
                    chunk: merge.chunk(),
                    sectors: self.origin.sectors(),
                };
                peek_merged(merge, &self.origin, &geometry, range, out);
            }
        }
    }

    /// Copies sectors of what the origin or a live snapshot shows into a buffer that is as long: the bytes on the devices,
    /// whatever their layers would answer now, by the pairs that are in memory; these are what the devices show, of the origin
    /// always, or beside a merge where no layer drops writes of the merging store, and of a snapshot where no layer drops writes
    /// of its own store. No device fails at it, and no operation is counted. `MergingSnapshot` for the one that is being merged,
    /// `NoSuchDevice` where there is no such snapshot, `Invalid` where it is spoiled.
    pub fn peek(&self, dev: Dev, range: Range, out: &mut [u8]) -> Result<(), Refusal>
        requires some { 0 < range.count }
        requires inside { range.first + range.count ≤ B.size self.now.origin }
        requires room { length out.old ≡ 512 * range.count }
        ensures there { OnOk result (dev_refusal dev self.now.merge self.now.snaps ≡ None) }
        ensures bytes { OnOk result (is_loud_under B.layers dev self.now.merge self.now.snaps ≡ true → (array : List ℕ) → Shows (plain_of B.contents B.layers self.now) dev array → out.new ≡ sectors_at array range.first range.count) }
        ensures listed { OnOk result (IsListed B.contents dev range.first range.count self.now out.new) }
        ensures err { IfErr result (λ refusal. (dev_refusal dev self.now.merge self.now.snaps ≡ Some refusal) × (out.new ≡ out.old)) }
    {
        match dev {
            Dev::Origin => {
                self.peek_origin(range, out);
                Ok(())
            }
            Dev::Snap(number) => {
                if self.is_merging(number) {
                    return Err(Refusal::MergingSnapshot);
                }
                let Some(k) = snap_at(self.snaps.as_slice(), number) else {
                    return Err(Refusal::NoSuchDevice);
                };
                let snap = &self.snaps[k];
                if !snap.is_live() {
                    return Err(Refusal::Invalid);
                }
                let geometry = Geometry {
                    chunk: snap.chunk(),
                    sectors: self.origin.sectors(),
                };
                peek_pieces(snap, &self.origin, &geometry, range, out);
                Ok(())
            }
        }
    }
}
