// A store and its origin are served.
ghost use Rattle.std.specs.Prelude.{◌≡◌, ℕ, ◌*◌, ◌≤◌, List, length, OnOk, Some};
ghost use Rattle.cow_image.specs.Maps.{IsMapOf};
ghost use Rattle.cow_image.specs.Shown.{shown};
ghost use Rattle.cow_format.specs.Picture.{picture};
ghost use Rattle.std.specs.Prelude.{Bool, false};
ghost use Rattle.cow_nbd.specs.Shows.{IsServedBy, has_copy, FailsAt, FailsFresh, OrChanged};

use crate::pictures::Pictures;
use crate::watching::{Watch, Watched};
use cow_image::CowMap;
use image::{Image, MemImage};
use nbd_messages::READ_FLAGS;
use nbd_options::Export;
use nbd_read_session::{Stopped, serve};
use std::alloc::Global;
use std::io::{Read, Write};

/// Serves what a snapshot shows, and its origin, while the images are as they were. A read is answered EIO only where a read
/// of the images may fail, or they may have changed.
pub fn serve_pictures<O: Image, C: Image, V: Watch, R: Read, W: Write>(
    alloc: Global,
    pictures: &mut Pictures<O, C>,
    watch: &mut V,
    reader: &mut R,
    writer: &mut W,
) -> Result<(), Stopped>
    ensures { OnOk result ((o : List ℕ) → (b : List ℕ) → (heard : List ℕ) → O.bytes pictures.old.origin ≡ Some o → C.bytes pictures.old.cow ≡ Some b → R.remaining reader.old ≡ Some heard → IsServedBy (OrChanged (V.has_told watch.old) (V.may_change watch.old) (FailsAt (O.may_fail pictures.old.origin) (C.may_fail pictures.old.cow) pictures.old.chunk pictures.old.pairs.items pictures.old.size)) pictures.old.size (shown pictures.old.chunk o b pictures.old.pairs.items 0 (512 * pictures.old.size)) o (has_copy pictures.old.chunk pictures.old.pairs.items) heard (W.contents writer.old) (W.contents writer.new)) }
{
    let size = 512 * pictures.size;
    let snapshot = Export {
        name: b"snapshot".as_slice(),
        size,
        flags: READ_FLAGS,
        blocks: None,
        bitmap: true,
    };
    let origin = Export {
        name: b"origin".as_slice(),
        size,
        flags: READ_FLAGS,
        blocks: None,
        bitmap: true,
    };
    let exports = [snapshot, origin];
    let mut watched = Watched {
        served: pictures,
        watch,
    };
    match serve(alloc, &mut watched, exports.as_slice(), reader, writer) {
        Ok(()) => Ok(()),
        Err(stopped) => Err(stopped),
    }
}

/// Serves the snapshot of a written store, and its origin, which has so many sectors.
pub fn serve_written<O: Image + Drop, C: Image + Drop, V: Watch, R: Read, W: Write>(
    alloc: Global,
    origin: O,
    cow: C,
    map: CowMap,
    size: u64,
    watch: &mut V,
    reader: &mut R,
    writer: &mut W,
) -> Result<(), Stopped>
    requires { size ≤ 68_719_476_736 }
    ensures { OnOk result ((o : List ℕ) → (b : List ℕ) → (heard : List ℕ) → O.bytes origin ≡ Some o → C.bytes cow ≡ Some b → R.remaining reader.old ≡ Some heard → length o ≡ 512 * size → IsMapOf size b map → IsServedBy (OrChanged (V.has_told watch.old) (V.may_change watch.old) (FailsAt (O.may_fail origin) (C.may_fail cow) map.chunk map.pairs.items size)) size (picture map.chunk o b) o (has_copy map.chunk map.pairs.items) heard (W.contents writer.old) (W.contents writer.new)) }
{
    let mut pictures = Pictures {
        origin,
        cow,
        chunk: map.chunk,
        pairs: map.pairs,
        size,
    };
    match serve_pictures(alloc, &mut pictures, watch, reader, writer) {
        Ok(()) => Ok(()),
        Err(stopped) => Err(stopped),
    }
}

/// The chunk size with which the origin of a fresh store is read.
const FRESH_CHUNK: u32 = 128;

/// Serves the snapshot of a fresh store, which is its origin, and that origin, which has so many sectors.
pub fn serve_fresh<O: Image + Drop, V: Watch, R: Read, W: Write>(
    alloc: Global,
    origin: O,
    size: u64,
    watch: &mut V,
    reader: &mut R,
    writer: &mut W,
) -> Result<(), Stopped>
    requires { size ≤ 68_719_476_736 }
    ensures { OnOk result ((o : List ℕ) → (heard : List ℕ) → O.bytes origin ≡ Some o → R.remaining reader.old ≡ Some heard → length o ≡ 512 * size → IsServedBy (OrChanged (V.has_told watch.old) (V.may_change watch.old) (FailsFresh (O.may_fail origin) size)) size o o (λ _. false) heard (W.contents writer.old) (W.contents writer.new)) }
{
    let cow = MemImage {
        bytes: Vec::new(alloc),
    };
    let mut pictures = Pictures {
        origin,
        cow,
        chunk: FRESH_CHUNK,
        pairs: Vec::new(alloc),
        size,
    };
    match serve_pictures(alloc, &mut pictures, watch, reader, writer) {
        Ok(()) => Ok(()),
        Err(stopped) => Err(stopped),
    }
}
