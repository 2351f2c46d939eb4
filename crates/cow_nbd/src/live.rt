// A snapshot is served while another program writes its files.
ghost use Rattle.std.specs.Prelude.{◌≡◌, ℕ, ◌*◌, ◌≤◌, List, length, OnOk, Some};
ghost use Rattle.cow_format.specs.Pairs.{pairs_of};
ghost use Rattle.cow_image.specs.Shown.{shown};
ghost use Rattle.read_beside_writer.specs.Moments.{Files, IsSaving};
ghost use Rattle.cow_nbd.specs.Live.{known_live, IsServedLive};

use nbd_messages::READ_FLAGS;
use nbd_options::Export;
use nbd_read_session::{Fault, Marked, Served, Stopped, serve};
use read_beside_writer::{LiveSnapshot, Lost, MovingFiles};
use std::alloc::Global;
use std::io::{Read, Write};

/// What a snapshot shows while its files are written. Once it is lost, or its pairs are taken away, nothing is given any more.
#[derive(Drop)]
pub struct LivePicture<F: MovingFiles> {
    pub snapshot: LiveSnapshot<F>,
    /// Why it is given no more.
    pub ended: Option<Lost>,
    pub ghost saved: { (h : ℕ → Files) → F.history snapshot.files ≡ Some h → IsSaving snapshot.chunk h × (512 * snapshot.size ≤ length (h 0).origin) },
}

impl<F: MovingFiles> LivePicture<F> {
    /// Notes why bytes were not given.
    fn note(&mut self, lost: Lost)
        ensures { self.new.snapshot ≡ self.old.snapshot }
    {
        match lost {
            Lost::Header | Lost::Pairs => self.ended = Some(lost),
            _ => {}
        }
    }
}

impl<F: MovingFiles> Served for LivePicture<F> {
    ghost shows = { λ p k. known_live p.snapshot.chunk p.snapshot.size (F.history p.snapshot.files) };

    ghost may_fail = { λ _ _ _ _. Unit {0} };

    fn read(&mut self, _export: usize, at: u64, out: &mut [u8]) -> Result<(), Fault> {
        if self.ended.is_some() {
            return Err(Fault::Io);
        }
        if 512 * self.snapshot.size < at + out.len() as u64 {
            return Err(Fault::Io);
        }
        match self.snapshot.read(at, out) {
            Ok(()) => Ok(()),
            Err(lost) => {
                self.note(lost);
                Err(Fault::Io)
            }
        }
    }

    // Nothing is told of it: no export of it has marks.
    fn marks(&mut self, _export: usize, _at: u64, most: u32) -> Result<Marked, Fault> {
        Ok(Marked {
            marked: true,
            len: most,
        })
    }
}

/// Serves a snapshot alone: its origin is being written.
pub fn serve_live<F: MovingFiles, R: Read, W: Write>(
    alloc: Global,
    picture: &mut LivePicture<F>,
    reader: &mut R,
    writer: &mut W,
) -> Result<(), Stopped>
    ensures { OnOk result ((h : ℕ → Files) → (heard : List ℕ) → F.history picture.old.snapshot.files ≡ Some h → R.remaining reader.old ≡ Some heard → IsServedLive picture.old.snapshot.size (shown picture.old.snapshot.chunk (h 0).origin (h 0).store (pairs_of picture.old.snapshot.chunk (h 0).store) 0 (512 * picture.old.snapshot.size)) heard (W.contents writer.old) (W.contents writer.new)) }
{
    let snapshot = Export {
        name: b"snapshot".as_slice(),
        size: 512 * picture.snapshot.size,
        flags: READ_FLAGS,
        blocks: None,
        bitmap: false,
    };
    let exports = [snapshot];
    match serve(alloc, picture, exports.as_slice(), reader, writer) {
        Ok(()) => Ok(()),
        Err(stopped) => Err(stopped),
    }
}
