// An opened volume with its exports.
ghost use Rattle.std.specs.Prelude.{◌≡◌, false, IfErr, IfOk};
ghost use Rattle.plain_machine.specs.declared.request.Dev.TheVariants.{Origin};

use crate::OpenedVolume;
use device::Ahead;
use plain_machine::Dev;
use std::alloc::{AllocError, Global};
use std::marker::Model;
use volume::Volume;
use volume_nbd::VolumeArray;

/// The array of a session that has not begun.
#[derive(Drop)]
pub struct ReadyArray<B: Ahead> {
    pub(crate) array: VolumeArray<B>,
}

impl<B: Ahead> Model for ReadyArray<B> {
    ghost use Rattle.volume_nbd.specs.Served.{Served};
    ghost use Rattle.served_session_laws.specs.Sessions.{IsOpened};

    ghost Value = { Served B };

    ghost view = { λ r. r.array };

    ghost invariant = { λ r. IsOpened B.may_hold (record { contents = B.contents; durable = B.durable; size = B.size; faults = B.fault_count; done = B.done_count }) B.layers r.array.volume };
}

impl<B: Ahead + Drop> ReadyArray<B> {
    /// An opened volume with an export for each of these devices, in their order. The origin is chosen.
    pub fn new(
        alloc: Global,
        opened: OpenedVolume<B>,
        devices: Vec<Dev>,
    ) -> Result<ReadyArray<B>, AllocError>
        ensures { IfOk result (λ r. r ≡ record { volume = opened; exports = devices.items; chosen = Origin; starved = false }) }
    {
        let OpenedVolume { volume } = opened;
        match VolumeArray::new(alloc, volume, devices) {
            Ok(array) => Ok(ReadyArray { array }),
            Err(_) => Err(AllocError),
        }
    }

    /// The volume.
    pub fn volume(&self) -> &Volume<B>
        ensures { result.now ≡ self.now.volume }
    {
        self.array.volume()
    }
}
