// A volume of which one device is served.
ghost use Rattle.std.specs.Prelude.{◌≡◌, IfErr, IfOk, false};
ghost use Rattle.sector.specs.declared.refusal.Refusal.TheVariants.{NoMemory};
ghost use Rattle.plain_machine.specs.declared.request.Dev.TheVariants.{Origin};

use device::Ahead;
use group_commit::Batch;
use plain_machine::{Dev, Event};
use sector::Refusal;
use std::alloc::Global;
use std::marker::Model;
use volume::Volume;

/// So many events are gathered at most without more memory: of 64 requests, or of 256 copies.
const ROOM: usize = 256;

/// A volume with its snapshots, of which one device is served. Contracts see the volume, the devices of the exports and the one that is
/// chosen, and whether memory was refused.
#[derive(Drop)]
pub struct VolumeArray<B: Ahead> {
    pub(crate) alloc: Global,
    pub(crate) volume: Volume<B>,
    /// The devices of the exports, in their order.
    pub(crate) devices: Vec<Dev>,
    /// The device of the export that the client uses.
    pub(crate) dev: Dev,
    /// The present batch, and its events, of which those before `at` were looked at.
    pub(crate) batch: Batch,
    pub(crate) events: Vec<Event>,
    pub(crate) at: usize,
    /// Whether an event was done in this round.
    pub(crate) went: bool,
    /// Whether memory was refused for a round.
    pub(crate) starved: bool,
}

impl<B: Ahead> Model for VolumeArray<B> {
    ghost use Rattle.volume_nbd.specs.Served.{Served};

    ghost Value = { Served B };

    ghost view = { λ a. record { volume = a.volume; exports = a.devices.items; chosen = a.dev; starved = a.starved } };
}

impl<B: Ahead> VolumeArray<B> {
    /// A volume that is served, with an export for each of these devices, in their order. The origin is chosen. Where memory is refused,
    /// the volume is given back.
    pub fn new(
        alloc: Global,
        volume: Volume<B>,
        devices: Vec<Dev>,
    ) -> Result<VolumeArray<B>, (Refusal, Volume<B>)>
        ensures ok { IfOk result (λ a. a ≡ record { volume = volume; exports = devices.items; chosen = Origin; starved = false }) }
        ensures err { IfErr result (λ e. e ≡ record { 0 = NoMemory; 1 = volume }) }
    {
        let Ok(events) = Vec::with_capacity(alloc, ROOM) else {
            return Err((Refusal::NoMemory, volume));
        };
        Ok(VolumeArray {
            alloc,
            volume,
            devices,
            dev: Dev::Origin,
            batch: Batch::Areas,
            events,
            at: 0,
            went: false,
            starved: false,
        })
    }

    /// The volume.
    pub fn volume(&self) -> &Volume<B>
        ensures { result.now ≡ self.now.volume }
    {
        &self.volume
    }
}
