// A rig.
use crate::place::VolumePlace;
use crate::queue::TicketQueue;
use audited_volume::Audit;
use layers::Layered;
use locked_volume::Room;
use std::marker::Model;
use thread_channels::Gate;

/// Volumes that threads share, each under a lock of its own, and the tickets of their copies. Contracts see how many
/// workers there are.
#[derive(Drop)]
pub struct Rig<B: Layered, G: Gate + Drop, J: Room> {
    pub(crate) places: Vec<VolumePlace<B, J>>,
    /// Room for the audits, once the rig is closed.
    pub(crate) audits: Vec<Audit<B>>,
    pub(crate) queue: TicketQueue<J>,
    pub(crate) workers: usize,
    pub(crate) gate: G,
}

impl<B: Layered, G: Gate + Drop, J: Room> Model for Rig<B, G, J> {
    ghost use Rattle.volume_threads.specs.Rigs.{RigShape};

    ghost Value = { RigShape };

    ghost use Rattle.std.specs.Prelude.{◌≡◌, ◌≤◌, [], length, vec_capacity};
    ghost use Rattle.volume_threads.specs.Placed.{AreNumbered};

    ghost view = { λ r. record { workers = r.workers } };

    ghost invariant = { λ r. AreNumbered (λ p. p.volume) r.places.items × (length r.places.items ≡ J.volumes) × (r.audits.items ≡ []) × (length r.places.items ≤ vec_capacity r.audits) };
}
