// What a rig is made from, beside its audits.
use locked_volume::OpenedVolume;
use std::marker::Model;
use thread_channels::{TicketPass, Tickets};

/// Tables, boards and first passes for the volumes of a rig, and its queue of tickets. They are made before the rig, so that the
/// caller can name them. Contracts see the tables, the boards, the queue, and how many passes of it are left.
#[derive(Drop)]
pub struct Opened {
    pub(crate) volumes: Vec<OpenedVolume>,
    pub(crate) tickets: Tickets,
    pub(crate) pass: TicketPass,
}

impl Model for Opened {
    ghost use Rattle.volume_threads.specs.Rigs.{OpenedShape};

    ghost Value = { OpenedShape };

    ghost use Rattle.std.specs.Prelude.{◌≡◌};

    ghost view = { λ o. record { volumes = o.volumes.items; queue = o.tickets; parts = o.pass.parts } };

    ghost invariant = { λ o. o.pass.queue ≡ o.tickets };
}
