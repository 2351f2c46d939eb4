// What lies under a volume's lock.
use crate::boards::Publishers;
use crate::room::Room;
use audited_volume::Audit;
use layers::Layered;
use std::marker::{Model, PhantomData};

/// An audit, the pass that knows all its new entries and its requests in flight, and those that publish the usages of its volume's
/// places. Each new entry is one that was asked for. Contracts see the volume's place in the rig, the audit, and what was published of
/// each place.
#[derive(Drop)]
pub struct Post<B: Layered, J: Room> {
    pub(crate) volume: usize,
    pub(crate) audit: Audit<B>,
    pub(crate) keeper: crate::Pass,
    pub(crate) publishers: Publishers,
    pub(crate) room: PhantomData<J>,
}

impl<B: Layered, J: Room> Model for Post<B, J> {
    ghost use Rattle.std.specs.List.{All};
    ghost use Rattle.locked_volume.specs.AskedFor.{IsAskedFor};
    ghost use Rattle.locked_volume.specs.Boards.{AreShown};
    ghost use Rattle.locked_volume.specs.Posts.{PostHolds, PostShape};

    ghost Value = { PostShape B };

    ghost view = { λ p. record { volume = p.volume; audit = p.audit; told = p.publishers } };

    ghost invariant = { λ p. PostHolds B.size B.layers (J.history p.volume) (J.start p.volume) (J.fixed p.volume) p.audit p.keeper × AreShown (J.boards p.volume) p.audit.volume p.publishers × All (IsAskedFor (J.merges p.volume)) p.keeper.me.0.all };
}
