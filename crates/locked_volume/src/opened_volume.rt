// What a volume of a rig is opened with.
ghost use Rattle.std.specs.Prelude.{◌≡◌, ◌+◌, [], IfOk};
ghost use Rattle.locked_volume.specs.Beside.{IsBeside};
ghost use Rattle.locked_volume.specs.Boards.{AreFirstTold, AreReaders};
ghost use Rattle.locked_volume.specs.Fixed.{fixed_of};
ghost use Rattle.locked_volume.specs.Seats.{IsSeat};

use crate::beside::Beside;
use crate::boards::{Boards, Publishers, Readers};
use crate::post::Post;
use crate::room::Room;
use crate::{History, Pass};
use audited_volume::Audit;
use layers::Layered;
use std::alloc::{AllocError, Global};
use std::marker::{Model, PhantomData};

/// The history and the boards of one volume, with the passes that are to stand under its lock. Contracts see the history's table,
/// the boards, and the number of the next seat.
#[derive(Drop)]
pub struct OpenedVolume {
    pub(crate) beside: Beside,
    pub(crate) keeper: Pass,
    pub(crate) publishers: Publishers,
}

impl Model for OpenedVolume {
    ghost use Rattle.locked_volume.specs.Beside.{OpenedAt};

    ghost Value = { OpenedAt };

    ghost use Rattle.std.specs.Prelude.{◌≡◌, []};
    ghost use Rattle.locked_volume.specs.Keeping.{knower};
    ghost use Rattle.locked_volume.specs.Ties.{IsPassOf, table_of};
    ghost use Rattle.locked_volume.specs.Boards.{ArePublishers, AreUnused};

    ghost view = { λ o. record { table = table_of o.beside.history; boards = o.beside.boards; next = o.keeper.me.0.dealt } };

    ghost invariant = { λ o. IsPassOf (table_of o.beside.history) o.keeper × (o.keeper.me.0 ≡ knower [] o.keeper.me.0.dealt) × ArePublishers o.beside.boards o.publishers × AreUnused o.publishers };
}

impl OpenedVolume {
    /// A history that begins with no entry, and boards of empty places.
    pub fn new(alloc: Global) -> Result<OpenedVolume, AllocError>
        ensures { IfOk result (λ o. o.next ≡ 1) }
    {
        let none = Vec::new(alloc);
        let (history, keeper) = History::new(alloc, &none)?;
        let (boards, publishers) = Boards::new(alloc)?;
        Ok(OpenedVolume {
            beside: Beside { history, boards },
            keeper,
            publishers,
        })
    }

    /// The pass of the next seat to the history.
    pub fn deal(&mut self) -> Pass
        ensures dealt { self.new ≡ record self.old { next = self.old.next + 1 } }
        ensures seat { IsSeat self.old.table self.old.next result }
        ensures none { (result.me.0.old ≡ []) × (result.me.0.mine ≡ []) × (result.me.0.waits ≡ []) }
    {
        self.beside.history.deal(&mut self.keeper)
    }

    /// Passes of a seat to the boards.
    pub fn readers(&mut self, alloc: Global) -> Result<Readers, AllocError>
        ensures same { self.new ≡ self.old }
        ensures readers { IfOk result (λ readers. AreReaders self.old.boards readers) }
    {
        self.beside.boards.readers(alloc, &mut self.publishers)
    }

    /// What stands beside the lock of the volume at a place, and what stands under it: an audit with no request in flight. The
    /// usage of each place is published once, and nothing before it.
    pub fn into_post<B: Layered, J: Room>(
        self,
        volume: usize,
        audit: Audit<B>,
    ) -> (Beside, Post<B, J>)
        requires history { self.table ≡ J.history volume }
        requires boards { self.boards ≡ J.boards volume }
        requires start { audit.entries ≡ J.start volume }
        requires held { audit.held ≡ [] }
        requires fixed { fixed_of B.size B.layers audit ≡ J.fixed volume }
        ensures beside { IsBeside (J.history volume) (J.boards volume) result.0 }
        ensures volume { result.1.volume ≡ volume }
        ensures audit { result.1.audit ≡ audit }
        ensures told { AreFirstTold audit.volume result.1.told }
    {
        let OpenedVolume {
            beside,
            keeper,
            mut publishers,
        } = self;
        beside.boards.publish_all(&mut publishers, audit.volume());
        let post = Post {
            volume,
            audit,
            keeper,
            publishers,
            room: PhantomData,
        };
        (beside, post)
    }
}
