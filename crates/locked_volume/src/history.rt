// What the keeper and the seats do.
ghost use Rattle.std.specs.Prelude.{◌≡◌, ℕ, ◌+◌, List, [], ◌∷◌, ◌++◌, true, false, IfOk};
ghost use Rattle.audited_volume.specs.Entries.{entries_by};
ghost use Rattle.audited_volume.specs.Seats.{seated_under};
ghost use Rattle.locked_volume.specs.Keeping.{Begins, HasAsked, HasSeen, Answers, MayNote, answered_by, asked_by, told_of, held_by, is_silent, keeper_of, knower, looking_of, next_seat, after_deal, noted_by, seat_of, seated_with, Knows};
ghost use Rattle.locked_volume.specs.Ties.{IsPassOf, table_of};

use crate::rule::{Checks, Deals, Looks, Notes, Pass, Sits};
use crate::table::History;
use crate::told::Told;
use atomic_table::Table;
use audited_volume::Entry;
use plain_machine::{ReqId, Request};
use std::alloc::{AllocError, Global};
use std::snapshot::Snapshot;

impl History {
    /// A history that begins with these entries and no request in flight, and its keeper's pass.
    pub fn new(alloc: Global, entries: &Vec<Entry>) -> Result<(History, Pass), AllocError>
        ensures { IfOk result (λ r. IsPassOf (table_of r.0) r.1 × (r.1.me.0 ≡ knower entries.now.items 1)) }
    {
        let (table, pass) = Table::of_words(alloc, &[0], entries)?;
        Ok((History { table }, pass))
    }

    /// A pass for the next seat. The first one is seat 1.
    pub fn deal(&self, keeper: &mut Pass) -> Pass
        requires { IsPassOf (table_of self.now) keeper.old × (keeper.old.me.0.keeps ≡ true) × (keeper.old.me.0.sits ≡ false) }
        ensures this { IsPassOf (table_of self.now) keeper.new × (keeper.new.me.0 ≡ after_deal keeper.old.me.0) }
        ensures new { IsPassOf (table_of self.now) result × (result.me.0 ≡ next_seat keeper.old.me.0) }
    {
        self.table.shared.split_seat::<Deals>(keeper)
    }

    /// What is told happens.
    fn tell(&self, keeper: &mut Pass, told: &Told)
        requires { IsPassOf (table_of self.now) keeper.old × (keeper.old.me.0.keeps ≡ true) × MayNote keeper.old.me.0 told.now }
        ensures this { IsPassOf (table_of self.now) keeper.new }
        ensures is { keeper.new.me.0 ≡ told_of keeper.old.me.0 told.now }
        ensures knows { Knows keeper.old.me.0 told.now }
        ensures seen { HasSeen keeper.old.me.0 }
    {
        self.table
            .shared
            .compare_exchange_with::<Notes>(keeper, 0, 0, 0, told);
    }

    /// An entry that answers no request.
    pub fn note(&self, keeper: &mut Pass, entry: &Entry)
        requires { IsPassOf (table_of self.now) keeper.old × (keeper.old.me.0.keeps ≡ true) × (is_silent entry.now ≡ true) }
        ensures this { IsPassOf (table_of self.now) keeper.new }
        ensures is { keeper.new.me.0 ≡ noted_by entry.now keeper.old.me.0 }
    {
        self.tell(keeper, &Told::Noted(Snapshot::of(entry)));
    }

    /// The keeper takes a seat's pass in, hears what is told, and gives it back, which has then seen all entries.
    fn tell_for(&self, keeper: &mut Pass, me: Pass, told: &Told) -> Pass
        requires keeper { IsPassOf (table_of self.now) keeper.old × (keeper.old.me.0.keeps ≡ true) }
        requires seat { IsPassOf (table_of self.now) me × (me.me.0.sits ≡ true) }
        requires may { MayNote (seated_with keeper.old.me.0 me.me.0) told.now }
        ensures keeper { IsPassOf (table_of self.now) keeper.new × (keeper.new.me.0 ≡ keeper_of (told_of (seated_with keeper.old.me.0 me.me.0) told.now)) }
        ensures seat { IsPassOf (table_of self.now) result × (result.me.0 ≡ looking_of (told_of (seated_with keeper.old.me.0 me.me.0) told.now)) }
        ensures knows { Knows (seated_with keeper.old.me.0 me.me.0) told.now }
        ensures later { Begins me.me.0.seen keeper.old.me.0.all }
    {
        self.table.shared.join_seat::<Sits>(keeper, me);
        self.tell(keeper, told);
        self.table.shared.split_seat::<Looks>(keeper)
    }

    /// A request of this seat is in flight, under a number.
    pub fn ask(
        &self,
        keeper: &mut Pass,
        me: Pass,
        number: ReqId,
        request: Snapshot<Request>,
    ) -> Pass
        requires keeper { IsPassOf (table_of self.now) keeper.old × (keeper.old.me.0.keeps ≡ true) }
        requires seat { IsPassOf (table_of self.now) me × (me.me.0.sits ≡ true) }
        ensures keeper { IsPassOf (table_of self.now) keeper.new × (keeper.new.me.0 ≡ keeper_of (asked_by number request.value (seated_with keeper.old.me.0 me.me.0))) }
        ensures seat { IsPassOf (table_of self.now) result × (result.me.0 ≡ looking_of (asked_by number request.value (seated_with keeper.old.me.0 me.me.0))) }
        ensures later { Begins me.me.0.seen keeper.old.me.0.all }
    {
        self.tell_for(keeper, me, &Told::Asked(number, request))
    }

    /// The request of this seat under a number is answered by an entry. What was asked under the number is what the seat
    /// waits for under it. The seat's own entries before it are its entries of all, after those that it had.
    pub fn answer(&self, keeper: &mut Pass, me: Pass, number: ReqId, entry: &Entry) -> Pass
        requires keeper { IsPassOf (table_of self.now) keeper.old × (keeper.old.me.0.keeps ≡ true) }
        requires seat { IsPassOf (table_of self.now) me × (me.me.0.sits ≡ true) × Answers me.me.0.seat entry.now }
        requires asked { HasAsked number (seated_with keeper.old.me.0 me.me.0) }
        ensures keeper { IsPassOf (table_of self.now) keeper.new × (keeper.new.me.0 ≡ keeper_of (answered_by number entry.now (seated_with keeper.old.me.0 me.me.0))) }
        ensures seat { IsPassOf (table_of self.now) result × (result.me.0 ≡ looking_of (answered_by number entry.now (seated_with keeper.old.me.0 me.me.0))) }
        ensures knows { seated_under number me.me.0.waits ≡ seated_under number keeper.old.me.0.flying }
        ensures own { entries_by me.me.0.seat keeper.old.me.0.all ≡ entries_by me.me.0.seat me.me.0.old ++ me.me.0.mine }
        ensures later { Begins me.me.0.seen keeper.old.me.0.all }
    {
        self.tell_for(keeper, me, &Told::Answered(number, Snapshot::of(entry)))
    }

    /// A seat sees all entries. What it had seen are the first of them.
    pub fn look(&self, keeper: &mut Pass, me: Pass) -> Pass
        requires keeper { IsPassOf (table_of self.now) keeper.old × (keeper.old.me.0.keeps ≡ true) }
        requires seat { IsPassOf (table_of self.now) me × (me.me.0.sits ≡ true) }
        ensures keeper { IsPassOf (table_of self.now) keeper.new × (keeper.new.me.0 ≡ keeper_of (seated_with keeper.old.me.0 me.me.0)) }
        ensures seat { IsPassOf (table_of self.now) result × (result.me.0 ≡ looking_of (seated_with keeper.old.me.0 me.me.0)) }
        ensures later { Begins me.me.0.seen keeper.old.me.0.all }
    {
        self.table.shared.join_seat::<Sits>(keeper, me);
        self.table.shared.load::<Checks>(keeper, 0);
        self.table.shared.split_seat::<Looks>(keeper)
    }

    /// A seat's own entries are its entries of all, after those that it had, its requests in flight are those that it waits for,
    /// and what it has seen are the first entries.
    pub fn settle(&self, keeper: &mut Pass, me: Pass) -> Pass
        requires keeper { IsPassOf (table_of self.now) keeper.old × (keeper.old.me.0.keeps ≡ true) }
        requires seat { IsPassOf (table_of self.now) me × (me.me.0.sits ≡ true) }
        ensures keeper { IsPassOf (table_of self.now) keeper.new × (keeper.new.me.0 ≡ keeper_of (seated_with keeper.old.me.0 me.me.0)) }
        ensures seat { IsPassOf (table_of self.now) result × (result.me.0 ≡ seat_of (seated_with keeper.old.me.0 me.me.0)) }
        ensures own { entries_by me.me.0.seat keeper.old.me.0.all ≡ entries_by me.me.0.seat me.me.0.old ++ me.me.0.mine }
        ensures waits { held_by me.me.0.seat keeper.old.me.0.flying ≡ me.me.0.waits }
        ensures later { Begins me.me.0.seen keeper.old.me.0.all }
    {
        self.table.shared.join_seat::<Sits>(keeper, me);
        self.table.shared.load::<Checks>(keeper, 0);
        self.table.shared.split_seat::<Sits>(keeper)
    }
}
