// The rule of a history, and what each step tells of it.

use crate::told::Told;
use atomic_table::{Join, Play, Seat, Split, TableRule};
use audited_volume::{Answered, Entry};
use plain_machine::Request;
use std::collections::LinkedList;
use std::marker::Model;

/// A request in flight, under its number, with the seat that submitted it.
pub struct Asked {
    number: u64,
    seat: u8,
    request: Request,
}

impl Model for Asked {
    ghost use Rattle.audited_volume.specs.Seats.{Seated};

    ghost Value = { Seated };

    ghost view = { λ a. record { number = a.number; seat = a.seat; request = a.request } };
}

// What a pass knows. No value of it is made. The keeper: all entries, the requests in flight, and how many seats were dealt.
// A seat: its number, the entries when it was dealt, its own entries since then, its own requests in flight, and the entries when
// it looked last.
pub struct View {
    pub keeps: bool,
    pub all: LinkedList<Entry>,
    pub flying: LinkedList<Asked>,
    pub dealt: u64,
    pub sits: bool,
    pub seat: u64,
    pub old: LinkedList<Entry>,
    pub mine: LinkedList<Answered>,
    pub waits: LinkedList<Asked>,
    pub seen: LinkedList<Entry>,
}

/// One pass knows all entries and requests, and each seat's pass those of its seat.
pub struct Kept;

impl TableRule<Told, View, Vec<Entry>> for Kept {
    ghost use Rattle.locked_volume.specs.Keeping.{IsKept, knower};

    ghost holds = { λ k. IsKept };

    ghost first = { λ k. knower k.items 1 };
}

/// What was said happens.
pub struct Notes;

impl Play<Told, View> for Notes {
    ghost use Rattle.locked_volume.specs.Keeping.{IsNotedAs};

    ghost then = { IsNotedAs };
}

/// Compares what a seat knows with what the keeper knows.
pub struct Checks;

impl Play<Told, View> for Checks {
    ghost use Rattle.locked_volume.specs.Keeping.{IsChecked};

    ghost then = { IsChecked };
}

/// A pass for the next seat.
pub struct Deals;

impl Split<View> for Deals {
    ghost use Rattle.locked_volume.specs.Keeping.{after_deal, next_seat};

    ghost left = { after_deal };

    ghost right = { next_seat };
}

/// The keeper takes a seat's pass in, and gives it back.
pub struct Sits;

impl Split<View> for Sits {
    ghost use Rattle.locked_volume.specs.Keeping.{keeper_of, seat_of};

    ghost left = { keeper_of };

    ghost right = { seat_of };
}

/// The keeper gives a seat's pass back, which has now seen all entries.
pub struct Looks;

impl Split<View> for Looks {
    ghost use Rattle.locked_volume.specs.Keeping.{keeper_of, looking_of};

    ghost left = { keeper_of };

    ghost right = { looking_of };
}

impl Join<View> for Sits {
    ghost use Rattle.locked_volume.specs.Keeping.{seated_with, nobody};

    ghost both = { seated_with };

    ghost spent = { nobody };
}

/// What a thread knows of a history. It takes no bytes.
pub type Pass = Seat<Told, View>;
