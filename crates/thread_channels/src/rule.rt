// The rule of the queue: what was put is what was taken and what it holds, each as often.
ghost use Rattle.std.specs.Prelude.{◌≡◌, ◌+◌, ◌-◌, ◌++◌, ◌∷◌, [], ⊤};
ghost use Rattle.thread_channels.specs.Balance.{hand, Balanced, IsLeft};

use crate::ticket::Ticket;
use crossbeam_channel::protocol::{Join, Lesson, Outcome, Protocol, Split};
use std::collections::LinkedList;

/// What a pass put and took, and how many parts it has of the right to know the whole. No value of it is made.
pub struct Hand {
    pub parts: u64,
    pub put: LinkedList<Ticket>,
    pub taken: LinkedList<Ticket>,
}

/// What was put is what was taken and what is left.
pub struct Balance;

impl Protocol<Ticket, Hand> for Balance {
    ghost holds = { Balanced };

    ghost first = { hand 1024 [] [] };
}

/// One part goes to a pass that has put and taken nothing, and comes back with what it put and took.
pub struct Together;

impl Split<Hand> for Together {
    ghost left = { λ v. hand (v.parts - 1) v.put v.taken };

    ghost right = { λ v. hand 1 [] [] };
}

impl Join<Hand> for Together {
    ghost both = { λ v w. hand (v.parts + w.parts) (v.put ++ w.put) (v.taken ++ w.taken) };

    ghost spent = { hand 0 [] [] };
}

/// A ticket was put.
pub struct Puts;

impl Outcome<Ticket, Hand> for Puts {
    ghost then = { λ v x w. w ≡ hand v.parts (v.put ++ x ∷ []) v.taken };
}

impl Lesson<Ticket, Hand> for Puts {
    ghost fact = { λ v items. ⊤ };
}

/// A ticket was taken.
pub struct Takes;

impl Outcome<Ticket, Hand> for Takes {
    ghost then = { λ v x w. w ≡ hand v.parts v.put (v.taken ++ x ∷ []) };
}

impl Lesson<Ticket, Hand> for Takes {
    ghost fact = { λ v items. v.parts ≡ 1024 → IsLeft v.put v.taken items };
}

/// What the pass with every part knows of the tickets that are left.
pub struct Left;

impl Lesson<Ticket, Hand> for Left {
    ghost fact = { λ v items. v.parts ≡ 1024 → IsLeft v.put v.taken items };
}
