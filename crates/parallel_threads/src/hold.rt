// The gate of a block.

use std::sync::atomic::{AtomicBool, Ordering};
use std::thread::yield_now;
use thread_channels::Gate;

/// How many turns a copy is held for at most.
const MOST_TURNS: u32 = 1_000_000;

/// Holds the copy of one ticket until a read is answered, or until its turns ran out. Threads share it.
#[derive(Drop)]
pub struct Hold {
    ticket: Option<u64>,
    answered: AtomicBool,
    ran_out: AtomicBool,
}

impl Hold {
    /// Holds the ticket of this count, from 1; with `None` it holds no ticket.
    pub fn new(ticket: Option<u32>) -> Hold {
        Hold {
            ticket: ticket.map(u64::from),
            answered: AtomicBool::new(false),
            ran_out: AtomicBool::new(false),
        }
    }

    /// A read was answered.
    pub fn answer(&self) {
        self.answered.store(true, Ordering::SeqCst);
    }

    /// Whether its turns did not run out.
    pub fn opened(&self) -> bool {
        !self.ran_out.load(Ordering::SeqCst)
    }

    /// Waits until a read was answered, for so many turns at most.
    fn wait(&self) {
        for _ in 0..MOST_TURNS {
            if self.answered.load(Ordering::SeqCst) {
                return;
            }
            yield_now();
        }
        self.ran_out.store(true, Ordering::SeqCst);
    }
}

/// The gate of a rig, whose hold is shared with its seats.
#[derive(Drop)]
pub struct HoldGate<'a> {
    pub hold: &'a Hold,
}

impl Gate for HoldGate<'_> {
    fn before(&self, ticket: u64) {
        if self.hold.ticket == Some(ticket) {
            self.hold.wait();
        }
    }
}
