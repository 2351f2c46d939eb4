// A read that waits for a look, and copies that wait for one another.
use std::sync::atomic::{AtomicBool, Ordering};
use std::thread::yield_now;
use thread_channels::Gate;

/// How many turns a thread waits for another at most.
const MOST_TURNS: u32 = 1_000_000;

/// How far a read and a look have come. Threads share it.
#[derive(Drop)]
pub struct Waiting {
    armed: AtomicBool,
    begun: AtomicBool,
    answered: AtomicBool,
    ran_out: AtomicBool,
}

/// Waits until something is so, for so many turns at most. Whether it is.
fn wait_for(flag: &AtomicBool) -> bool {
    for _ in 0..MOST_TURNS {
        if flag.load(Ordering::SeqCst) {
            return true;
        }
        yield_now();
    }
    false
}

impl Waiting {
    pub fn new() -> Waiting {
        Waiting {
            armed: AtomicBool::new(false),
            begun: AtomicBool::new(false),
            answered: AtomicBool::new(false),
            ran_out: AtomicBool::new(false),
        }
    }

    /// From here on a read waits.
    pub fn arm(&self) {
        self.armed.store(true, Ordering::SeqCst);
    }

    /// A read: once it is armed, it has begun, and it waits until the look is answered.
    pub fn read(&self) {
        if self.armed.load(Ordering::SeqCst) {
            self.begun.store(true, Ordering::SeqCst);
            if !wait_for(&self.answered) {
                self.ran_out.store(true, Ordering::SeqCst);
            }
        }
    }

    /// Before a look: waits until the read has begun. Whether it has.
    pub fn has_begun(&self) -> bool {
        wait_for(&self.begun)
    }

    /// The look is answered.
    pub fn answer(&self) {
        self.answered.store(true, Ordering::SeqCst);
    }

    /// Whether no read's turns ran out.
    pub fn was_in_time(&self) -> bool {
        !self.ran_out.load(Ordering::SeqCst)
    }
}

/// Two copies that meet. Threads share it.
#[derive(Drop)]
pub struct Meeting {
    first: AtomicBool,
    second: AtomicBool,
    ran_out: AtomicBool,
}

impl Meeting {
    pub fn new() -> Meeting {
        Meeting {
            first: AtomicBool::new(false),
            second: AtomicBool::new(false),
            ran_out: AtomicBool::new(false),
        }
    }

    /// One of them has begun, and waits until the other one has.
    fn meet(&self, own: &AtomicBool, other: &AtomicBool) {
        own.store(true, Ordering::SeqCst);
        if !wait_for(other) {
            self.ran_out.store(true, Ordering::SeqCst);
        }
    }

    /// Whether both have begun, and neither one's turns ran out.
    pub fn was_held(&self) -> bool {
        self.first.load(Ordering::SeqCst)
            && self.second.load(Ordering::SeqCst)
            && !self.ran_out.load(Ordering::SeqCst)
    }
}

/// A gate at which the copies of tickets 1 and 2 meet.
#[derive(Drop)]
pub struct MeetingGate<'a> {
    pub meeting: &'a Meeting,
}

impl Gate for MeetingGate<'_> {
    fn before(&self, ticket: u64) {
        let meeting = self.meeting;
        match ticket {
            1 => meeting.meet(&meeting.first, &meeting.second),
            2 => meeting.meet(&meeting.second, &meeting.first),
            _ => {}
        }
    }
}
