// The count of tickets.
ghost use Rattle.std.specs.Prelude.{◌≡◌, ◌+◌, ◌-◌, ◌^◌, ◌<◌, ℕ, min};

/// How many tickets were counted. It is kept under a lock where many threads count.
#[derive(Drop)]
pub struct Count {
    pub last: u64,
}

impl Count {
    /// No ticket yet.
    pub fn new() -> Count
        ensures { result.last ≡ 0 }
    {
        Count { last: 0 }
    }

    /// Counts the next ticket, from 1. The count stays at 2^64 - 1.
    pub fn draw(&mut self) -> u64
        ensures drawn { result ≡ min (self.old.last + 1) (2 ^ 64 - 1) }
        ensures kept { self.new.last ≡ result }
    {
        self.last = self.last.saturating_add(1);
        self.last
    }
}
