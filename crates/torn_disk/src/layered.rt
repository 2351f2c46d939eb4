// What a fuse is asked and told besides its operations: it has no layers that know of time or take messages.
ghost use Rattle.std.specs.Prelude.{◌≡◌, Err};
ghost use Rattle.sector.specs.declared.refusal.Refusal.TheVariants.{BadTable};

use crate::torn_disk::TornDisk;
use layers::{Answer, Layered, Message};
use sector::{Range, Refusal, SECTOR_BYTES};

impl Layered for TornDisk {
    fn tick(&mut self, _seconds: u32)
        ensures same { self.new ≡ self.old }
    {}

    fn is_loud(&self) -> bool {
        true
    }

    fn peek(&self, range: Range, out: &mut [u8]) {
        match self.left {
            Some(_) => self.disk.raw(range, out),
            None => {
                let from = range.first as usize * SECTOR_BYTES;
                out.copy_from_slice(&self.before[from..from + range.count as usize * SECTOR_BYTES]);
            }
        }
    }

    fn message(&mut self, _depth: usize, _message: &Message) -> Result<Answer, Refusal>
        ensures refused { result ≡ Err BadTable }
        ensures same { self.new ≡ self.old }
    {
        Err(Refusal::BadTable)
    }
}
