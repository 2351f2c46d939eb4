// Requests of seats.
ghost use Rattle.std.specs.Prelude.{◌≡◌, ◌≢◌, ◌*◌, ◌<◌, ℕ, IfErr, IfOk, List, MatchBool, OnOk, false, length};
ghost use Rattle.plain_machine.specs.declared.request.Op.TheVariants.{Write};
ghost use Rattle.sector.specs.declared.refusal.Refusal.TheVariants.{Overflow};
ghost use Rattle.volume.specs.DoesSubmit.{DoesSubmit};
ghost use Rattle.audited_volume.specs.PlacesTaken.{IsHeld, IsNotSubmitted, IsRefusalNoted, KeepsBase, is_full_by};

use crate::Audit;
use crate::holding::{hold, is_full};
use crate::noting::{note_mark, note_spoils};
use layers::Layered;
use plain_machine::{ReqId, Request};
use sector::Refusal;

/// Whether a write was refused since its snapshot's store overflowed.
fn is_overflow(refusal: Refusal) -> bool
    ensures { MatchBool result (refusal ≡ Overflow) (refusal ≢ Overflow) }
{
    refusal == Refusal::Overflow
}

impl<B: Layered> Audit<B> {
    /// Submits a request for a seat, from 0 to 8, with all memory that its entry and its receipt need. `JournalFull` comes
    /// first, where the entries, the requests in flight, the live snapshots and those of them that may still overflow are 65,536;
    /// then `NoMemory`; then the volume's own refusals. Of the first write that is refused with `Overflow`, the snapshot's mark
    /// is noted.
    pub fn submit(&mut self, seat: u8, request: Request) -> Result<ReqId, Refusal>
        requires seat { seat < 9 }
        requires bytes { (bytes : List ℕ) → request.op ≡ Write bytes → length bytes ≡ 512 * request.range.count }
        ensures held { IfOk result (λ number. IsHeld seat number request self.old self.new) }
        ensures base { KeepsBase self.old self.new }
        ensures room { OnOk result (is_full_by 1 self.old ≡ false) }
        ensures does { DoesSubmit B.contents B.layers B.size request result self.old.volume self.new.volume }
        ensures refused { IfErr result (λ refusal. IsNotSubmitted B.contents B.layers B.size request refusal self.old self.new) }
        ensures noted { IfErr result (λ refusal. IsRefusalNoted request refusal self.old self.new) }
    {
        if is_full(
            self.taken,
            self.entries.len(),
            self.held.len(),
            self.lives.as_slice(),
            self.may.as_slice(),
            1,
        ) {
            return Err(Refusal::JournalFull);
        }
        let Ok(()) = self.held.reserve(1) else {
            return Err(Refusal::NoMemory);
        };
        let Ok(mut held) = hold(self.alloc, seat, &request) else {
            return Err(Refusal::NoMemory);
        };
        match self.volume.submit(self.alloc, request) {
            Ok(number) => {
                held.number = number;
                self.held.push_reserved(held);
                note_spoils(&self.volume, &mut self.lives, &mut self.entries);
                Ok(number)
            }
            Err(refusal) => {
                if is_overflow(refusal) {
                    let lives = self.lives.as_slice();
                    let dev = held.for_entry.dev;
                    note_mark(&self.volume, dev, lives, &mut self.may, &mut self.entries);
                    return Err(refusal);
                }
                note_spoils(&self.volume, &mut self.lives, &mut self.entries);
                Err(refusal)
            }
        }
    }
}
