// Requests in flight between commands: one is started, and one event is done.
ghost use Rattle.std.specs.Prelude.{◌≡◌, ◌*◌, ◌<◌, ℕ, List, length, AllPairs, IfErr, true};
ghost use Rattle.plain_machine.specs.declared.request.Op.TheVariants.{Write};
ghost use Rattle.volume.specs.DoesStep.{DoesStep};
ghost use Rattle.volume.specs.DoesSubmit.{DoesSubmit};
ghost use Rattle.volume.specs.Leaving.{is_quiet_of};
ghost use Rattle.counted_volume.specs.Declined.{IsUnsent};
ghost use Rattle.volume_commands.specs.Ordered.{IsOrdered};
ghost use Rattle.volume_commands.specs.Rested.{rested_of, merged_of, numbers_of, is_loud_in, IsSettled};
ghost use Rattle.volume_commands.specs.SeesRequests.{SeesStart, SeesStep};
ghost use Rattle.counted_volume.specs.Places.{kept_for_marks};
ghost use Rattle.volume_commands.specs.Recorded.{counted_in};
ghost use Rattle.counted_volume.specs.TakesPlaces.{TakesPlaces};
ghost use Rattle.volume_commands.specs.Recording.{AreWhole, TakesAsAsked};

use crate::Resting;
use crate::serving::look;
use counted_volume::CountedVolume;
use layers::Layered;
use plain_machine::{Event, NotDue, Outcome, ReqId, Request};
use sector::Refusal;
use std::alloc::Global;

/// Whether a volume of events is quiet. One that is, and of which no device drops writes, is settled. The numbers of its
/// snapshots rise in any case.
fn is_still<B: Layered>(volume: &CountedVolume<B>) -> bool
    ensures value { result ≡ is_quiet_of volume.now.volume }
    ensures numbers { AllPairs (λ a b. a < b) (numbers_of (rested_of volume.now.volume)) }
    ensures rest { result ≡ true → is_loud_in B.layers (rested_of volume.now.volume) ≡ true → IsSettled B.layers (rested_of volume.now.volume) }
    ensures still { IsSettled B.layers (rested_of volume.now.volume) → result ≡ true }
    ensures ordered { result ≡ true → is_loud_in B.layers (rested_of volume.now.volume) ≡ true → IsOrdered (merged_of B.contents B.layers (rested_of volume.now.volume)) }
{
    // A look: the chunks of all snapshots are as large as a piece, or larger.
    let _ = volume.piece();
    volume.is_quiet()
}

impl<B: Layered> Resting<B> {
    /// Whether the volume is quiet: no request is in flight, no copy is pending, and no mark of a spoiled store is untried.
    /// A settled volume is; and one that is, and of which no device drops writes, is settled, whatever was done to it, and the
    /// stores of its live snapshots are in order. Whatever is in flight, each snapshot has a number above those before it.
    pub fn is_quiet(&self) -> bool
        ensures value { result ≡ is_quiet_of self.now.rested.events }
        ensures numbers { AllPairs (λ a b. a < b) (numbers_of self.now.rested) }
        ensures rest { result ≡ true → is_loud_in B.layers self.now.rested ≡ true → IsSettled B.layers self.now.rested }
        ensures still { IsSettled B.layers self.now.rested → result ≡ true }
        ensures ordered { result ≡ true → is_loud_in B.layers self.now.rested ≡ true → IsOrdered (merged_of B.contents B.layers self.now.rested) }
    {
        is_still(&self.volume)
    }

    /// Starts a request, which lies inside one piece of the volume: it is in flight from here on, under the number that is
    /// told, and no device is asked for anything yet.
    ///
    /// Refused, in this order: there is no such snapshot (`NoSuchDevice`), it is spoiled (`Invalid`), it is a write of a
    /// snapshot whose store overflowed (`Overflow`), the range is empty or lies not inside the origin and one piece
    /// (`OutOfRange`), it is the 65th request, starts the 257th copy, or is past the last number (`TooMany`), memory is
    /// refused (`NoMemory`), or a snapshot's write finds its store full. That alone changes something: the snapshot is spoiled
    /// (`Invalid`), or, if its store may overflow, marked (`Overflow`).
    pub fn start(&mut self, alloc: Global, request: Request) -> Result<ReqId, Refusal>
        requires bytes { (bytes : List ℕ) → request.op ≡ Write bytes → length bytes ≡ 512 * request.range.count }
        ensures does { DoesSubmit B.contents B.layers B.size request result self.old.rested.events self.new.rested.events }
        ensures seen { SeesStart B.contents B.layers B.size result self.old.rested self.new.rested }
        ensures refused { IfErr result (λ refusal. IsUnsent B.contents B.layers B.size request refusal self.old.rested.events self.new.rested.events) }
        ensures whole { AreWhole self.old.rested self.new.rested }
        ensures places { TakesPlaces 1 kept_for_marks result (counted_in self.old) (counted_in self.new) }
    {
        look(&self.volume);
        self.volume.submit(request)
    }

    /// Does one event, where it is due. It does at most one operation of one device, and where no device drops writes it is
    /// a step of the plain machine: only Issue replies, and every other event is not seen, or spoils the snapshot whose
    /// device failed. Where it is not due, nothing changes.
    pub fn step(&mut self, event: Event) -> Result<Outcome, NotDue>
        ensures does { DoesStep B.may_hold B.contents B.layers B.size B.fault_count B.done_count true event result self.old.rested.events self.new.rested.events }
        ensures seen { SeesStep B.layers B.size result self.old.rested self.new.rested }
        ensures whole { AreWhole self.old.rested self.new.rested }
        ensures taken { TakesAsAsked self.old self.new }
    {
        self.volume.step(event)
    }
}
