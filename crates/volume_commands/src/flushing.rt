// A flush of a device: one request, whether a merge is begun or not.
ghost use Rattle.std.specs.Prelude.{◌≡◌, ◌⊎◌, ◌+◌, ◌<◌, ℕ, IfErr, OnOk, true};
ghost use Rattle.plain_machine.specs.declared.request.Op.TheVariants.{Flush};
ghost use Rattle.plain_machine.specs.declared.request.Reply.TheVariants.{Flushed};
ghost use Rattle.volume.specs.Leaving.{is_quiet_of};
ghost use Rattle.volume.specs.Stopping.{array_of};
ghost use Rattle.volume.specs.Volumed.{is_loud_in_all};
ghost use Rattle.whole_commands.specs.Beside.{flushed_beside};
ghost use Rattle.volume_commands.specs.Rested.{has_dev, rested_of, IsSettled};
ghost use Rattle.volume_commands.specs.Between.{IsBetween};
ghost use Rattle.volume_commands.specs.Closing.{IsClosed};
ghost use Rattle.volume_commands.specs.Commands.{IsDoneBy, IsFlushRefused};
ghost use Rattle.volume_commands.specs.Showing.{arrays_in, IsPlainFlush, IsPlainReadRefused};
ghost use Rattle.volume_commands.specs.AtRest.{IsFlushDone, IsFlushUndone};
ghost use Rattle.volume_commands.specs.Among.{IsFlushedAmong, IsFlushRefusedAmong, IsPieceFailed, IsRequestOf, flush_piece};
ghost use Rattle.counted_volume.specs.TakesPlaces.{TakesByRequests};
ghost use Rattle.volume_commands.specs.Counting.{Asks, IsFullIfTold, Keeps, KeepsRest};
ghost use Rattle.volume_commands.specs.Recording.{AreWhole, AsksUpTo, IsDoneThere, SameSetup, StaysSettled, TakesAsAsked};

use crate::among::serve_among;
use crate::serving::{is_there, look, serve};
use crate::{Replied, Resting, refusal_for};
use counted_volume::CountedVolume;
use layers::Layered;
use plain_machine::{Dev, Op, Reply, Request};
use sector::{Range, Refusal};

/// The request of a flush. Its sectors are not looked at: a volume takes it where its origin has one.
fn request_of(dev: Dev) -> Request
    ensures { IsRequestOf dev Flush flush_piece result }
{
    Request {
        dev,
        op: Op::Flush,
        range: Range {
            first: 0,
            count: 1,
            size: 1,
        },
    }
}

/// Flushes a device of a volume of events that is at rest.
fn flush_device<B: Layered>(volume: &mut CountedVolume<B>, dev: Dev) -> Result<(), Refusal>
    requires between { IsBetween volume.old.volume }
    requires there { has_dev dev (rested_of volume.old.volume) ≡ true }
    requires some { 0 < B.size volume.old.volume.origin }
    requires requests { volume.old.volume.requests < 9_223_372_036_854_775_808 }
    ensures between { IsBetween volume.new.volume }
    ensures settled { KeepsRest B.layers volume.old volume.new }
    ensures done { OnOk result (IsDoneBy B.contents B.layers (flushed_beside dev) Flushed (rested_of volume.old.volume) (rested_of volume.new.volume)) }
    ensures refused { IfErr result (λ refusal. IsFlushRefused B.contents B.layers dev refusal (rested_of volume.old.volume) (rested_of volume.new.volume)) }
    ensures answered { OnOk result (IsFlushDone B.may_hold B.contents B.layers B.fault_count B.size dev volume.old.volume volume.new.volume) }
    ensures undone { IfErr result (λ refusal. IsFlushUndone B.may_hold B.contents B.layers B.fault_count B.size dev refusal volume.old.volume volume.new.volume) }
    ensures closes { OnOk result (is_loud_in_all B.layers volume.old.volume ≡ true → IsClosed B.may_hold B.size volume.new.volume (array_of dev)) }
    ensures shows { OnOk result (IsSettled B.layers (rested_of volume.old.volume) → IsPlainFlush dev (arrays_in B.contents B.layers (rested_of volume.old.volume)) (arrays_in B.contents B.layers (rested_of volume.new.volume))) }
    ensures loses { IfErr result (λ refusal. IsSettled B.layers (rested_of volume.old.volume) → IsPlainReadRefused dev refusal (arrays_in B.contents B.layers (rested_of volume.old.volume)) (arrays_in B.contents B.layers (rested_of volume.new.volume))) }
    ensures kept { Keeps B.layers B.size volume.old volume.new }
    ensures requests { Asks 1 volume.old volume.new }
    ensures taken { TakesByRequests volume.old volume.new }
    ensures full { IsFullIfTold result volume.new.taken }
{
    // Looks: the chunks of all snapshots are as large as a piece, or larger, their numbers rise, and a merge has chunks too.
    let _ = volume.piece();
    let _ = volume.is_quiet();
    let _ = volume.merging();
    match serve(volume, request_of(dev)) {
        Ok(Reply::Refused(failure)) => Err(refusal_for(failure)),
        Ok(Reply::Written) => Ok(()),
        Ok(Reply::Flushed) => Ok(()),
        Ok(Reply::Data(_)) => Ok(()),
        Err(refusal) => Err(refusal),
    }
}

/// Flushes a device of a volume of events with requests in flight.
fn flush_device_among<B: Layered>(
    volume: &mut CountedVolume<B>,
    dev: Dev,
    ended: &mut Vec<Replied>,
) -> Result<(), Refusal>
    ensures flushed { OnOk result (IsFlushedAmong B.may_hold B.contents B.layers B.fault_count B.size dev volume.old.volume volume.new.volume ended.old.items ended.new.items) }
    ensures failed { IfErr result (λ refusal. IsPieceFailed B.may_hold B.contents B.layers B.fault_count B.size dev Flush flush_piece refusal volume.old.volume volume.new.volume ended.old.items ended.new.items) }
    ensures kept { Keeps B.layers B.size volume.old volume.new }
    ensures requests { Asks 1 volume.old volume.new }
    ensures taken { TakesByRequests volume.old volume.new }
    ensures full { IsFullIfTold result volume.new.taken }
{
    match serve_among(volume, request_of(dev), ended) {
        Ok(Reply::Refused(failure)) => Err(refusal_for(failure)),
        Ok(Reply::Written) => Ok(()),
        Ok(Reply::Flushed) => Ok(()),
        Ok(Reply::Data(_)) => Ok(()),
        Err(refusal) => Err(refusal),
    }
}

impl<B: Layered> Resting<B> {
    /// Flushes the origin or a snapshot of a quiet volume: what was written to it before lasts. A snapshot's store is flushed; of the
    /// origin the store of the snapshot that is being merged, if one is, and then the origin disk. Where the volume is settled, it
    /// is the settled machine's flush, and nothing changes that the origin or a snapshot shows. Whichever device drops writes, it
    /// is answered by an event that was due.
    ///
    /// Refused: there is no such snapshot (`NoSuchDevice`), and then nothing changed; the snapshot is spoiled (`Invalid`), or a
    /// device failed (`Io`); or memory is refused (`NoMemory`).
    pub fn flush(&mut self, dev: Dev) -> Result<(), Refusal>
        requires quiet { is_quiet_of self.old.rested.events ≡ true }
        requires inside { 0 < B.size self.old.rested.origin }
        requires requests { self.old.rested.requests + 1 < 9_223_372_036_854_775_808 }
        ensures quiet { is_quiet_of self.new.rested.events ≡ true }
        ensures settled { StaysSettled B.layers self.old self.new }
        ensures done { OnOk result (IsDoneBy B.contents B.layers (flushed_beside dev) Flushed self.old.rested self.new.rested) }
        ensures there { IsDoneThere dev result self.old.rested }
        ensures refused { IfErr result (λ refusal. IsFlushRefused B.contents B.layers dev refusal self.old.rested self.new.rested) }
        ensures answered { OnOk result (IsFlushDone B.may_hold B.contents B.layers B.fault_count B.size dev self.old.rested.events self.new.rested.events) }
        ensures undone { has_dev dev self.old.rested ≡ true → IfErr result (λ refusal. IsFlushUndone B.may_hold B.contents B.layers B.fault_count B.size dev refusal self.old.rested.events self.new.rested.events) }
        ensures whole { AreWhole self.old.rested self.new.rested }
        ensures closes { OnOk result (is_loud_in_all B.layers self.old.rested.events ≡ true → IsClosed B.may_hold B.size self.new.rested.events (array_of dev)) }
        ensures shows { OnOk result (IsSettled B.layers self.old.rested → IsPlainFlush dev (arrays_in B.contents B.layers self.old.rested) (arrays_in B.contents B.layers self.new.rested)) }
        ensures loses { IfErr result (λ refusal. IsSettled B.layers self.old.rested → IsPlainReadRefused dev refusal (arrays_in B.contents B.layers self.old.rested) (arrays_in B.contents B.layers self.new.rested)) }
        ensures kept { SameSetup B.layers B.size self.old self.new }
        ensures requests { AsksUpTo 1 self.old self.new }
        ensures taken { TakesAsAsked self.old self.new }
        ensures full { IsFullIfTold result self.new.taken }
    {
        look(&self.volume);
        if !is_there(&self.volume, dev) {
            return Err(Refusal::NoSuchDevice);
        }
        flush_device(&mut self.volume, dev)
    }

    /// Flushes the origin or a snapshot, while requests may be in flight: all that is due then is done, of a merge only until the
    /// flush is answered. The replies to other requests are put at the end of `ended`.
    ///
    /// Refused: there is no such snapshot (`NoSuchDevice`), and then nothing changed; the request is refused, as `start` says,
    /// or answered `Invalid` or `Io`; or memory is refused (`NoMemory`).
    pub fn flush_among(&mut self, dev: Dev, ended: &mut Vec<Replied>) -> Result<(), Refusal>
        requires inside { 0 < B.size self.old.rested.origin }
        requires requests { self.old.rested.requests + 1 < 9_223_372_036_854_775_808 }
        ensures flushed { OnOk result (IsFlushedAmong B.may_hold B.contents B.layers B.fault_count B.size dev self.old.rested.events self.new.rested.events ended.old.items ended.new.items) }
        ensures refused { IfErr result (λ refusal. IsFlushRefusedAmong B.may_hold B.contents B.layers B.fault_count B.size dev refusal self.old.rested self.new.rested ended.old.items ended.new.items) }
        ensures there { IsDoneThere dev result self.old.rested }
        ensures whole { AreWhole self.old.rested self.new.rested }
        ensures kept { SameSetup B.layers B.size self.old self.new }
        ensures requests { AsksUpTo 1 self.old self.new }
        ensures taken { TakesAsAsked self.old self.new }
        ensures full { IsFullIfTold result self.new.taken }
    {
        if !is_there(&self.volume, dev) {
            return Err(Refusal::NoSuchDevice);
        }
        flush_device_among(&mut self.volume, dev, ended)
    }
}
