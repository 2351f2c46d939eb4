// A volume by whole commands, and what callers ask of it.
ghost use Rattle.std.specs.Prelude.{◌≡◌, ◌+◌, ◌*◌, ◌<◌, ◌≤◌, true, [], length, IfErr, IfOk, OnOk, Ok, Err, None};
ghost use Rattle.sector.specs.declared.refusal.Refusal.TheVariants.{NoMemory};
ghost use Rattle.device.specs.Layers.{is_loud};
ghost use Rattle.plain_machine.specs.declared.request.Reply.TheVariants.{Data, Written};
ghost use Rattle.chunk.specs.Pieces.{span_of};
ghost use Rattle.volume.specs.Layering.{Measures};
ghost use Rattle.volume.specs.Leaving.{is_quiet_of};
ghost use Rattle.volume_lifetime.specs.Life.{HasLife};
ghost use Rattle.whole_commands.specs.Beside.{written_beside, read_beside};
ghost use Rattle.volume_commands.specs.Rested.{has_dev, rested_of, IsSettled};
ghost use Rattle.volume_commands.specs.Among.{pieces_among};
ghost use Rattle.volume_commands.specs.AtRest.{AreReadAtRest, AreWrittenAtRest, IsReadUndone, IsWriteCut};
ghost use Rattle.volume_commands.specs.Commands.{IsDoneBy, IsWriteRefused, IsReadRefused};
ghost use Rattle.volume_commands.specs.Showing.{arrays_in, pieces_for, IsPlainRead, IsPlainReadRefused, IsPlainWrite, IsPlainWriteRefused};
ghost use Rattle.volume_commands.specs.Counting.{IsFullIfTold};
ghost use Rattle.volume_commands.specs.Recording.{AreWhole, AsksUpTo, IsDoneThere, SameSetup, StaysSettled, TakesAsAsked};

use crate::pieces::{read_pieces, write_pieces};
use crate::serving::{is_there, look};
use counted_volume::CountedVolume;
use layers::Layered;
use plain_machine::Dev;
use sector::{Buf, Range, Refusal};
use std::alloc::Global;
use std::marker::Model;

/// An origin disk and the snapshots of it, in order of attaching. Contracts see the devices, each snapshot's number, chunk
/// size and marks, how many numbers were given, whether the volume is settled, and whether it is quiet: nothing is in flight
/// or left to do; and how many places of its journal are taken. What the devices' bytes and layers are is the settled machine's
/// volume.
#[derive(Drop)]
pub struct Resting<B: Layered> {
    pub(crate) volume: CountedVolume<B>,
}

impl<B: Layered> Model for Resting<B> {
    ghost use Rattle.volume_commands.specs.Recorded.{Recorded};
    ghost use Rattle.volume_commands.specs.Rested.{rested_of};

    ghost Value = { Recorded B };

    ghost view = { λ v. record { rested = rested_of v.volume.volume; taken = v.volume.taken } };
}

impl<B: Layered + Drop> Resting<B> {
    /// A volume over an origin disk, without snapshots. Where memory is refused, the disk is given back.
    pub fn new(alloc: Global, origin: B) -> Result<Resting<B>, (Refusal, B)>
        ensures ok { IfOk result (λ v. v.rested ≡ rested_of (record { origin = origin; snaps = []; merge = None; flights = []; requests = 0; copies = 0; attached = 0 })) }
        ensures taken { IfOk result (λ v. v.taken ≡ 0) }
        ensures settled { IfOk result (λ v. is_loud (B.layers origin) ≡ true → IsSettled B.layers v.rested) }
        ensures err { IfErr result (λ e. e ≡ record { 0 = NoMemory; 1 = origin }) }
    {
        match CountedVolume::new(alloc, origin) {
            Ok(volume) => Ok(Resting { volume }),
            Err(refused) => Err(refused),
        }
    }
}

impl<B: Layered> Resting<B> {
    /// A look at the volume's life, which does nothing: what it is came of one list of deeds, with its own answers.
    pub fn look_at_life(&self)
        ensures { HasLife B.may_hold (record { contents = B.contents; durable = B.durable; size = B.size; faults = B.fault_count; done = B.done_count }) B.layers self.now.rested.events }
    {
        self.volume.look_at_life()
    }

    /// The origin disk.
    pub fn origin(&self) -> &B
        ensures { result.now ≡ self.now.rested.origin }
    {
        self.volume.origin()
    }

    /// How many snapshots there are.
    pub fn len(&self) -> usize
        ensures { result ≡ length self.now.rested.snaps }
    {
        self.volume.len()
    }

    /// Reads sectors of the origin or of a snapshot of a quiet volume. The range is cut into pieces of the snapshots' chunk
    /// size, which are read in order. Where the volume is settled, it is the settled machine's read: it gives the bytes of
    /// the array that the device shows, and changes nothing that the origin or a snapshot shows, answered or refused. While a
    /// merge is begun the origin's array is what it shows through the merge. Whichever device drops writes, each piece is
    /// answered with as many bytes as it has, by an event that was due.
    ///
    /// Refused: there is no such snapshot (`NoSuchDevice`), and then nothing changed; the snapshot is spoiled (`Invalid`), or
    /// the device of a piece failed (`Io`), after the pieces before it were read; or memory is refused (`NoMemory`), after
    /// some first pieces were read, but not all.
    #[inline(always)]
    pub fn read(&mut self, alloc: Global, dev: Dev, range: Range) -> Result<Buf, Refusal>
        requires quiet { is_quiet_of self.old.rested.events ≡ true }
        requires some { 0 < range.count }
        requires inside { range.first + range.count ≤ B.size self.old.rested.origin }
        requires requests { self.old.rested.requests + range.count < 9_223_372_036_854_775_808 }
        ensures quiet { is_quiet_of self.new.rested.events ≡ true }
        ensures settled { StaysSettled B.layers self.old self.new }
        ensures done { IfOk result (λ bytes. IsDoneBy B.contents B.layers (read_beside dev (span_of range)) (Data bytes) self.old.rested self.new.rested) }
        ensures there { IsDoneThere dev result self.old.rested }
        ensures refused { IfErr result (λ refusal. IsReadRefused B.contents B.layers dev (span_of range) refusal self.old.rested self.new.rested) }
        ensures answered { IfOk result (λ bytes. AreReadAtRest B.may_hold B.contents B.layers B.fault_count B.size dev (pieces_among (span_of range) self.old.rested) bytes self.old.rested.events self.new.rested.events) }
        ensures undone { has_dev dev self.old.rested ≡ true → IfErr result (λ refusal. IsReadUndone B.may_hold B.contents B.layers B.fault_count B.size dev (pieces_among (span_of range) self.old.rested) refusal self.old.rested.events self.new.rested.events) }
        ensures whole { AreWhole self.old.rested self.new.rested }
        ensures shows { IfOk result (λ bytes. IsSettled B.layers self.old.rested → IsPlainRead dev (span_of range) bytes (arrays_in B.contents B.layers self.old.rested) (arrays_in B.contents B.layers self.new.rested)) }
        ensures loses { IfErr result (λ refusal. IsSettled B.layers self.old.rested → IsPlainReadRefused dev refusal (arrays_in B.contents B.layers self.old.rested) (arrays_in B.contents B.layers self.new.rested)) }
        ensures kept { SameSetup B.layers B.size self.old self.new }
        ensures requests { AsksUpTo range.count self.old self.new }
        ensures taken { TakesAsAsked self.old self.new }
        ensures full { IsFullIfTold result self.new.taken }
    {
        look(&self.volume);
        if !is_there(&self.volume, dev) {
            return Err(Refusal::NoSuchDevice);
        }
        read_pieces(&mut self.volume, alloc, dev, range)
    }

    /// Writes sectors of the origin or of a snapshot of a quiet volume. The range is cut into pieces of the snapshots' chunk
    /// size, which are written in order. Where the volume is settled, it is the settled machine's write: the bytes stand in
    /// the array of its device, also while a merge is begun. Of a write to the origin, each snapshot shows what it showed, or
    /// is spoiled; one to a snapshot changes what that shows alone. Whichever device drops writes, each piece is answered by an
    /// event that was due. The bytes are lent: where there is one piece they may be taken, else their memory stays the caller's.
    ///
    /// Refused: there is no such snapshot (`NoSuchDevice`), and then nothing changed; the snapshot is spoiled (`Invalid`), or
    /// the device of a piece failed (`Io`), and the pieces before it stand; the snapshot's store overflowed before
    /// (`Overflow`), and nothing changed, or it does at a piece, if it may, and the pieces before it stand; or memory is
    /// refused (`NoMemory`), and some first pieces stand, but not all.
    pub fn write(
        &mut self,
        alloc: Global,
        dev: Dev,
        range: Range,
        bytes: &mut Buf,
    ) -> Result<(), Refusal>
        requires quiet { is_quiet_of self.old.rested.events ≡ true }
        requires some { 0 < range.count }
        requires inside { range.first + range.count ≤ B.size self.old.rested.origin }
        requires room { length bytes.old ≡ 512 * range.count }
        requires requests { self.old.rested.requests + range.count < 9_223_372_036_854_775_808 }
        ensures quiet { is_quiet_of self.new.rested.events ≡ true }
        ensures settled { StaysSettled B.layers self.old self.new }
        ensures done { OnOk result (IsDoneBy B.contents B.layers (written_beside dev (span_of range) bytes.old) Written self.old.rested self.new.rested) }
        ensures there { IsDoneThere dev result self.old.rested }
        ensures refused { IfErr result (λ refusal. IsWriteRefused B.contents B.layers dev (span_of range) bytes.old refusal self.old.rested self.new.rested) }
        ensures answered { OnOk result (AreWrittenAtRest B.may_hold B.contents B.layers B.fault_count B.size dev (pieces_among (span_of range) self.old.rested) bytes.old self.old.rested.events self.new.rested.events) }
        ensures undone { has_dev dev self.old.rested ≡ true → IfErr result (λ refusal. IsWriteCut B.may_hold B.contents B.layers B.fault_count B.size dev (pieces_among (span_of range) self.old.rested) bytes.old refusal self.old.rested.events self.new.rested.events) }
        ensures whole { AreWhole self.old.rested self.new.rested }
        ensures shows { OnOk result (IsSettled B.layers self.old.rested → IsPlainWrite dev (span_of range) bytes.old (arrays_in B.contents B.layers self.old.rested) (arrays_in B.contents B.layers self.new.rested)) }
        ensures loses { IfErr result (λ refusal. IsSettled B.layers self.old.rested → IsPlainWriteRefused dev (span_of range) (pieces_for B.contents B.layers (span_of range) self.old.rested) bytes.old refusal (arrays_in B.contents B.layers self.old.rested) (arrays_in B.contents B.layers self.new.rested)) }
        ensures kept { SameSetup B.layers B.size self.old self.new }
        ensures requests { AsksUpTo range.count self.old self.new }
        ensures taken { TakesAsAsked self.old self.new }
        ensures full { IsFullIfTold result self.new.taken }
    {
        look(&self.volume);
        if !is_there(&self.volume, dev) {
            return Err(Refusal::NoSuchDevice);
        }
        write_pieces(&mut self.volume, alloc, dev, range, bytes)
    }
}
