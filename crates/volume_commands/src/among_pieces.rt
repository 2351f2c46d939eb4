// A command of a volume with requests in flight, cut into pieces: each is served before the next, and the first that is not
// done ends it.
ghost use Rattle.std.specs.Prelude.{◌≡◌, ◌⊎◌, ℕ, ◌+◌, ◌-◌, ◌*◌, ◌≤◌, ◌<◌, ◌++◌, [], take, drop, length, vec_capacity, vec_len, IfOk, IfErr, OnOk, false, None};
ghost use Rattle.plain_machine.specs.declared.request.Reply.{Reply as AnyReply};
ghost use Rattle.plain_machine.specs.declared.request.Op.TheVariants.{Read, Write};
ghost use Rattle.chunk.specs.Pieces.{span_of, pieces_of};
ghost use Rattle.whole_commands.specs.Commands.{bytes_in};
ghost use Rattle.volume.specs.Volumed.{piece_with};
ghost use Rattle.volume_commands.specs.Among.{AreReadAmong, AreWrittenAmong, IsPieceFailed, IsPieceServed, IsReadRefusedAmong, IsReadStopped, IsWriteRefusedAmong, IsWriteStopped, pieces_among};
ghost use Rattle.counted_volume.specs.TakesPlaces.{TakesByRequests};
ghost use Rattle.volume_commands.specs.Counting.{Asks, IsFullIfTold, Keeps};
ghost use Rattle.volume_commands.specs.Recording.{AreWhole, AsksUpTo, IsDoneThere, SameSetup, TakesAsAsked};

use crate::among::serve_among;
use crate::pieces::part_of;
use crate::serving::is_there;
use crate::{Replied, Resting, refusal_for};
use chunk::Geometry;
use counted_volume::CountedVolume;
use layers::Layered;
use plain_machine::{Dev, Op, Reply, Request};
use sector::{Buf, Range, Refusal, SECTOR_BYTES};
use std::alloc::Global;

/// Writes one piece: the bytes from `from` up to `to`.
fn write_piece_among<B: Layered>(
    volume: &mut CountedVolume<B>,
    alloc: Global,
    dev: Dev,
    piece: Range,
    bytes: &mut Buf,
    from: usize,
    to: usize,
    ended: &mut Vec<Replied>,
) -> Result<(), Refusal>
    requires order { from ≤ to }
    requires inside { to ≤ length bytes.old }
    requires room { length (take (to - from) (drop from bytes.old)) ≡ 512 * piece.count }
    ensures written { OnOk result ((reply : AnyReply) × IsPieceServed B.may_hold B.contents B.layers B.fault_count B.size dev (Write (take (to - from) (drop from bytes.old))) (span_of piece) reply volume.old.volume volume.new.volume ended.old.items ended.new.items) }
    ensures failed { IfErr result (λ refusal. IsPieceFailed B.may_hold B.contents B.layers B.fault_count B.size dev (Write (take (to - from) (drop from bytes.old))) (span_of piece) refusal volume.old.volume volume.new.volume ended.old.items ended.new.items) }
    ensures left { drop to bytes.new ≡ drop to bytes.old }
    ensures kept { Keeps B.layers B.size volume.old volume.new }
    ensures requests { Asks 1 volume.old volume.new }
    ensures taken { TakesByRequests volume.old volume.new }
    ensures full { IsFullIfTold result volume.new.taken }
{
    let Ok(part) = part_of(alloc, bytes, from, to) else {
        return Err(Refusal::NoMemory);
    };
    let request = Request {
        dev,
        op: Op::Write(part),
        range: piece,
    };
    match serve_among(volume, request, ended) {
        Ok(Reply::Refused(failure)) => Err(refusal_for(failure)),
        Ok(Reply::Written) => Ok(()),
        Ok(Reply::Flushed) => Ok(()),
        Ok(Reply::Data(_)) => Ok(()),
        Err(refusal) => Err(refusal),
    }
}

/// Reads one piece to the end of `out`, which has room for it.
fn read_piece_among<B: Layered>(
    volume: &mut CountedVolume<B>,
    dev: Dev,
    piece: Range,
    out: &mut Vec<u8>,
    ended: &mut Vec<Replied>,
) -> Result<(), Refusal>
    requires room { vec_len out.old + 512 * piece.count ≤ vec_capacity out.old }
    ensures read { OnOk result ((reply : AnyReply) × IsPieceServed B.may_hold B.contents B.layers B.fault_count B.size dev Read (span_of piece) reply volume.old.volume volume.new.volume ended.old.items ended.new.items × (out.new.items ≡ out.old.items ++ take (512 * piece.count) (bytes_in reply))) }
    ensures failed { IfErr result (λ refusal. IsPieceFailed B.may_hold B.contents B.layers B.fault_count B.size dev Read (span_of piece) refusal volume.old.volume volume.new.volume ended.old.items ended.new.items) }
    ensures len { vec_len out.new ≤ vec_len out.old + 512 * piece.count }
    ensures capacity { vec_capacity out.old ≤ vec_capacity out.new }
    ensures kept { Keeps B.layers B.size volume.old volume.new }
    ensures requests { Asks 1 volume.old volume.new }
    ensures taken { TakesByRequests volume.old volume.new }
    ensures full { IsFullIfTold result volume.new.taken }
{
    let request = Request {
        dev,
        op: Op::Read,
        range: piece,
    };
    match serve_among(volume, request, ended) {
        Ok(Reply::Refused(failure)) => Err(refusal_for(failure)),
        Ok(Reply::Written) => Ok(()),
        Ok(Reply::Flushed) => Ok(()),
        Ok(Reply::Data(bytes)) => {
            // No more than the piece has.
            let count = bytes.len().min(piece.count as usize * SECTOR_BYTES);
            match out.extend_from_slice(&bytes.as_slice()[..count]) {
                Ok(()) => Ok(()),
                Err(_) => unreachable!(),
            }
        }
        Err(refusal) => Err(refusal),
    }
}

/// Writes a range, piece after piece. The bytes are lent: one piece is handed all of them, and of more each is a copy.
fn write_pieces_among<B: Layered>(
    volume: &mut CountedVolume<B>,
    alloc: Global,
    dev: Dev,
    range: Range,
    bytes: &mut Buf,
    ended: &mut Vec<Replied>,
) -> Result<(), Refusal>
    requires room { length bytes.old ≡ 512 * range.count }
    ensures written { OnOk result (AreWrittenAmong B.may_hold B.contents B.layers B.fault_count B.size dev (pieces_of (piece_with volume.old.volume.merge volume.old.volume.snaps) (span_of range)) bytes.old volume.old.volume volume.new.volume ended.old.items ended.new.items) }
    ensures stopped { IfErr result (λ refusal. IsWriteStopped B.may_hold B.contents B.layers B.fault_count B.size dev (pieces_of (piece_with volume.old.volume.merge volume.old.volume.snaps) (span_of range)) bytes.old refusal volume.old.volume volume.new.volume ended.old.items ended.new.items) }
    ensures kept { Keeps B.layers B.size volume.old volume.new }
    ensures requests { Asks range.count volume.old volume.new }
    ensures taken { TakesByRequests volume.old volume.new }
    ensures full { IsFullIfTold result volume.new.taken }
{
    let geometry = Geometry {
        chunk: volume.piece(),
        sectors: range.size,
    };
    let mut from = 0;
    for piece in geometry.pieces(range) {
        let to = from + piece.count as usize * SECTOR_BYTES;
        match write_piece_among(volume, alloc, dev, piece, bytes, from, to, ended) {
            Ok(()) => {}
            Err(refusal) => return Err(refusal),
        }
        from = to;
    }
    Ok(())
}

/// Reads a range, piece after piece, to the end of `out`, which is empty and has room for it.
fn read_pieces_among<B: Layered>(
    volume: &mut CountedVolume<B>,
    dev: Dev,
    range: Range,
    out: &mut Vec<u8>,
    ended: &mut Vec<Replied>,
) -> Result<(), Refusal>
    requires empty { out.old.items ≡ [] }
    requires none { vec_len out.old ≡ 0 }
    requires room { 512 * range.count ≤ vec_capacity out.old }
    ensures read { OnOk result (AreReadAmong B.may_hold B.contents B.layers B.fault_count B.size dev (pieces_of (piece_with volume.old.volume.merge volume.old.volume.snaps) (span_of range)) out.new.items volume.old.volume volume.new.volume ended.old.items ended.new.items) }
    ensures stopped { IfErr result (λ refusal. IsReadStopped B.may_hold B.contents B.layers B.fault_count B.size dev (pieces_of (piece_with volume.old.volume.merge volume.old.volume.snaps) (span_of range)) refusal volume.old.volume volume.new.volume ended.old.items ended.new.items) }
    ensures kept { Keeps B.layers B.size volume.old volume.new }
    ensures requests { Asks range.count volume.old volume.new }
    ensures taken { TakesByRequests volume.old volume.new }
    ensures full { IsFullIfTold result volume.new.taken }
{
    let geometry = Geometry {
        chunk: volume.piece(),
        sectors: range.size,
    };
    for piece in geometry.pieces(range) {
        match read_piece_among(volume, dev, piece, out, ended) {
            Ok(()) => {}
            Err(refusal) => return Err(refusal),
        }
    }
    Ok(())
}

impl<B: Layered> Resting<B> {
    /// Reads sectors of the origin or of a snapshot, while requests may be in flight. The range is cut into pieces of the
    /// least chunk of the snapshots: the request of each is submitted, and all that is due is done, before the next. The replies to
    /// other requests are put at the end of `ended`.
    ///
    /// Refused: there is no such snapshot (`NoSuchDevice`), and then nothing changed; a piece's request is refused, as
    /// `start` says, or answered `Invalid` or `Io`, after the pieces before it were read; or memory is refused (`NoMemory`).
    pub fn read_among(
        &mut self,
        alloc: Global,
        dev: Dev,
        range: Range,
        ended: &mut Vec<Replied>,
    ) -> Result<Buf, Refusal>
        requires some { 0 < range.count }
        requires inside { range.first + range.count ≤ B.size self.old.rested.origin }
        requires requests { self.old.rested.requests + range.count < 9_223_372_036_854_775_808 }
        ensures read { IfOk result (λ bytes. AreReadAmong B.may_hold B.contents B.layers B.fault_count B.size dev (pieces_among (span_of range) self.old.rested) bytes self.old.rested.events self.new.rested.events ended.old.items ended.new.items) }
        ensures refused { IfErr result (λ refusal. IsReadRefusedAmong B.may_hold B.contents B.layers B.fault_count B.size dev (pieces_among (span_of range) self.old.rested) refusal self.old.rested self.new.rested ended.old.items ended.new.items) }
        ensures there { IsDoneThere dev result self.old.rested }
        ensures whole { AreWhole self.old.rested self.new.rested }
        ensures kept { SameSetup B.layers B.size self.old self.new }
        ensures requests { AsksUpTo range.count self.old self.new }
        ensures taken { TakesAsAsked self.old self.new }
        ensures full { IsFullIfTold result self.new.taken }
    {
        if !is_there(&self.volume, dev) {
            return Err(Refusal::NoSuchDevice);
        }
        let Ok(mut out) = Vec::with_capacity(alloc, range.count as usize * SECTOR_BYTES) else {
            return Err(Refusal::NoMemory);
        };
        match read_pieces_among(&mut self.volume, dev, range, &mut out, ended) {
            Ok(()) => Ok(Buf::from_vec(out)),
            Err(refusal) => Err(refusal),
        }
    }

    /// Writes sectors of the origin or of a snapshot, while requests may be in flight, piece after piece likewise. The bytes are lent,
    /// as `write` says.
    ///
    /// Refused: there is no such snapshot (`NoSuchDevice`), and then nothing changed; a piece's request is refused, as
    /// `start` says, or answered `Invalid` or `Io`, and the pieces before it stand; or memory is refused (`NoMemory`).
    pub fn write_among(
        &mut self,
        alloc: Global,
        dev: Dev,
        range: Range,
        bytes: &mut Buf,
        ended: &mut Vec<Replied>,
    ) -> Result<(), Refusal>
        requires some { 0 < range.count }
        requires inside { range.first + range.count ≤ B.size self.old.rested.origin }
        requires room { length bytes.old ≡ 512 * range.count }
        requires requests { self.old.rested.requests + range.count < 9_223_372_036_854_775_808 }
        ensures written { OnOk result (AreWrittenAmong B.may_hold B.contents B.layers B.fault_count B.size dev (pieces_among (span_of range) self.old.rested) bytes.old self.old.rested.events self.new.rested.events ended.old.items ended.new.items) }
        ensures refused { IfErr result (λ refusal. IsWriteRefusedAmong B.may_hold B.contents B.layers B.fault_count B.size dev (pieces_among (span_of range) self.old.rested) bytes.old refusal self.old.rested self.new.rested ended.old.items ended.new.items) }
        ensures there { IsDoneThere dev result self.old.rested }
        ensures whole { AreWhole self.old.rested self.new.rested }
        ensures kept { SameSetup B.layers B.size self.old self.new }
        ensures requests { AsksUpTo range.count self.old self.new }
        ensures taken { TakesAsAsked self.old self.new }
        ensures full { IsFullIfTold result self.new.taken }
    {
        if !is_there(&self.volume, dev) {
            return Err(Refusal::NoSuchDevice);
        }
        write_pieces_among(&mut self.volume, alloc, dev, range, bytes, ended)
    }
}
