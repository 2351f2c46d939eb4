// A command, cut into pieces: each is served before the next, and the first that is not done ends it.
ghost use Rattle.std.specs.Prelude.{◌≡◌, ◌⊎◌, ℕ, ◌+◌, ◌-◌, ◌*◌, ◌≤◌, ◌<◌, ◌∷◌, ◌++◌, [], take, drop, length, vec_capacity, vec_len, Option, None, Some, IfOk, IfErr, OnOk, OnErr, true};
ghost use Rattle.plain_machine.specs.declared.request.Reply.{Reply as AnyReply};
ghost use Rattle.plain_machine.specs.declared.request.Reply.TheVariants.{Data, Refused, Written};
ghost use Rattle.plain_machine.specs.declared.request.Dev.TheVariants.{Origin};
ghost use Rattle.plain_machine.specs.declared.request.Op.TheVariants.{Read, Write};
ghost use Rattle.chunk.specs.Pieces.{pieces_of, span_of};
ghost use Rattle.volume.specs.Lent.{is_bare};
ghost use Rattle.volume.specs.Volumed.{piece_with};
ghost use Rattle.whole_commands.specs.Beside.{written_beside, read_beside};
ghost use Rattle.whole_commands.specs.Commands.{bytes_in};
ghost use Rattle.volume_commands.specs.AtRest.{AreReadAtRest, AreWrittenAtRest, IsPieceAnswered, IsPieceUndone, IsReadUndone, IsWriteCut};
ghost use Rattle.volume_commands.specs.Serving.{part_written, part_read, CanAsk, CanServe, IsPieceDone, IsPieceRead, IsPieceRefused};
ghost use Rattle.volume_commands.specs.Rested.{rested_of, IsSettled};
ghost use Rattle.volume_commands.specs.Between.{IsBetween};
ghost use Rattle.volume_commands.specs.Commands.{IsDoneBy, IsWriteRefused, IsReadRefused};
ghost use Rattle.volume_commands.specs.Showing.{arrays_in, pieces_for, IsPlainRead, IsPlainReadRefused, IsPlainWrite, IsPlainWriteRefused};
ghost use Rattle.counted_volume.specs.TakesPlaces.{TakesByRequests};
ghost use Rattle.volume_commands.specs.Counting.{Asks, IsFullIfTold, Keeps, KeepsPiece, KeepsRest};

use crate::serving::{serve, serve_lent};
use chunk::Geometry;
use counted_volume::CountedVolume;
use layers::Layered;
use plain_machine::{Dev, Op, Reply, Request, refusal_for};
use sector::{Buf, Range, Refusal, SECTOR_BYTES};
use std::alloc::{AllocError, Global};
use std::mem;

/// The bytes from `from` up to `to`. Where that is all of them, they are handed over and none is left; else the part is
/// copied, and all stay. What is behind the part is as it was.
pub(crate) fn part_of(
    alloc: Global,
    bytes: &mut Buf,
    from: usize,
    to: usize,
) -> Result<Buf, AllocError>
    requires order { from ≤ to }
    requires inside { to ≤ length bytes.old }
    ensures part { IfOk result (λ part. part ≡ take (to - from) (drop from bytes.old)) }
    ensures left { drop to bytes.new ≡ drop to bytes.old }
{
    if to - from == bytes.len() {
        return Ok(mem::replace(bytes, Buf::from_vec(Vec::new(alloc))));
    }
    Buf::from_slice(alloc, &bytes.as_slice()[from..to])
}

/// Writes one piece of a bare volume's origin by bytes that are lent.
fn write_piece_lent<B: Layered>(
    volume: &mut CountedVolume<B>,
    dev: Dev,
    piece: Range,
    bytes: &[u8],
) -> Result<(), Refusal>
    requires between { IsBetween volume.old.volume }
    requires bare { is_bare volume.old.volume ≡ true }
    requires origin { dev ≡ Origin }
    requires can { CanServe B.size dev (Write bytes.now) piece volume.old.volume }
    ensures between { IsBetween volume.new.volume }
    ensures settled { KeepsRest B.layers volume.old volume.new }
    ensures done { OnOk result (IsPieceDone B.contents B.layers (part_written dev (span_of piece) bytes.now) (rested_of volume.old.volume) (rested_of volume.new.volume)) }
    ensures refused { IfErr result (λ refusal. IsPieceRefused B.contents B.layers (part_written dev (span_of piece) bytes.now) refusal (rested_of volume.old.volume) (rested_of volume.new.volume)) }
    ensures answered { OnOk result ((reply : AnyReply) × IsPieceAnswered B.may_hold B.contents B.layers B.fault_count B.size dev (Write bytes.now) (span_of piece) reply volume.old.volume volume.new.volume) }
    ensures undone { IfErr result (λ refusal. IsPieceUndone B.may_hold B.contents B.layers B.fault_count B.size dev (Write bytes.now) (span_of piece) refusal volume.old.volume volume.new.volume) }
    ensures kept { Keeps B.layers B.size volume.old volume.new }
    ensures piece { KeepsPiece volume.old volume.new }
    ensures requests { Asks 1 volume.old volume.new }
    ensures taken { TakesByRequests volume.old volume.new }
    ensures full { IsFullIfTold result volume.new.taken }
{
    match serve_lent(volume, piece, bytes) {
        Ok(Reply::Refused(failure)) => Err(refusal_for(failure)),
        Ok(Reply::Written) => Ok(()),
        Ok(Reply::Flushed) => Ok(()),
        Ok(Reply::Data(_)) => Ok(()),
        Err(refusal) => Err(refusal),
    }
}

/// Writes one piece: the bytes from `from` up to `to`, which a bare volume's origin is lent, and of which any other is given a
/// copy. At `NoMemory` nothing of the volume changed.
fn write_piece<B: Layered>(
    volume: &mut CountedVolume<B>,
    alloc: Global,
    dev: Dev,
    piece: Range,
    bytes: &mut Buf,
    from: usize,
    to: usize,
) -> Result<(), Refusal>
    requires between { IsBetween volume.old.volume }
    requires order { from ≤ to }
    requires inside { to ≤ length bytes.old }
    requires can { CanServe B.size dev (Write (take (to - from) (drop from bytes.old))) piece volume.old.volume }
    ensures between { IsBetween volume.new.volume }
    ensures settled { KeepsRest B.layers volume.old volume.new }
    ensures done { OnOk result (IsPieceDone B.contents B.layers (part_written dev (span_of piece) (take (to - from) (drop from bytes.old))) (rested_of volume.old.volume) (rested_of volume.new.volume)) }
    ensures refused { IfErr result (λ refusal. IsPieceRefused B.contents B.layers (part_written dev (span_of piece) (take (to - from) (drop from bytes.old))) refusal (rested_of volume.old.volume) (rested_of volume.new.volume)) }
    ensures answered { OnOk result ((reply : AnyReply) × IsPieceAnswered B.may_hold B.contents B.layers B.fault_count B.size dev (Write (take (to - from) (drop from bytes.old))) (span_of piece) reply volume.old.volume volume.new.volume) }
    ensures undone { IfErr result (λ refusal. IsPieceUndone B.may_hold B.contents B.layers B.fault_count B.size dev (Write (take (to - from) (drop from bytes.old))) (span_of piece) refusal volume.old.volume volume.new.volume) }
    ensures left { drop to bytes.new ≡ drop to bytes.old }
    ensures kept { Keeps B.layers B.size volume.old volume.new }
    ensures piece { KeepsPiece volume.old volume.new }
    ensures requests { Asks 1 volume.old volume.new }
    ensures taken { TakesByRequests volume.old volume.new }
    ensures full { IsFullIfTold result volume.new.taken }
{
    if dev == Dev::Origin && volume.is_bare() {
        return write_piece_lent(volume, dev, piece, &bytes.as_slice()[from..to]);
    }
    let Ok(part) = part_of(alloc, bytes, from, to) else {
        return Err(Refusal::NoMemory);
    };
    let request = Request {
        dev,
        op: Op::Write(part),
        range: piece,
    };
    match serve(volume, request) {
        Ok(Reply::Refused(failure)) => Err(refusal_for(failure)),
        Ok(Reply::Written) => Ok(()),
        Ok(Reply::Flushed) => Ok(()),
        Ok(Reply::Data(_)) => Ok(()),
        Err(refusal) => Err(refusal),
    }
}

/// Reads one piece to the end of `out`, which has room for it. At `NoMemory` nothing changed.
fn read_piece<B: Layered>(
    volume: &mut CountedVolume<B>,
    dev: Dev,
    piece: Range,
    out: &mut Vec<u8>,
) -> Result<(), Refusal>
    requires between { IsBetween volume.old.volume }
    requires can { CanServe B.size dev Read piece volume.old.volume }
    requires room { vec_len out.old + 512 * piece.count ≤ vec_capacity out.old }
    ensures between { IsBetween volume.new.volume }
    ensures settled { KeepsRest B.layers volume.old volume.new }
    ensures done { OnOk result (IsPieceRead B.contents B.layers (part_read dev (span_of piece)) out.old.items out.new.items (rested_of volume.old.volume) (rested_of volume.new.volume)) }
    ensures refused { IfErr result (λ refusal. IsPieceRefused B.contents B.layers (part_read dev (span_of piece)) refusal (rested_of volume.old.volume) (rested_of volume.new.volume)) }
    ensures answered { OnOk result ((reply : AnyReply) × IsPieceAnswered B.may_hold B.contents B.layers B.fault_count B.size dev Read (span_of piece) reply volume.old.volume volume.new.volume × (out.new.items ≡ out.old.items ++ bytes_in reply)) }
    ensures undone { IfErr result (λ refusal. IsPieceUndone B.may_hold B.contents B.layers B.fault_count B.size dev Read (span_of piece) refusal volume.old.volume volume.new.volume) }
    ensures out_err { OnErr result (out.new.items ≡ out.old.items) }
    ensures len { vec_len out.new ≤ vec_len out.old + 512 * piece.count }
    ensures capacity { vec_capacity out.old ≤ vec_capacity out.new }
    ensures kept { Keeps B.layers B.size volume.old volume.new }
    ensures piece { KeepsPiece volume.old volume.new }
    ensures requests { Asks 1 volume.old volume.new }
    ensures taken { TakesByRequests volume.old volume.new }
    ensures full { IsFullIfTold result volume.new.taken }
{
    let request = Request {
        dev,
        op: Op::Read,
        range: piece,
    };
    match serve(volume, request) {
        Ok(Reply::Refused(failure)) => Err(refusal_for(failure)),
        Ok(Reply::Written) => Ok(()),
        Ok(Reply::Flushed) => Ok(()),
        Ok(Reply::Data(bytes)) => {
            // No more than the piece has.
            let count = bytes.len().min(piece.count as usize * SECTOR_BYTES);
            match out.extend_from_slice(&bytes.as_slice()[..count]) {
                Ok(()) => Ok(()),
                Err(_) => unreachable!(),
            }
        }
        Err(refusal) => Err(refusal),
    }
}

/// Whether a range lies in one chunk.
#[tactic(auto, using(crate::proofs::Alone::one_piece))]
fn is_one_piece(chunk: u32, range: &Range) -> bool
    requires chunk { 0 < chunk }
    requires some { 0 < range.now.count }
    ensures { result ≡ true → pieces_of chunk (span_of range.now) ≡ span_of range.now ∷ [] }
{
    range.first % u64::from(chunk) + u64::from(range.count) <= u64::from(chunk)
}

/// Reads one piece, and hands its bytes on as they came. At `NoMemory` nothing changed.
fn read_alone<B: Layered>(
    volume: &mut CountedVolume<B>,
    alloc: Global,
    dev: Dev,
    piece: Range,
) -> Result<Buf, Refusal>
    requires between { IsBetween volume.old.volume }
    requires can { CanServe B.size dev Read piece volume.old.volume }
    ensures between { IsBetween volume.new.volume }
    ensures settled { KeepsRest B.layers volume.old volume.new }
    ensures done { IfOk result (λ bytes. IsPieceRead B.contents B.layers (part_read dev (span_of piece)) [] bytes (rested_of volume.old.volume) (rested_of volume.new.volume)) }
    ensures refused { IfErr result (λ refusal. IsPieceRefused B.contents B.layers (part_read dev (span_of piece)) refusal (rested_of volume.old.volume) (rested_of volume.new.volume)) }
    ensures answered { IfOk result (λ bytes. (reply : AnyReply) × IsPieceAnswered B.may_hold B.contents B.layers B.fault_count B.size dev Read (span_of piece) reply volume.old.volume volume.new.volume × (bytes ≡ bytes_in reply)) }
    ensures undone { IfErr result (λ refusal. IsPieceUndone B.may_hold B.contents B.layers B.fault_count B.size dev Read (span_of piece) refusal volume.old.volume volume.new.volume) }
    ensures kept { Keeps B.layers B.size volume.old volume.new }
    ensures requests { Asks 1 volume.old volume.new }
    ensures taken { TakesByRequests volume.old volume.new }
    ensures full { IsFullIfTold result volume.new.taken }
{
    let request = Request {
        dev,
        op: Op::Read,
        range: piece,
    };
    match serve(volume, request) {
        Ok(Reply::Refused(failure)) => Err(refusal_for(failure)),
        Ok(Reply::Written) => Ok(Buf::from_vec(Vec::new(alloc))),
        Ok(Reply::Flushed) => Ok(Buf::from_vec(Vec::new(alloc))),
        Ok(Reply::Data(bytes)) => Ok(bytes),
        Err(refusal) => Err(refusal),
    }
}

/// Writes a range, piece after piece. A piece that is not done ends it, and those before it stand. The bytes are lent, to each piece of
/// a bare volume's origin too; of any other, where there is one piece they are taken, else each piece is a copy of its part.
pub(crate) fn write_pieces<B: Layered>(
    volume: &mut CountedVolume<B>,
    alloc: Global,
    dev: Dev,
    range: Range,
    bytes: &mut Buf,
) -> Result<(), Refusal>
    requires between { IsBetween volume.old.volume }
    requires can { CanAsk B.size dev range volume.old.volume }
    requires room { length bytes.old ≡ 512 * range.count }
    ensures between { IsBetween volume.new.volume }
    ensures settled { KeepsRest B.layers volume.old volume.new }
    ensures done { OnOk result (IsDoneBy B.contents B.layers (written_beside dev (span_of range) bytes.old) Written (rested_of volume.old.volume) (rested_of volume.new.volume)) }
    ensures refused { IfErr result (λ refusal. IsWriteRefused B.contents B.layers dev (span_of range) bytes.old refusal (rested_of volume.old.volume) (rested_of volume.new.volume)) }
    ensures answered { OnOk result (AreWrittenAtRest B.may_hold B.contents B.layers B.fault_count B.size dev (pieces_of (piece_with volume.old.volume.merge volume.old.volume.snaps) (span_of range)) bytes.old volume.old.volume volume.new.volume) }
    ensures undone { IfErr result (λ refusal. IsWriteCut B.may_hold B.contents B.layers B.fault_count B.size dev (pieces_of (piece_with volume.old.volume.merge volume.old.volume.snaps) (span_of range)) bytes.old refusal volume.old.volume volume.new.volume) }
    ensures shows { OnOk result (IsSettled B.layers (rested_of volume.old.volume) → IsPlainWrite dev (span_of range) bytes.old (arrays_in B.contents B.layers (rested_of volume.old.volume)) (arrays_in B.contents B.layers (rested_of volume.new.volume))) }
    ensures loses { IfErr result (λ refusal. IsSettled B.layers (rested_of volume.old.volume) → IsPlainWriteRefused dev (span_of range) (pieces_for B.contents B.layers (span_of range) (rested_of volume.old.volume)) bytes.old refusal (arrays_in B.contents B.layers (rested_of volume.old.volume)) (arrays_in B.contents B.layers (rested_of volume.new.volume))) }
    ensures kept { Keeps B.layers B.size volume.old volume.new }
    ensures requests { Asks range.count volume.old volume.new }
    ensures taken { TakesByRequests volume.old volume.new }
    ensures full { IsFullIfTold result volume.new.taken }
{
    // A quiet volume, no device of which drops writes, is at rest.
    let _ = volume.is_quiet();
    let geometry = Geometry {
        chunk: volume.piece(),
        sectors: range.size,
    };
    let mut from = 0;
    for piece in geometry.pieces(range) {
        let to = from + piece.count as usize * SECTOR_BYTES;
        match write_piece(volume, alloc, dev, piece, bytes, from, to) {
            Ok(()) => {}
            Err(refusal) => return Err(refusal),
        }
        from = to;
    }
    Ok(())
}

/// Reads a range, piece after piece. A piece that is not done ends it, and those before it were read.
pub(crate) fn read_pieces<B: Layered>(
    volume: &mut CountedVolume<B>,
    alloc: Global,
    dev: Dev,
    range: Range,
) -> Result<Buf, Refusal>
    requires between { IsBetween volume.old.volume }
    requires can { CanAsk B.size dev range volume.old.volume }
    ensures between { IsBetween volume.new.volume }
    ensures settled { KeepsRest B.layers volume.old volume.new }
    ensures done { IfOk result (λ bytes. IsDoneBy B.contents B.layers (read_beside dev (span_of range)) (Data bytes) (rested_of volume.old.volume) (rested_of volume.new.volume)) }
    ensures refused { IfErr result (λ refusal. IsReadRefused B.contents B.layers dev (span_of range) refusal (rested_of volume.old.volume) (rested_of volume.new.volume)) }
    ensures answered { IfOk result (λ bytes. AreReadAtRest B.may_hold B.contents B.layers B.fault_count B.size dev (pieces_of (piece_with volume.old.volume.merge volume.old.volume.snaps) (span_of range)) bytes volume.old.volume volume.new.volume) }
    ensures undone { IfErr result (λ refusal. IsReadUndone B.may_hold B.contents B.layers B.fault_count B.size dev (pieces_of (piece_with volume.old.volume.merge volume.old.volume.snaps) (span_of range)) refusal volume.old.volume volume.new.volume) }
    ensures shows { IfOk result (λ bytes. IsSettled B.layers (rested_of volume.old.volume) → IsPlainRead dev (span_of range) bytes (arrays_in B.contents B.layers (rested_of volume.old.volume)) (arrays_in B.contents B.layers (rested_of volume.new.volume))) }
    ensures loses { IfErr result (λ refusal. IsSettled B.layers (rested_of volume.old.volume) → IsPlainReadRefused dev refusal (arrays_in B.contents B.layers (rested_of volume.old.volume)) (arrays_in B.contents B.layers (rested_of volume.new.volume))) }
    ensures kept { Keeps B.layers B.size volume.old volume.new }
    ensures requests { Asks range.count volume.old volume.new }
    ensures taken { TakesByRequests volume.old volume.new }
    ensures full { IsFullIfTold result volume.new.taken }
{
    // A quiet volume, no device of which drops writes, is at rest.
    let _ = volume.is_quiet();
    let geometry = Geometry {
        chunk: volume.piece(),
        sectors: range.size,
    };
    if is_one_piece(geometry.chunk, &range) {
        return read_alone(volume, alloc, dev, range);
    }
    let Ok(mut out) = Vec::with_capacity(alloc, range.count as usize * SECTOR_BYTES) else {
        return Err(Refusal::NoMemory);
    };
    for piece in geometry.pieces(range) {
        match read_piece(volume, dev, piece, &mut out) {
            Ok(()) => {}
            Err(refusal) => return Err(refusal),
        }
    }
    Ok(Buf::from_vec(out))
}
