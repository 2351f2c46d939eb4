// What a seat asks of the volumes of a rig.
ghost use Rattle.std.specs.Prelude.{◌≡◌, ◌≢◌, ◌*◌, ◌<◌, ◌∷◌, ◌++◌, ℕ, true, List, [], length, IfOk, IfErr, OnOk};
ghost use Rattle.chunk.specs.Pieces.{span_of};
ghost use Rattle.plain_machine.specs.declared.request.Op.TheVariants.{Flush, Read, Write};
ghost use Rattle.plain_machine.specs.declared.request.Reply.TheVariants.{Data, Written};
ghost use Rattle.volume.specs.Flying.{Fits};
ghost use Rattle.audited_volume.specs.declared.entry.Receipt.{Receipt};
ghost use Rattle.locked_volume.specs.Denying.{Begin, Serve, WasBegun, WasDenied};
ghost use Rattle.locked_volume.specs.Fixed.{piece_at};
ghost use Rattle.volume_threads.specs.Rigs.{HasAdded, IsPieceCut, receipts_at, seen_at};
ghost use Rattle.volume_threads.specs.Sittings.{IsSameSitting};
ghost use Rattle.volume_threads.specs.Served.{IsOf, IsReadBy, IsReadCut, IsReadLost, IsWriteCut, IsWriteLost, IsWrittenBy, read_op, written_reply};

use crate::performing::perform;
use crate::place::VolumePlace;
use crate::queue::{QueuePass, TicketQueue};
use crate::rig::Rig;
use crate::seat::Seat;
use crate::sitting::Sitting;
use crate::turns::{begin, merge_turn};
use audited_volume::Receipt;
use chunk::Geometry;
use layers::Layered;
use locked_volume::Room;
use plain_machine::{Dev, Op, Reply, Request, SnapId, refusal_for};
use sector::{Buf, Range, Refusal, SECTOR_BYTES};
use std::sync::Wait;
use thread_channels::Gate;

impl<J: Room> Seat<J> {
    /// Its number, from 1 to 8.
    pub fn number(&self) -> u8
        ensures { result ≡ self.now.number }
    {
        self.number
    }

    /// Its receipts of the volume at a place, in the order in which its requests were answered.
    pub fn receipts(&self, volume: usize) -> &[Receipt]
        requires { volume < J.volumes }
        ensures { result.now ≡ receipts_at self.now volume }
    {
        self.sittings[volume].receipts()
    }

    /// Makes one read or write, and works until it is answered, as it asks.
    fn ask<B: Layered, G: Gate + Drop, R: Wait>(
        &mut self,
        rt: &R,
        rig: &Rig<B, G, J>,
        volume: usize,
        request: Request,
    ) -> Result<Reply, Refusal>
        requires volume { volume < J.volumes }
        requires plain { request.op ≢ Flush }
        requires bytes { (bytes : List ℕ) → request.op ≡ Write bytes → length bytes ≡ 512 * request.range.count }
        ensures ok { IfOk result (λ reply. (r : Receipt) × (r.request ≡ request) × (r.reply ≡ reply) × HasAdded volume (r ∷ []) self.old self.new) }
        ensures fits { IfOk result (λ reply. Fits request.op request.range reply) }
        ensures err { IfErr result (λ refusal. HasAdded volume [] self.old self.new × WasDenied (J.start volume) (J.fixed volume) (seen_at self.new volume) (Serve request) refusal) }
    {
        let place = &rig.places[volume];
        perform(
            rt,
            &rig.queue,
            place,
            &mut self.pass,
            &mut self.sittings[volume],
            request,
        )
    }

    /// Reads one piece to the end of `out`.
    #[tactic(auto, using(crate::proofs::Answering::no_read_written, crate::proofs::Answering::no_read_flushed))]
    fn read_piece<B: Layered, G: Gate + Drop, R: Wait>(
        &mut self,
        rt: &R,
        rig: &Rig<B, G, J>,
        volume: usize,
        dev: Dev,
        part: Range,
        out: &mut Vec<u8>,
    ) -> Result<(), Refusal>
        requires volume { volume < J.volumes }
        ensures ok { OnOk result ((own : List ℕ) × (r : Receipt) × IsOf dev Read (span_of part) r × (r.reply ≡ Data own) × HasAdded volume (r ∷ []) self.old self.new × (out.new.items ≡ out.old.items ++ own)) }
        ensures err { IfErr result (λ refusal. IsPieceCut read_op Data IsReadLost (λ request r. WasDenied (J.start volume) (J.fixed volume) (seen_at self.new volume) (Serve request) r) dev (span_of part) refusal volume self.old self.new) }
    {
        let request = Request {
            dev,
            op: Op::Read,
            range: part,
        };
        match self.ask(rt, rig, volume, request) {
            Ok(Reply::Data(bytes)) => match out.extend_from_slice(bytes.as_slice()) {
                Ok(()) => Ok(()),
                Err(_) => Err(Refusal::NoMemory),
            },
            Ok(Reply::Refused(failure)) => Err(refusal_for(failure)),
            // No read is answered so.
            Ok(Reply::Written) => unreachable!(),
            Ok(Reply::Flushed) => unreachable!(),
            Err(refusal) => Err(refusal),
        }
    }

    /// Writes one piece.
    #[tactic(auto, using(crate::proofs::Answering::no_write_read, crate::proofs::Answering::no_write_flushed))]
    fn write_piece<B: Layered, G: Gate + Drop, R: Wait>(
        &mut self,
        rt: &R,
        rig: &Rig<B, G, J>,
        volume: usize,
        dev: Dev,
        part: Range,
        bytes: &[u8],
    ) -> Result<(), Refusal>
        requires volume { volume < J.volumes }
        requires bytes { length bytes.now ≡ 512 * part.count }
        ensures ok { OnOk result ((r : Receipt) × IsOf dev (Write bytes.now) (span_of part) r × (r.reply ≡ Written) × HasAdded volume (r ∷ []) self.old self.new) }
        ensures err { IfErr result (λ refusal. IsPieceCut Write written_reply IsWriteLost (λ request r. WasDenied (J.start volume) (J.fixed volume) (seen_at self.new volume) (Serve request) r) dev (span_of part) refusal volume self.old self.new) }
    {
        let Ok(bytes) = Buf::from_slice(self.alloc, bytes) else {
            return Err(Refusal::NoMemory);
        };
        let request = Request {
            dev,
            op: Op::Write(bytes),
            range: part,
        };
        match self.ask(rt, rig, volume, request) {
            Ok(Reply::Written) => Ok(()),
            Ok(Reply::Refused(failure)) => Err(refusal_for(failure)),
            // No write is answered so.
            Ok(Reply::Data(_)) => unreachable!(),
            Ok(Reply::Flushed) => unreachable!(),
            Err(refusal) => Err(refusal),
        }
    }

    /// Reads a range of a device, piece after piece, which are the volume's. The first piece that is refused, or that is answered by a failure, ends it,
    /// and those before it were read. Where all were read it is refused for want of memory alone (`NoMemory`). A piece is refused
    /// for want of memory, or by what the journal's entries, as far as the seat has then seen them, and what stays of the volume
    /// say. A range of no sectors is refused as the volume refuses it.
    pub fn read<B: Layered, G: Gate + Drop, R: Wait>(
        &mut self,
        rt: &R,
        rig: &Rig<B, G, J>,
        volume: usize,
        dev: Dev,
        range: Range,
    ) -> Result<Buf, Refusal>
        requires volume { volume < J.volumes }
        ensures ok { IfOk result (λ bytes. (more : List Receipt) × HasAdded volume more self.old self.new × IsReadBy (piece_at (J.fixed volume)) dev (span_of range) more bytes) }
        ensures err { IfErr result (λ refusal. (more : List Receipt) × HasAdded volume more self.old self.new × IsReadCut (λ request r. WasDenied (J.start volume) (J.fixed volume) (seen_at self.new volume) (Serve request) r) (piece_at (J.fixed volume)) dev (span_of range) more refusal) }
    {
        let Ok(mut out) = Vec::with_capacity(self.alloc, range.count as usize * SECTOR_BYTES) else {
            return Err(Refusal::NoMemory);
        };
        let geometry = Geometry {
            chunk: rig.places[volume].piece,
            sectors: range.size,
        };
        for part in geometry.pieces(range) {
            match self.read_piece(rt, rig, volume, dev, part, &mut out) {
                Ok(()) => {}
                Err(refusal) => return Err(refusal),
            }
        }
        Ok(Buf::from_vec(out))
    }

    /// Writes a range of a device, piece after piece.
    fn write_all<B: Layered, G: Gate + Drop, R: Wait>(
        &mut self,
        rt: &R,
        rig: &Rig<B, G, J>,
        volume: usize,
        dev: Dev,
        range: Range,
        bytes: &[u8],
    ) -> Result<(), Refusal>
        requires volume { volume < J.volumes }
        requires bytes { length bytes.now ≡ 512 * range.count }
        ensures ok { OnOk result ((more : List Receipt) × HasAdded volume more self.old self.new × IsWrittenBy (piece_at (J.fixed volume)) dev (span_of range) more bytes.now) }
        ensures err { IfErr result (λ refusal. (more : List Receipt) × HasAdded volume more self.old self.new × IsWriteCut (λ request r. WasDenied (J.start volume) (J.fixed volume) (seen_at self.new volume) (Serve request) r) (piece_at (J.fixed volume)) dev (span_of range) more refusal) }
    {
        let geometry = Geometry {
            chunk: rig.places[volume].piece,
            sectors: range.size,
        };
        let mut from = 0;
        for part in geometry.pieces(range) {
            let to = from + part.count as usize * SECTOR_BYTES;
            match self.write_piece(rt, rig, volume, dev, part, &bytes[from..to]) {
                Ok(()) => {}
                Err(refusal) => return Err(refusal),
            }
            from = to;
        }
        Ok(())
    }

    /// Writes a range of a device, piece after piece, which are the volume's. The first piece that is refused, or that is answered by a failure, ends
    /// it, and those before it stand: a write whose pieces were all done is not refused. A piece is refused as one that is read.
    pub fn write<B: Layered, G: Gate + Drop, R: Wait>(
        &mut self,
        rt: &R,
        rig: &Rig<B, G, J>,
        volume: usize,
        dev: Dev,
        range: Range,
        bytes: Buf,
    ) -> Result<(), Refusal>
        requires volume { volume < J.volumes }
        requires bytes { length bytes ≡ 512 * range.count }
        ensures ok { OnOk result ((more : List Receipt) × HasAdded volume more self.old self.new × IsWrittenBy (piece_at (J.fixed volume)) dev (span_of range) more bytes) }
        ensures err { IfErr result (λ refusal. (more : List Receipt) × HasAdded volume more self.old self.new × IsWriteCut (λ request r. WasDenied (J.start volume) (J.fixed volume) (seen_at self.new volume) (Serve request) r) (piece_at (J.fixed volume)) dev (span_of range) more refusal) }
    {
        self.write_all(rt, rig, volume, dev, range, bytes.as_slice())
    }

    /// Merges a snapshot that a seat may merge into its origin: begins the merge once the volume is quiet, and works until it can be finished or has
    /// stopped at a fault. That it began is an entry of the journal, which the seat had not seen before and has seen then; it is
    /// refused by what the entries that it has seen and what stays of the volume say.
    pub fn merge<B: Layered, G: Gate + Drop, R: Wait>(
        &mut self,
        rt: &R,
        rig: &Rig<B, G, J>,
        volume: usize,
        snap: SnapId,
    ) -> Result<(), Refusal>
        requires volume { volume < J.volumes }
        requires asked { J.merges volume snap ≡ true }
        ensures added { HasAdded volume [] self.old self.new }
        ensures begun { OnOk result (WasBegun snap (seen_at self.old volume) (seen_at self.new volume)) }
        ensures denied { IfErr result (λ refusal. WasDenied (J.start volume) (J.fixed volume) (seen_at self.new volume) (Begin snap) refusal) }
    {
        let place = &rig.places[volume];
        let sitting = &mut self.sittings[volume];
        begin_merge(rt, &rig.queue, place, &mut self.pass, sitting, snap)?;
        work_merge(rt, &rig.queue, place, &mut self.pass);
        Ok(())
    }
}

/// Begins a merge once the volume is quiet.
fn begin_merge<B: Layered, J: Room, R: Wait>(
    rt: &R,
    queue: &TicketQueue<J>,
    place: &VolumePlace<B, J>,
    pass: &mut QueuePass<J>,
    sitting: &mut Sitting<J>,
    snap: SnapId,
) -> Result<(), Refusal>
    requires volume { sitting.old.volume ≡ place.now.volume }
    requires asked { J.merges sitting.old.volume snap ≡ true }
    ensures seat { IsSameSitting sitting.old sitting.new }
    ensures begun { OnOk result (WasBegun snap sitting.old.seen sitting.new.seen) }
    ensures denied { IfErr result (λ refusal. WasDenied (J.start sitting.old.volume) (J.fixed sitting.old.volume) sitting.new.seen (Begin snap) refusal) }
{
    for _ in rt.forever() {
        let (got, started) = begin(rt, place, sitting, snap);
        queue.put(rt, pass, place.volume, started);
        if got != Err(Refusal::NotQuiet) {
            return got;
        }
    }
    unreachable!()
}

/// Works until a merge can be finished or has stopped at a fault.
fn work_merge<B: Layered, J: Room, R: Wait>(
    rt: &R,
    queue: &TicketQueue<J>,
    place: &VolumePlace<B, J>,
    pass: &mut QueuePass<J>,
) {
    for _ in rt.forever() {
        let (is_over, started) = merge_turn(rt, place);
        queue.put(rt, pass, place.volume, started);
        if is_over {
            return;
        }
    }
}
