// The flushes and writes of a load.
ghost use Rattle.std.specs.Prelude.{◌≡◌, ◌+◌, ◌*◌, ◌<◌, ◌↔◌, ◌||◌, length, is_ok, OnOk, OnErr, IfOk, IsTrue, Ok, true, false};
ghost use Rattle.device.specs.declared.operation.Operation.TheVariants.{Writes, Flushes};
ghost use Rattle.device.specs.Layers.{is_loud};
ghost use Rattle.cow_format.specs.Places.{ChangesOnly};
ghost use Rattle.store.specs.declared.state.Left.TheVariants.{FirstArea, HeaderChunk, Tail, Nothing};
ghost use Rattle.store.specs.Operations.{IsOneOperation};
ghost use Rattle.store.specs.Held.{committed};
ghost use Rattle.store.specs.Stopping.{LeavesPreparing};
ghost use Rattle.store.specs.Loading.{is_settled, is_begun, is_left, after_write, after_prepare, chunk_left, with_left, with_prepared};
ghost use Rattle.crash_laws.specs.Firm.{IsFirm};
ghost use Rattle.store.specs.Calls.{ChangesOnlyArea, DoesFlush, EndsFirm, KeepsBytes, KeepsDurable, KeepsExceptions, KeepsSize, KeepsState, MayHoldNowIfLoud, StaysAsLoud, WritesArea};

use crate::chunks::write_whole;
use crate::{Left, Store};
use device::{Block, Io};
use exception_arena::Exceptions;

impl<B: Block> Store<B> {
    /// Whether no write of the load is left, nor a flush.
    pub fn is_ready(&self) -> bool
        ensures { IsTrue result ↔ ((self.now.state.left ≡ Nothing) × (self.now.state.awaits ≡ false)) }
    {
        self.state.left == Left::Nothing && !self.state.awaits
    }

    /// Does the next of the load's flushes and writes, and tells whether one is left. A flush comes first, and another after
    /// each write. A fresh store's area 0 is zeroed, and then its header is written; a written store's current area is
    /// written with its tail zero, where its tail is not zero. Where no write is left, nor a flush, nothing is done.
    /// Whatever a stop may then leave of it might be left before, or is fresh while the store is, and else is loaded again
    /// with its pairs.
    pub fn prepare(&mut self) -> Result<bool, Io>
        ensures flushes { self.old.state.awaits ≡ true → IsOneOperation Flushes (is_ok result) (B.layers self.old.device) (B.layers self.new.device) (B.fault_count self.old.device) (B.fault_count self.new.device) (B.done_count self.old.device) (B.done_count self.new.device) }
        ensures operation { self.old.state.awaits ≡ false → is_left self.old.state.left ≡ true → IsOneOperation (Writes (self.old.state.chunk * chunk_left self.old.state.left self.old.state) self.old.state.chunk) (is_ok result) (B.layers self.old.device) (B.layers self.new.device) (B.fault_count self.old.device) (B.fault_count self.new.device) (B.done_count self.old.device) (B.done_count self.new.device) }
        ensures idle { self.old.state.awaits ≡ false → self.old.state.left ≡ Nothing → (result ≡ Ok false) × (self.new.device ≡ self.old.device) }
        ensures written { OnOk result (IsTrue (is_loud (B.layers self.old.device)) → B.contents self.new.device ≡ with_prepared self.old.state (B.contents self.old.device)) }
        ensures same { OnErr result (KeepsBytes self.old self.new) }
        ensures only { ChangesOnly self.old.state.chunk (chunk_left self.old.state.left self.old.state) (B.contents self.old.device) (B.contents self.new.device) }
        ensures loud { StaysAsLoud self.old self.new }
        ensures size { KeepsSize self.old self.new }
        ensures adds { MayHoldNowIfLoud self.old self.new }
        ensures firm { self.old.state.awaits ≡ true → OnOk result (IsTrue (is_loud (B.layers self.old.device)) → IsFirm (B.may_hold self.new.device) (B.contents self.new.device) (B.size self.new.device)) }
        ensures leaves { self.old.state.valid ≡ true → IsTrue (is_loud (B.layers self.old.device)) → LeavesPreparing (B.may_hold self.old.device) (B.may_hold self.new.device) self.old.state.left self.old.state.chunk self.old.state.origin self.old.state.size (committed self.old.exceptions) }
        ensures exceptions { KeepsExceptions self.old self.new }
        ensures places { self.new.places ≡ self.old.places }
        ensures state { OnOk result (self.new.state ≡ after_prepare self.old.state (length (committed self.old.exceptions))) }
        ensures more { IfOk result (λ more. more ≡ (is_left self.new.state.left || self.new.state.awaits)) }
        ensures kept { OnErr result (KeepsState self.old self.new) }
    {
        if self.state.awaits {
            self.flush_load()?;
            return Ok(self.state.left != Left::Nothing);
        }
        match self.state.left {
            Left::FirstArea => {
                self.write_current(Left::HeaderChunk)?;
                Ok(true)
            }
            Left::HeaderChunk => {
                self.write_valid()?;
                Ok(true)
            }
            Left::Tail => {
                self.write_current(Left::Nothing)?;
                Ok(true)
            }
            Left::Nothing => Ok(false),
        }
    }

    /// Flushes the store, after which no flush is left before the load's next write, and all its pairs were flushed.
    #[tactic(auto, using(crate::proofs::Writes::front_awaited, crate::proofs::Writes::stored_awaited))]
    fn flush_load(&mut self) -> Result<(), Io>
        ensures operation { DoesFlush result self.old self.new }
        ensures same { KeepsBytes self.old self.new }
        ensures loud { StaysAsLoud self.old self.new }
        ensures size { KeepsSize self.old self.new }
        ensures adds { MayHoldNowIfLoud self.old self.new }
        ensures firm { OnOk result (EndsFirm self.old self.new) }
        ensures exceptions { KeepsExceptions self.old self.new }
        ensures places { self.new.places ≡ self.old.places }
        ensures state { OnOk result (self.new.state ≡ record self.old.state { awaits = false; sure = length (committed self.old.exceptions) }) }
        ensures kept { OnErr result (KeepsState self.old self.new) }
    {
        match self.device.flush() {
            Ok(()) => {
                self.state.awaits = false;
                self.state.sure = self.exceptions.len() as u64;
                Ok(())
            }
            Err(io) => Err(io),
        }
    }

    /// Writes the current area as it is in memory, after which a flush and so much of the load's writes is left.
    fn write_current(&mut self, left: Left) -> Result<(), Io>
        requires unsettled { is_settled self.old.state.left ≡ false }
        requires begun { is_begun left ≡ true }
        requires settled { is_settled left ≡ true }
        requires next { left ≡ after_write self.old.state.left }
        ensures operation { WritesArea result self.old self.new }
        ensures written { OnOk result (IsTrue (is_loud (B.layers self.old.device)) → B.contents self.new.device ≡ with_left self.old.state.left self.old.state (B.contents self.old.device)) }
        ensures same { OnErr result (KeepsBytes self.old self.new) }
        ensures only { ChangesOnlyArea self.old self.new }
        ensures loud { StaysAsLoud self.old self.new }
        ensures durable { KeepsDurable self.old self.new }
        ensures adds { MayHoldNowIfLoud self.old self.new }
        ensures exceptions { KeepsExceptions self.old self.new }
        ensures places { self.new.places ≡ self.old.places }
        ensures state { OnOk result (self.new.state ≡ record self.old.state { left = left; awaits = true }) }
        ensures kept { OnErr result (KeepsState self.old self.new) }
    {
        let place = self.state.current * (32 * self.state.chunk as u64 + 1) + 1;
        match write_whole(
            &mut self.device,
            self.state.size,
            self.state.chunk,
            place,
            self.area.encode(),
        ) {
            Ok(()) => {
                self.state.left = left;
                self.state.awaits = true;
                Ok(())
            }
            Err(io) => Err(io),
        }
    }
}
