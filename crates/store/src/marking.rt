// The header is written, with its mark of validity.
ghost use Rattle.std.specs.Prelude.{◌≡◌, ◌*◌, ◌<◌, ◌≤◌, is_ok, OnOk, OnErr, IsTrue, true, false};
ghost use Rattle.sector.specs.Bytes.{with_sectors};
ghost use Rattle.device.specs.declared.operation.Operation.TheVariants.{Writes};
ghost use Rattle.device.specs.Layers.{is_loud};
ghost use Rattle.cow_format.specs.Places.{ChangesOnly};
ghost use Rattle.cow_header.specs.HeaderText.{header_bytes};
ghost use Rattle.store.specs.declared.state.Left.TheVariants.{HeaderChunk, Nothing};
ghost use Rattle.store.specs.Operations.{IsOneOperation};
ghost use Rattle.store.specs.Calls.{ChangesOnlyHeader, KeepsBytes, KeepsDurable, KeepsExceptions, KeepsSize, KeepsState, MarksInvalid, MayHoldNowIfLoud, StaysAsLoud, WritesHeader};
ghost use Rattle.store.specs.Devices.{AddsNowIfLoud, IsAsLoud, Keeps};

use crate::chunks::write_whole;
use crate::{Left, Store};
use cow_header::encode;
use device::{Block, Io};
use metadata_area::Area;

impl<B: Block> Store<B> {
    /// Writes the header with the mark that the store is invalid, the rest of its chunk zero. No load accepts the store
    /// afterwards.
    pub fn write_invalid(&mut self) -> Result<(), Io>
        requires ready { self.old.state.left ≡ Nothing }
        ensures operation { WritesHeader result self.old self.new }
        ensures written { OnOk result (MarksInvalid self.old self.new) }
        ensures same { OnErr result (KeepsBytes self.old self.new) }
        ensures only { ChangesOnlyHeader self.old self.new }
        ensures durable { KeepsDurable self.old self.new }
        ensures adds { MayHoldNowIfLoud self.old self.new }
        ensures size { KeepsSize self.old self.new }
        ensures exceptions { KeepsExceptions self.old self.new }
        ensures places { self.new.places ≡ self.old.places }
        ensures state { OnOk result (self.new.state ≡ record self.old.state { valid = false }) }
        ensures kept { OnErr result (KeepsState self.old self.new) }
    {
        match write_header(&mut self.device, self.state.size, &mut self.spare, false) {
            Ok(()) => {
                self.state.valid = false;
                Ok(())
            }
            Err(io) => Err(io),
        }
    }

    /// Writes the header of a fresh store whose area 0 is zeroed, after which no write of its load is left, but a flush.
    pub(crate) fn write_valid(&mut self) -> Result<(), Io>
        requires begun { self.old.state.left ≡ HeaderChunk }
        ensures operation { WritesHeader result self.old self.new }
        ensures loud { StaysAsLoud self.old self.new }
        ensures written { OnOk result (IsTrue (is_loud (B.layers self.old.device)) → B.contents self.new.device ≡ with_sectors (B.contents self.old.device) 0 (header_bytes (512 * self.old.state.chunk) true self.old.state.chunk)) }
        ensures same { OnErr result (KeepsBytes self.old self.new) }
        ensures only { ChangesOnlyHeader self.old self.new }
        ensures durable { KeepsDurable self.old self.new }
        ensures adds { MayHoldNowIfLoud self.old self.new }
        ensures size { KeepsSize self.old self.new }
        ensures exceptions { KeepsExceptions self.old self.new }
        ensures places { self.new.places ≡ self.old.places }
        ensures state { OnOk result (self.new.state ≡ record self.old.state { left = Nothing; awaits = true }) }
        ensures kept { OnErr result (KeepsState self.old self.new) }
    {
        match write_header(&mut self.device, self.state.size, &mut self.spare, true) {
            Ok(()) => {
                self.state.left = Left::Nothing;
                self.state.awaits = true;
                Ok(())
            }
            Err(io) => Err(io),
        }
    }
}

/// Writes a header over the first chunk of a device, with one of the two marks, the rest of its chunk zero. The text is put
/// together in an area that is room for a chunk.
fn write_header<B: Block>(device: &mut B, size: u64, room: &mut Area, valid: bool) -> Result<(), Io>
    requires size { size ≡ B.size device.old }
    requires inside { room.old.chunk ≤ B.size device.old }
    ensures chunk { room.new.chunk ≡ room.old.chunk }
    ensures operation { IsOneOperation (Writes 0 room.old.chunk) (is_ok result) (B.layers device.old) (B.layers device.new) (B.fault_count device.old) (B.fault_count device.new) (B.done_count device.old) (B.done_count device.new) }
    ensures loud { IsAsLoud B.layers device.old device.new }
    ensures written { OnOk result (IsTrue (is_loud (B.layers device.old)) → B.contents device.new ≡ with_sectors (B.contents device.old) 0 (header_bytes (512 * room.old.chunk) valid room.old.chunk)) }
    ensures same { OnErr result (Keeps B.contents device.old device.new) }
    ensures only { ChangesOnly room.old.chunk 0 (B.contents device.old) (B.contents device.new) }
    ensures durable { Keeps B.durable device.old device.new }
    ensures adds { AddsNowIfLoud B.Block device.old device.new }
    ensures size { Keeps B.size device.old device.new }
{
    put_header(room, valid);
    match write_whole(device, size, room.chunk, 0, room.encode()) {
        Ok(()) => Ok(()),
        Err(io) => Err(io),
    }
}

/// Writes a header over the bytes of an area that is room for a chunk.
#[tactic(auto, using(sector::proofs::Sectors::written_back))]
fn put_header(room: &mut Area, valid: bool)
    ensures chunk { room.new.chunk ≡ room.old.chunk }
    ensures text { room.new.bytes.items ≡ header_bytes (512 * room.old.chunk) valid room.old.chunk }
{
    encode(room.bytes.as_mut_slice(), valid, room.chunk);
}
