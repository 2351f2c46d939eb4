// One operation on a chunk of a device, whose size in sectors is told with it.
ghost use Rattle.std.specs.Prelude.{◌≡◌, ◌⊎◌, ℕ, ◌+◌, ◌*◌, ◌<◌, ◌≤◌, List, length, slice_index, is_ok, if◌then◌else◌, OnOk, OnErr, IsTrue};
ghost use Rattle.sector.specs.Bytes.{sectors_at, with_sectors, next_count};
ghost use Rattle.device.specs.declared.operation.Operation.TheVariants.{Reads, Writes};
ghost use Rattle.device.specs.Layers.{is_loud};
ghost use Rattle.cow_format.specs.Places.{ChangesOnly, chunk_at};
ghost use Rattle.store.specs.Operations.{IsOneOperation};
ghost use Rattle.store.specs.Devices.{AddsNowIfLoud, AddsOnlyNow, IsAsLoud, Keeps};

use device::{Block, Io};
use metadata_area::Area;
use sector::{Chunk, Range};

/// Writes so many sectors of a chunk, from one of its sectors on.
pub fn write_part<B: Block>(
    device: &mut B,
    size: u64,
    chunk: u32,
    place: Chunk,
    first: u32,
    count: u32,
    bytes: &[u8],
) -> Result<(), Io>
    requires size { size ≡ B.size device.old }
    requires some { 0 < count }
    requires part { first + count ≤ chunk }
    requires inside { chunk * (place + 1) ≤ B.size device.old }
    requires room { length bytes.now ≡ 512 * count }
    ensures operation { IsOneOperation (Writes (chunk * place + first) count) (is_ok result) (B.layers device.old) (B.layers device.new) (B.fault_count device.old) (B.fault_count device.new) (B.done_count device.old) (B.done_count device.new) }
    ensures loud { IsAsLoud B.layers device.old device.new }
    ensures written { OnOk result (IsTrue (is_loud (B.layers device.old)) → B.contents device.new ≡ with_sectors (B.contents device.old) (chunk * place + first) bytes.now) }
    ensures err { OnErr result (Keeps B.contents device.old device.new) }
    ensures only { ChangesOnly chunk place (B.contents device.old) (B.contents device.new) }
    ensures durable { Keeps B.durable device.old device.new }
    ensures adds { AddsNowIfLoud B.Block device.old device.new }
    ensures size { Keeps B.size device.old device.new }
{
    let range = Range {
        first: chunk as u64 * place + first as u64,
        count,
        size,
    };
    device.write(range, bytes)
}

/// Reads so many sectors of a chunk, from one of its sectors on. At `Io` the buffer is as it was.
pub fn read_part<B: Block>(
    device: &mut B,
    size: u64,
    chunk: u32,
    place: Chunk,
    first: u32,
    count: u32,
    out: &mut [u8],
) -> Result<(), Io>
    requires size { size ≡ B.size device.old }
    requires some { 0 < count }
    requires part { first + count ≤ chunk }
    requires inside { chunk * (place + 1) ≤ B.size device.old }
    requires room { length out.old ≡ 512 * count }
    ensures operation { IsOneOperation (Reads (chunk * place + first) count) (is_ok result) (B.layers device.old) (B.layers device.new) (B.fault_count device.old) (B.fault_count device.new) (B.done_count device.old) (B.done_count device.new) }
    ensures loud { IsAsLoud B.layers device.old device.new }
    ensures data { OnOk result (out.new ≡ sectors_at (B.contents device.old) (chunk * place + first) count) }
    ensures err { OnErr result (out.new ≡ out.old) }
    ensures contents { Keeps B.contents device.old device.new }
    ensures durable { Keeps B.durable device.old device.new }
    ensures adds { AddsOnlyNow B.Block device.old device.new }
    ensures size { Keeps B.size device.old device.new }
{
    let range = Range {
        first: chunk as u64 * place + first as u64,
        count,
        size,
    };
    device.read(range, out)
}

/// Writes a whole chunk.
pub fn write_whole<B: Block>(
    device: &mut B,
    size: u64,
    chunk: u32,
    place: Chunk,
    bytes: &[u8],
) -> Result<(), Io>
    requires size { size ≡ B.size device.old }
    requires some { 0 < chunk }
    requires inside { chunk * (place + 1) ≤ B.size device.old }
    requires room { length bytes.now ≡ 512 * chunk }
    ensures operation { IsOneOperation (Writes (chunk * place) chunk) (is_ok result) (B.layers device.old) (B.layers device.new) (B.fault_count device.old) (B.fault_count device.new) (B.done_count device.old) (B.done_count device.new) }
    ensures loud { IsAsLoud B.layers device.old device.new }
    ensures written { OnOk result (IsTrue (is_loud (B.layers device.old)) → B.contents device.new ≡ with_sectors (B.contents device.old) (chunk * place) bytes.now) }
    ensures err { OnErr result (Keeps B.contents device.old device.new) }
    ensures only { ChangesOnly chunk place (B.contents device.old) (B.contents device.new) }
    ensures durable { Keeps B.durable device.old device.new }
    ensures adds { AddsNowIfLoud B.Block device.old device.new }
    ensures size { Keeps B.size device.old device.new }
{
    write_part(device, size, chunk, place, 0, chunk, bytes)
}

/// Reads a whole chunk. At `Io` the buffer is as it was.
pub fn read_whole<B: Block>(
    device: &mut B,
    size: u64,
    chunk: u32,
    place: Chunk,
    out: &mut [u8],
) -> Result<(), Io>
    requires size { size ≡ B.size device.old }
    requires some { 0 < chunk }
    requires inside { chunk * (place + 1) ≤ B.size device.old }
    requires room { length out.old ≡ 512 * chunk }
    ensures operation { IsOneOperation (Reads (chunk * place) chunk) (is_ok result) (B.layers device.old) (B.layers device.new) (B.fault_count device.old) (B.fault_count device.new) (B.done_count device.old) (B.done_count device.new) }
    ensures loud { IsAsLoud B.layers device.old device.new }
    ensures data { OnOk result (out.new ≡ chunk_at chunk (B.contents device.old) place) }
    ensures err { OnErr result (out.new ≡ out.old) }
    ensures contents { Keeps B.contents device.old device.new }
    ensures durable { Keeps B.durable device.old device.new }
    ensures adds { AddsOnlyNow B.Block device.old device.new }
    ensures size { Keeps B.size device.old device.new }
{
    read_part(device, size, chunk, place, 0, chunk, out)
}

/// Reads a chunk into an area, which has as many sectors. At `Io` the area's bytes are as they were.
#[tactic(auto, using(sector::proofs::Sectors::written_back))]
pub fn read_area<B: Block>(
    device: &mut B,
    size: u64,
    area: &mut Area,
    place: Chunk,
) -> Result<(), Io>
    requires size { size ≡ B.size device.old }
    requires inside { area.old.chunk * (place + 1) ≤ B.size device.old }
    ensures operation { IsOneOperation (Reads (area.old.chunk * place) area.old.chunk) (is_ok result) (B.layers device.old) (B.layers device.new) (B.fault_count device.old) (B.fault_count device.new) (B.done_count device.old) (B.done_count device.new) }
    ensures loud { IsAsLoud B.layers device.old device.new }
    ensures chunk { area.new.chunk ≡ area.old.chunk }
    ensures data { OnOk result (area.new.bytes.items ≡ chunk_at area.old.chunk (B.contents device.old) place) }
    ensures err { OnErr result (area.new.bytes.items ≡ area.old.bytes.items) }
    ensures contents { Keeps B.contents device.old device.new }
    ensures durable { Keeps B.durable device.old device.new }
    ensures adds { AddsOnlyNow B.Block device.old device.new }
    ensures size { Keeps B.size device.old device.new }
    ensures faults { B.fault_count device.new ≡ (if is_ok result then B.fault_count device.old else next_count (B.fault_count device.old)) }
{
    match read_whole(device, size, area.chunk, place, area.bytes.as_mut_slice()) {
        Ok(()) => Ok(()),
        Err(io) => Err(io),
    }
}
