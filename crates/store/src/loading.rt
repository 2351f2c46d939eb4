// The areas of a written store are read, up to the first empty slot.
ghost use Rattle.std.specs.Prelude.{◌≡◌, ◌⊎◌, ℕ, ◌+◌, ◌*◌, ◌/◌, ◌%◌, ◌<◌, ◌≤◌, ◌++◌, List, length, IfOk, IfErr, OnOk, MatchResult, IsTrue, Ok, Err};
ghost use Rattle.sector.specs.declared.refusal.Refusal.TheVariants.{NoMemory, Io as IoRefusal, Damaged};
ghost use Rattle.store.specs.Reading.{all_read, read_pairs, IsEnded};
ghost use Rattle.store.specs.Starved.{ArePartRead};
ghost use Rattle.cow_format.specs.Places.{area_place, chunk_at};
ghost use Rattle.cow_format.specs.Pairs.{pairs_of};
ghost use Rattle.store.specs.Opening.{faults_after};
ghost use Rattle.store.specs.Loaded.{IsLoaded, IsPrefix, IsRead};
ghost use Rattle.store.specs.Devices.{AddsOnlyNow, IsAsLoud, Keeps};

use crate::chunks::read_area;
use device::Block;
use metadata_area::Area;
use sector::{Pair, Refusal};

/// Reads the areas up to the first empty slot, takes their pairs, and tells the number of that slot's area, which is then
/// in memory. `Damaged` where a full area is followed by none.
pub fn read_areas<B: Block>(
    device: &mut B,
    area: &mut Area,
    pairs: &mut Vec<Pair>,
) -> Result<u64, Refusal>
    requires none { length pairs.old.items ≡ 0 }
    requires large { 2 * area.old.chunk ≤ B.size device.old }
    ensures read { IfOk result (λ current. IsRead area.old.chunk (B.size device.old) (B.contents device.old) current pairs.new.items area.new.bytes.items) }
    ensures damaged { IfErr result (λ e. e ≡ Damaged → B.size device.old < area.old.chunk * (area_place area.old.chunk (length (pairs_of area.old.chunk (B.contents device.old)) / (32 * area.old.chunk)) + 1)) }
    ensures refusal { IfErr result (λ e. (e ≡ IoRefusal) ⊎ (e ≡ NoMemory) ⊎ (e ≡ Damaged)) }
    ensures chunk { area.new.chunk ≡ area.old.chunk }
    ensures contents { Keeps B.contents device.old device.new }
    ensures durable { Keeps B.durable device.old device.new }
    ensures adds { AddsOnlyNow B.Block device.old device.new }
    ensures size { Keeps B.size device.old device.new }
    ensures loud { IsAsLoud B.layers device.old device.new }
    ensures starved { IfErr result (λ e. e ≡ NoMemory → ArePartRead area.old.chunk (B.size device.old) (B.contents device.old) (B.layers device.old) (B.layers device.new)) }
    ensures layers { MatchResult result (λ _. read_pairs area.old.chunk (B.size device.old) (B.contents device.old) (B.layers device.old) ≡ all_read (B.layers device.new)) (λ e. IsEnded (read_pairs area.old.chunk (B.size device.old) (B.contents device.old) (B.layers device.old)) e (B.layers device.old) (B.layers device.new)) }
    ensures faults { MatchResult result (λ _. B.fault_count device.new ≡ B.fault_count device.old) (λ e. B.fault_count device.new ≡ faults_after e (B.fault_count device.old)) }
{
    let chunk = area.chunk;
    let size = device.sectors();
    for current in 0..size {
        let place = current * (32 * chunk as u64 + 1) + 1;
        if size < chunk as u64 * (place + 1) {
            return Err(Refusal::Damaged);
        }
        let Ok(()) = read_area(device, size, area, place) else {
            return Err(Refusal::Io);
        };
        if take_slots(area, pairs)? < 32 * chunk {
            return Ok(current);
        }
    }
    Err(Refusal::Damaged)
}

/// Takes an area's pairs up to its first empty slot, and tells how many they are.
fn take_slots(area: &Area, pairs: &mut Vec<Pair>) -> Result<u32, Refusal>
    ensures loaded { IfOk result (λ count. IsLoaded pairs.old.items pairs.new.items area.now.bytes.items (32 * area.now.chunk) count) }
    ensures refusal { IfErr result (λ e. e ≡ NoMemory) }
{
    let count = area.first_empty();
    for slot in 0..count {
        let Ok(()) = pairs.push(area.pair(slot)) else {
            return Err(Refusal::NoMemory);
        };
    }
    Ok(count)
}
