// What is told of the devices behind a line: what is in flight in each volume, how far its merge is and which events are due, and what
// layers are at that may fail.
ghost use Rattle.std.specs.Prelude.{IfOk, map};
ghost use Rattle.device_list.specs.Tables.{table_of};
ghost use Rattle.script_runner.specs.Traced.{AreTraced, IsTrace};

use device_list::{Devices, NamedVolume, trace_layers};
use std::alloc::{AllocError, Global};

/// The lines of volumes, one for each in which something is in flight, lost, being merged or due. An error says that the allocator
/// refused room.
fn traced_volumes(alloc: Global, volumes: &[NamedVolume]) -> Result<Vec<u8>, AllocError>
    ensures { IfOk result (λ page. AreTraced page.items (map (λ v. v.shown) volumes.now)) }
{
    let mut page = Vec::new(alloc);
    for volume in volumes {
        let text = volume.trace(alloc)?;
        page.extend_from_slice(text.as_slice())?;
    }
    Ok(page)
}

/// The lines of a trace: those of volumes, and then those of layers that may fail. An error says that the allocator refused room.
pub fn traced(alloc: Global, held: &Devices) -> Result<Vec<u8>, AllocError>
    ensures { IfOk result (λ page. IsTrace page.items (table_of held.now)) }
{
    let mut page = traced_volumes(alloc, &held.volumes)?;
    trace_layers(&mut page, held)?;
    Ok(page)
}
