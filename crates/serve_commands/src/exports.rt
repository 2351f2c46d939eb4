// The exports of a volume.
ghost use Rattle.std.specs.Prelude.{◌≡◌, ◌∷◌, ◌*◌, IfOk, [], codes, map};
ghost use Rattle.plain_machine.specs.declared.request.Dev.TheVariants.{Origin, Snap};
ghost use Rattle.serve_options.specs.Exports.{last_part};

use device::Block;
use serve_files::{Device, Exports, Trouble, device_name};
use std::alloc::Global;
use volume::Volume;

/// The exports of an origin and of its snapshots, each named by the file of its own store.
pub fn exports_of<'a>(
    alloc: Global,
    volume: &Volume<Device<'a>>,
) -> Result<Exports<'a>, Trouble<'a>>
    ensures names { IfOk result (λ exports. map (λ export. export.name.now) exports.named.items ≡ codes "origin" ∷ map (λ snap. last_part [] snap.device.file.name.now) volume.now.snaps) }
    ensures devices { IfOk result (λ exports. exports.devices.items ≡ Origin ∷ map (λ snap. Snap snap.number) volume.now.snaps) }
    ensures size { IfOk result (λ exports. exports.size ≡ 512 * volume.now.origin.sectors) }
{
    let origin = volume.origin();
    let mut exports = Exports::new(alloc, device_name(origin), 512 * origin.sectors())?;
    let snaps = volume.snaps();
    for snap in snaps {
        exports.add(device_name(snap.device()), snap.number())?;
    }
    Ok(exports)
}
