// Calls of a device, after which nothing is known of it but its size.
ghost use Rattle.std.specs.Prelude.{◌≡◌, ◌<◌, ◌≤◌, ◌+◌};

use crate::bytes::are_all;
use device::Block;
use sector::Range;

// Fills some sectors, four at most, with a byte. Whether that is answered.
pub(crate) fn fill<B: Block>(device: &mut B, sectors: Range, byte: u8) -> bool
    requires some { 0 < sectors.count }
    requires few { sectors.count < 5 }
    requires inside { sectors.first + sectors.count ≤ B.size device.old }
    ensures { B.size device.new ≡ B.size device.old }
{
    let written = match sectors.count {
        1 => device.write(sectors, &[byte; 512]),
        2 => device.write(sectors, &[byte; 1024]),
        3 => device.write(sectors, &[byte; 1536]),
        _ => device.write(sectors, &[byte; 2048]),
    };
    written.is_ok()
}

// Reads a sector into a buffer of nines. Whether that is answered, and whether the buffer is all of a byte then.
pub(crate) fn read<B: Block>(device: &mut B, sector: Range, byte: u8) -> (bool, bool)
    requires one { sector.count ≡ 1 }
    requires inside { sector.first + sector.count ≤ B.size device.old }
    ensures { B.size device.new ≡ B.size device.old }
{
    let mut out = [9; 512];
    let answered = device.read(sector, &mut out).is_ok();
    (answered, are_all(&out, byte))
}

// Whether a flush is answered.
pub(crate) fn flush<B: Block>(device: &mut B) -> bool
    ensures { B.size device.new ≡ B.size device.old }
{
    device.flush().is_ok()
}
