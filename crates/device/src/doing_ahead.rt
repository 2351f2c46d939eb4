// One operation of a device is done ahead.
ghost use Rattle.std.specs.Prelude.{◌≡◌, ℕ, false, true};
ghost use Rattle.device.specs.Ahead.{IsAhead};
ghost use Rattle.device.specs.CanDoAhead.{CanDoAhead, IsWrite};
ghost use Rattle.device.specs.Layers.{fate, is_answered};
ghost use Rattle.device.specs.declared.operation.Operation.TheVariants.{Writes};

use crate::{Ahead, Operation};
use sector::Range;

/// The most sectors that are read ahead at once: those of the largest chunk.
const MOST: u32 = 1024;

/// Does an operation of a device ahead, and says whether it will be answered: reads the sectors, sees whether writes pass, or
/// syncs the file. Of a write it says so of all writes. A read of no sector, of more than 1024, or of such as the device has not is not done, and `false`.
pub fn do_ahead<B: Ahead>(device: &mut B, operation: Operation) -> bool
    ensures told { CanDoAhead (B.size device.old) operation → result ≡ is_answered (fate (B.layers device.new) operation) }
    ensures writes { (first count : ℕ) → IsWrite operation → result ≡ is_answered (fate (B.layers device.new) (Writes first count)) }
    ensures sure { CanDoAhead (B.size device.old) operation → B.unanswered device.new ≡ false → result ≡ true }
    ensures does { IsAhead B.may_hold B.contents B.layers B.size B.fault_count B.done_count device.old device.new }
{
    match operation {
        Operation::Reads(first, count) => {
            if count == 0 || MOST < count {
                return false;
            }
            let Ok(range) = Range::new(first, count, device.sectors()) else {
                return false;
            };
            device.read_ahead(range)
        }
        Operation::Writes(_, _) => device.write_ahead(),
        Operation::Flushes => device.sync_ahead(),
    }
}
