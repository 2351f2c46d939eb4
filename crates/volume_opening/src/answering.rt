// Whether a volume's files answered all that was asked of them.
ghost use Rattle.std.specs.Prelude.{◌≡◌, false, OnOk};
ghost use Rattle.std.specs.List.{All};

use crate::NotOpened;
use device::Ahead;
use volume::Volume;

/// Sees that no file left a write or a sync unanswered that was answered here.
pub fn are_answered<B: Ahead>(volume: &Volume<B>) -> Result<(), NotOpened>
    ensures origin { OnOk result (B.failed volume.now.origin ≡ false) }
    ensures stores { OnOk result (All (λ s. B.failed s.device ≡ false) volume.now.snaps) }
{
    if volume.origin().is_failed() {
        return Err(NotOpened::OriginFailed);
    }
    for snap in volume.snaps() {
        if snap.device().is_failed() {
            return Err(NotOpened::StoreFailed);
        }
    }
    Ok(())
}
