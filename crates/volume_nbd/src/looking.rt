// A volume is looked at between its calls.
ghost use Rattle.volume_nbd.specs.Looked.{IsLookedAt};

use device::Block;
use volume::Volume;

/// A look at a volume, which does nothing: what it keeps true between its calls, and what a stop then leaves.
pub fn look_at<B: Block>(volume: &Volume<B>)
    ensures { IsLookedAt B.may_hold B.contents B.layers B.size volume.now }
{
    volume.look();
    volume.look_at_stores();
}
