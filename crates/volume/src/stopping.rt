// A machine stops: its volume ends, and the devices are left.
ghost use Rattle.std.specs.Prelude.{◌≡◌, ◌∷◌, IfNone, IfSome, None, [], true};
ghost use Rattle.volume.specs.Stopped.{devices_of, is_merge_next};
ghost use Rattle.volume.specs.Stopping.{StopsVolume};
ghost use Rattle.volume.specs.Volumed.{is_loud_in_all};

use crate::Volume;
use device::Block;
use merge::Merge;
use snapshot::Snapshot;
use std::marker::Model;

/// The devices of a volume that was stopped, which are left to take: the origin's, and then the stores' in order of attaching,
/// that of a snapshot that was being merged among them.
#[derive(Drop)]
pub struct Stopped<B: Block> {
    origin: Option<B>,
    snaps: Vec<Snapshot<B>>,
    merge: Option<Merge<B>>,
}

impl<B: Block> Model for Stopped<B> {
    ghost use Rattle.std.specs.Prelude.{List};

    ghost Value = { List B };

    ghost use Rattle.volume.specs.Stopped.{devices_left};

    ghost view = { λ s. devices_left s.origin s.snaps.items s.merge };
}

/// Whether the store of a merge comes before those of the snapshots.
fn comes_next<B: Block>(merge: &Option<Merge<B>>, snaps: &[Snapshot<B>]) -> bool
    ensures { result ≡ is_merge_next snaps.now merge.now }
{
    let Some(merge) = merge else {
        return false;
    };
    match snaps {
        [] => true,
        [first, ..] => merge.number() < first.number(),
    }
}

impl<B: Block + Drop> Stopped<B> {
    /// The next device, as it is.
    pub fn take(&mut self) -> Option<B>
        ensures some { IfSome result (λ device. self.old ≡ device ∷ self.new) }
        ensures none { IfNone result ((self.old ≡ []) × (self.new ≡ [])) }
    {
        if let Some(origin) = self.origin.take() {
            return Some(origin);
        }
        if comes_next(&self.merge, self.snaps.as_slice()) {
            return match self.merge.take() {
                Some(merge) => Some(merge.into_device()),
                None => unreachable!(),
            };
        }
        if self.snaps.is_empty() {
            None
        } else {
            Some(self.snaps.remove(0).into_device())
        }
    }
}

impl<B: Block> Volume<B> {
    /// Ends a volume without a further event, whatever is in flight, as a machine does that stops: what is left are its
    /// devices, as they are. Where none drops writes, and whatever of what was written since a device's last flush is lost,
    /// each live snapshot's store and the origin are loaded again with their arrays, up to values that are open in them.
    pub fn stop(self) -> Stopped<B>
        ensures devices { result ≡ devices_of self }
        ensures stops { is_loud_in_all B.layers self ≡ true → StopsVolume B.may_hold B.size None self self }
    {
        self.look_at_stores();
        let Volume {
            origin,
            snaps,
            merge,
            flights: _,
            rooms: _,
            last: _,
            requests: _,
            copies: _,
            attached: _,
        } = self;
        Stopped {
            origin: Some(origin),
            snaps,
            merge,
        }
    }
}
