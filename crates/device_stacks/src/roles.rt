// What a name is among the snapshots of a volume and their stores, and how many devices these are.
ghost use Rattle.std.specs.Prelude.{◌≡◌, ◌<◌, ◌-◌, IfSome, length, position, sum_by};
ghost use Rattle.std.specs.Str.{bytes_eq};
ghost use Rattle.command_semantics.specs.Disks.{devices_merging, devices_under};
ghost use Rattle.command_semantics.specs.Places.{IsRoleAmong, IsRoleMerging, is_among, role_among, role_merging, store_among};

use crate::SnapNames;
use command_semantics::Role;
use words::Name;

fn snapshot_of(snaps: &[SnapNames], name: &Name) -> Option<usize>
    ensures place { result ≡ position (λ n. bytes_eq n.snapshot name.now) snaps.now }
    ensures within { IfSome result (λ k. k < length snaps.now) }
{
    snaps.iter().position(|names| names.is_snapshot(name))
}

fn store_of(snaps: &[SnapNames], name: &Name) -> Option<usize>
    ensures place { result ≡ position (λ n. is_among name.now n.store) snaps.now }
    ensures within { IfSome result (λ k. k < length snaps.now) }
{
    snaps.iter().position(|names| names.depth(name).is_some())
}

/// What a name is among the stores.
#[tactic(auto, unfolding(command_semantics::specs::Places::store_among))]
fn store_among(snaps: &[SnapNames], name: &Name) -> Option<Role>
    ensures role { result ≡ store_among name.now snaps.now }
    ensures within { IfSome result (λ role. IsRoleAmong role snaps.now) }
{
    match store_of(snaps, name) {
        None => None,
        Some(k) => match snaps[k].depth(name) {
            None => None,
            Some(depth) => Some(Role::Store(k, depth)),
        },
    }
}

/// What a name is among the snapshots and their stores.
#[tactic(auto, unfolding(command_semantics::specs::Places::role_among))]
pub fn role_among(snaps: &[SnapNames], name: &Name) -> Option<Role>
    ensures role { result ≡ role_among name.now snaps.now }
    ensures within { IfSome result (λ role. IsRoleAmong role snaps.now) }
{
    match snapshot_of(snaps, name) {
        Some(k) => Some(Role::Snapshot(k)),
        None => store_among(snaps, name),
    }
}

/// What a name is of the snapshot that is being merged and its store.
#[tactic(auto, unfolding(command_semantics::specs::Places::role_merging))]
pub fn role_merging(merging: &Option<SnapNames>, name: &Name) -> Option<Role>
    ensures role { result ≡ role_merging name.now merging.now }
    ensures within { IfSome result (λ role. IsRoleMerging role merging.now) }
{
    match merging {
        None => None,
        Some(names) => {
            if names.is_snapshot(name) {
                return Some(Role::Merging);
            }
            match names.depth(name) {
                None => None,
                Some(depth) => Some(Role::MergingStore(depth)),
            }
        }
    }
}

/// What is left of so many devices, those of the snapshot that is being merged taken away.
pub fn without_merging(merging: &Option<SnapNames>, most: usize) -> usize
    ensures { result ≡ most - devices_merging merging.now }
{
    match merging {
        None => most,
        Some(names) => most.saturating_sub(1).saturating_sub(names.devices()),
    }
}

/// What is left of so many devices, those of some snapshots and their stores taken away.
pub fn left_after(snaps: &[SnapNames], most: usize) -> usize
    ensures { result ≡ most - sum_by devices_under snaps.now }
{
    let mut left = most;
    for names in snaps {
        left = left.saturating_sub(1).saturating_sub(names.devices());
    }
    left
}
