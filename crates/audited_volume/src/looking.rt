// What a new journal looks up of its volume.
ghost use Rattle.std.specs.Prelude.{◌≡◌, ◌≤◌, IfOk, length};
ghost use Rattle.plain_machine.specs.Plain.{did_overflow, may_overflow};
ghost use Rattle.volume.specs.Causes.{lives_of};
ghost use Rattle.volume.specs.Peeking.{is_loud_merging};
ghost use Rattle.volume.specs.Volumed.{is_loud_in_all};
ghost use Rattle.audited_volume.specs.Noted.{mays_of};

use layers::Layered;
use plain_machine::Overflowing;
use std::alloc::{AllocError, Global};
use volume_lifetime::LivedVolume;

/// Which snapshots are live, in order of attaching: eight at most.
pub(crate) fn lives_in<B: Layered>(
    alloc: Global,
    volume: &LivedVolume<B>,
) -> Result<Vec<bool>, AllocError>
    ensures lives { IfOk result (λ lives. lives.items ≡ lives_of volume.now) }
    ensures few { length volume.now.snaps ≤ 8 }
{
    let mut lives = Vec::new(alloc);
    for k in 0..volume.len() {
        lives.push(volume.snap(k).is_live())?;
    }
    Ok(lives)
}

/// Whether a store may still overflow.
pub fn is_may(overflow: Overflowing) -> bool
    ensures { result ≡ may_overflow overflow }
{
    match overflow {
        Overflowing::May => true,
        Overflowing::Never => false,
        Overflowing::Did => false,
    }
}

/// Whether a store overflowed.
pub(crate) fn is_marked(overflow: Overflowing) -> bool
    ensures { result ≡ did_overflow overflow }
{
    match overflow {
        Overflowing::Did => true,
        Overflowing::Never => false,
        Overflowing::May => false,
    }
}

/// Which of the snapshots' stores may still overflow, in order of attaching.
pub(crate) fn mays_in<B: Layered>(
    alloc: Global,
    volume: &LivedVolume<B>,
) -> Result<Vec<bool>, AllocError>
    ensures { IfOk result (λ may. may.items ≡ mays_of volume.now) }
{
    let mut may = Vec::new(alloc);
    for k in 0..volume.len() {
        may.push(is_may(volume.snap(k).overflow()))?;
    }
    Ok(may)
}

/// Whether no layer drops writes of the merging store, if there is one.
fn is_merge_loud<B: Layered>(volume: &LivedVolume<B>) -> bool
    ensures { result ≡ is_loud_merging B.layers volume.now.merge }
{
    let Some(number) = volume.merging() else {
        return true;
    };
    match volume.store(number) {
        Ok(device) => device.is_loud(),
        Err(_) => unreachable!(),
    }
}

/// Whether no device drops writes.
pub(crate) fn is_loud_now<B: Layered>(volume: &LivedVolume<B>) -> bool
    ensures { result ≡ is_loud_in_all B.layers volume.now }
{
    let mut loud = volume.origin().is_loud();
    for k in 0..volume.len() {
        let more = volume.snap(k).device().is_loud();
        loud = loud && more;
    }
    loud && is_merge_loud(volume)
}
