// The arrays and states that a volume has when its journal begins.
ghost use Rattle.std.specs.Prelude.{◌≡◌, ◌*◌, ◌<◌, ℕ, IfOk, List, None, length, slice_index_or, true};
ghost use Rattle.plain_machine.specs.Plain.{Entry as ShownEntry, shown_of};
ghost use Rattle.plain_machine.specs.Serves.{Shows};
ghost use Rattle.volume.specs.Submitting.{dev_refusal};
ghost use Rattle.volume.specs.Volumed.{is_loud_in_all, plain_of};
ghost use Rattle.audited_volume.specs.Books.{shown_in_base, shown_in};

use crate::array::Array;
use crate::entry::{Base, Saved};
use layers::Layered;
use plain_machine::Dev;
use sector::{Range, SECTOR_BYTES};
use std::alloc::{AllocError, Global};
use volume_lifetime::LivedVolume;

/// All that the origin or a live snapshot shows, into a buffer that is as long.
pub(crate) fn fill<B: Layered>(volume: &LivedVolume<B>, dev: Dev, out: &mut [u8])
    requires there { dev_refusal dev volume.now.merge volume.now.snaps ≡ None }
    requires room { length out.old ≡ 512 * B.size volume.now.origin }
    ensures { is_loud_in_all B.layers volume.now ≡ true → (array : List ℕ) → Shows (plain_of B.contents B.layers volume.now) dev array → out.new ≡ array }
{
    let sectors = volume.origin().sectors();
    if sectors == 0 {
        return;
    }
    let range = Range {
        first: 0,
        count: sectors as u32,
        size: sectors,
    };
    match volume.peek(dev, range, out) {
        Ok(()) => {}
        Err(_) => unreachable!(),
    }
}

/// All that the origin or a live snapshot shows.
fn whole<B: Layered>(alloc: Global, volume: &LivedVolume<B>, dev: Dev) -> Result<Array, AllocError>
    requires there { dev_refusal dev volume.now.merge volume.now.snaps ≡ None }
    ensures { IfOk result (λ bytes. is_loud_in_all B.layers volume.now ≡ true → (array : List ℕ) → Shows (plain_of B.contents B.layers volume.now) dev array → bytes ≡ array) }
{
    let bytes = volume.origin().sectors() as usize * SECTOR_BYTES;
    let mut array = vec![in alloc; 0u8; bytes]?;
    fill(volume, dev, array.as_mut_slice());
    Ok(Array::from_vec(array))
}

/// What the snapshot at a place shows: its array, or none where it is spoiled.
fn saved_at<B: Layered>(
    alloc: Global,
    volume: &LivedVolume<B>,
    k: usize,
) -> Result<Saved, AllocError>
    requires { k < length volume.now.snaps }
    ensures { IfOk result (λ s. is_loud_in_all B.layers volume.now ≡ true → (d : ShownEntry) → slice_index_or (plain_of B.contents B.layers volume.now).saved k d ≡ shown_in s) }
{
    let snap = volume.snap(k);
    let number = snap.number();
    let overflow = snap.overflow();
    if !snap.is_live() {
        return Ok(Saved {
            number,
            array: None,
            overflow,
        });
    }
    let array = whole(alloc, volume, Dev::Snap(number))?;
    Ok(Saved {
        number,
        array: Some(array),
        overflow,
    })
}

/// What a volume shows: its origin, beside a merge too, and each of its snapshots.
pub(crate) fn base_of<B: Layered>(
    alloc: Global,
    volume: &LivedVolume<B>,
) -> Result<Base, AllocError>
    ensures { IfOk result (λ b. is_loud_in_all B.layers volume.now ≡ true → shown_in_base b ≡ shown_of (plain_of B.contents B.layers volume.now)) }
{
    let mut saved = Vec::new(alloc);
    for k in 0..volume.len() {
        saved.push(saved_at(alloc, volume, k)?)?;
    }
    Ok(Base {
        origin: whole(alloc, volume, Dev::Origin)?,
        begun: volume.merging(),
        saved,
    })
}
