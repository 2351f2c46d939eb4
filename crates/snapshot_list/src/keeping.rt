// The snapshots keep back what a merge will start in them, and let go of it.
ghost use Rattle.std.specs.Prelude.{◌≡◌, IfErr, OnErr, OnOk, map};
ghost use Rattle.sector.specs.declared.refusal.Refusal.TheVariants.{NoMemory};
ghost use Rattle.snapshot_list.specs.Keeping.{kept_for, unkept};

use device::Block;
use plain_machine::SnapId;
use sector::{Refusal, SECTOR_BYTES};
use snapshot::Snapshot;
use std::alloc::Global;

/// Keeps room back in a snapshot for the copies that a merge of so many pairs will start, in chunks of so many sectors, with
/// the buffer of a chunk of its own, if it is live and another one than the merged. `NoMemory` where that is refused, and then
/// nothing changed.
fn keep_back_in<B: Block>(
    alloc: Global,
    snap: &mut Snapshot<B>,
    number: SnapId,
    count: usize,
    chunk: u32,
) -> Result<(), Refusal>
    ensures ok { OnOk result (snap.new ≡ kept_for number count chunk snap.old) }
    ensures err { OnErr result (snap.new ≡ snap.old) }
    ensures refusal { IfErr result (λ e. e ≡ NoMemory) }
{
    if !snap.is_live() || snap.number() == number {
        return Ok(());
    }
    let Ok(buffer) = Vec::with_capacity(alloc, SECTOR_BYTES * snap.chunk() as usize) else {
        return Err(Refusal::NoMemory);
    };
    let Some(copies) = count.checked_mul((chunk / snap.chunk()).max(1) as usize) else {
        return Err(Refusal::NoMemory);
    };
    snap.keep_back(copies, buffer)
}

/// The same in each snapshot, in their order. Where memory is refused, those before keep back what they do.
fn keep_back_each<B: Block>(
    alloc: Global,
    snaps: &mut [Snapshot<B>],
    number: SnapId,
    count: usize,
    chunk: u32,
) -> Result<(), Refusal>
    ensures ok { OnOk result (snaps.new ≡ map (kept_for number count chunk) snaps.old) }
    ensures same { map unkept snaps.new ≡ map unkept snaps.old }
    ensures refusal { IfErr result (λ e. e ≡ NoMemory) }
{
    for snap in snaps.iter_mut() {
        match keep_back_in(alloc, snap, number, count, chunk) {
            Ok(()) => {}
            Err(refusal) => return Err(refusal),
        }
    }
    Ok(())
}

/// Keeps room back in each live snapshot but the one with a number, which is merged: for the copies that the merge of so many
/// pairs will start, in chunks of so many sectors, and the buffer of a chunk. `NoMemory` where that is refused, and then none
/// keeps anything back.
pub fn keep_back_all<B: Block>(
    alloc: Global,
    snaps: &mut [Snapshot<B>],
    number: SnapId,
    count: usize,
    chunk: u32,
) -> Result<(), Refusal>
    ensures ok { OnOk result (snaps.new ≡ map (kept_for number count chunk) snaps.old) }
    ensures err { OnErr result (snaps.new ≡ map unkept snaps.old) }
    ensures refusal { IfErr result (λ e. e ≡ NoMemory) }
{
    match keep_back_each(alloc, snaps, number, count, chunk) {
        Ok(()) => Ok(()),
        Err(refusal) => {
            let_go_all(snaps);
            Err(refusal)
        }
    }
}

/// Lets each snapshot keep nothing back from then on.
pub fn let_go_all<B: Block>(snaps: &mut [Snapshot<B>])
    ensures { snaps.new ≡ map unkept snaps.old }
{
    for snap in snaps.iter_mut() {
        snap.let_go();
    }
}
