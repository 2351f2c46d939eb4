// The pairs of a snapshot, as `map` tells them.
ghost use Rattle.std.specs.Prelude.{◌≡◌, ◌<◌, ◌++◌, List, true, None, length, get_or, IfOk, OnOk};
ghost use Rattle.sector.specs.declared.pair.Pair.{Pair as AnyPair};
ghost use Rattle.words.specs.Given.{Gives};
ghost use Rattle.cow_format.specs.Picture.{place_of as place_in};
ghost use Rattle.snapshot.specs.Kept.{Kept};
ghost use Rattle.table.specs.Runs.{pair_at, pairs_from, runs_after};
ghost use Rattle.layers.specs.declared.stack.Stack.{Stack as AnyStack};
ghost use Rattle.volume.specs.Volumed.{Volumed};
ghost use Rattle.volume_commands.specs.Flying.{IsWhole};
ghost use Rattle.command_semantics.specs.Places.{IsRoleIn};
ghost use Rattle.command_semantics.specs.Mapping.{chunks_in, map_at_place, map_in, pairs_text};
ghost use Rattle.device_list.specs.Flights.{IsBehind};
ghost use Rattle.device_list.specs.Mapping.{IsMapOf, kept_map, map_behind};

use crate::origin::NamedVolume;
use command_semantics::Role;
use device_stacks::sectors_of;
use layers::Stack;
use sector::{Pair, Refusal};
use snapshot::Snapshot;
use std::alloc::{AllocError, Global};
use table::{Run, end_runs, take_pair};
use volume_commands::Resting;
use words::Text;

/// How many chunks of so many sectors an origin has, the last of which may be short.
fn chunks_of(chunk: u32, sectors: u32) -> u32
    requires { 0 < chunk }
    ensures { result ≡ chunks_in chunk sectors }
{
    sectors.div_ceil(chunk)
}

/// Takes the pair of a chunk of the origin, if it has one.
#[tactic(auto, using(crate::proofs::Mapped::none_taken, crate::proofs::Mapped::some_taken))]
fn take_chunk(
    out: &mut Vec<u8>,
    run: &mut Option<Run>,
    snap: &Snapshot<Stack>,
    chunk: u32,
) -> Result<(), AllocError>
    ensures { OnOk result ((rest : List AnyPair) → out.new.items ++ runs_after run.new rest ≡ out.old.items ++ runs_after run.old (pair_at chunk (place_in snap.now.pairs chunk) ++ rest)) }
{
    let old = u64::from(chunk);
    match snap.place_of(old) {
        Some(new) => take_pair(out, run, Pair { old, new }),
        None => Ok(()),
    }
}

/// Adds the pairs of a snapshot, in the order of the origin's chunks, of which there are so many.
#[tactic(auto, using(crate::proofs::Mapped::next_chunk, crate::proofs::Mapped::no_more))]
fn add_pairs(out: &mut Vec<u8>, snap: &Snapshot<Stack>, chunks: u32) -> Result<(), AllocError>
    ensures { OnOk result (out.new.items ≡ out.old.items ++ runs_after None (pairs_from (place_in snap.now.pairs) 0 chunks)) }
{
    let mut run = None;
    for chunk in 0..chunks {
        take_chunk(out, &mut run, snap, chunk)?;
    }
    end_runs(out, run)
}

/// The pairs of a snapshot of an origin of so many sectors.
#[tactic(auto, unfolding(command_semantics::specs::Mapping::pairs_text))]
fn pairs_told(alloc: Global, snap: &Snapshot<Stack>, sectors: u32) -> Result<Text, AllocError>
    ensures { IfOk result (λ text. text ≡ pairs_text sectors snap.now.state.chunk snap.now.pairs) }
{
    let mut out = Vec::new(alloc);
    out.extend_from_slice(b"pairs")?;
    add_pairs(&mut out, snap, chunks_of(snap.chunk(), sectors))?;
    Ok(Text::from_vec(out))
}

/// What is told of a snapshot: `Invalid` where it is spoiled, `NoMemory` where the allocator refuses room.
#[tactic(auto, using(crate::proofs::Mapped::dead_told, crate::proofs::Mapped::live_told))]
fn map_of(alloc: Global, snap: &Snapshot<Stack>, sectors: u32) -> Result<Text, Refusal>
    ensures { Gives result (kept_map sectors snap.now) }
{
    if !snap.is_live() {
        return Err(Refusal::Invalid);
    }
    match pairs_told(alloc, snap, sectors) {
        Ok(text) => Ok(text),
        Err(_) => Err(Refusal::NoMemory),
    }
}

/// The snapshot at a place.
#[tactic(auto, using(crate::proofs::Mapped::within_events))]
fn snap_at(volume: &Resting<Stack>, k: usize) -> &Snapshot<Stack>
    requires { k < length volume.now.rested.snaps }
    ensures is { (d : Kept AnyStack) → result.now ≡ get_or volume.now.rested.events.snaps k d }
    ensures whole { IsWhole volume.now.rested }
{
    &volume.snaps()[k]
}

impl NamedVolume {
    /// The pairs of the snapshot at a place.
    fn map_snapshot(&self, alloc: Global, k: usize) -> Result<Text, Refusal>
        requires { k < length self.now.shown.snaps }
        ensures done { self.now.shown.sound ≡ true → Gives result (map_at_place k self.now.shown) }
        ensures held { (events : Volumed AnyStack) × IsBehind events self.now.shown × Gives result (map_behind k self.now.shown events) }
    {
        let snap = snap_at(&self.volume, k);
        // A look: what its store's bytes say is what is in memory.
        snap.look_at_store();
        map_of(alloc, snap, sectors_of(self.volume.origin()))
    }

    /// The pairs of the snapshot of this role, by what is in memory of it. In this order: `BadTable` for another device,
    /// `MergingSnapshot` for one that is being merged, `Invalid` for one that is spoiled, `NoMemory` where the allocator refuses room.
    #[inline(never)]
    pub fn map(&self, alloc: Global, role: Role) -> Result<Text, Refusal>
        requires { IsRoleIn role self.now.shown }
        ensures done { self.now.shown.sound ≡ true → Gives result (map_in role self.now.shown) }
        ensures held { IsMapOf result role self.now.shown }
    {
        match role {
            Role::Snapshot(k) => self.map_snapshot(alloc, k),
            Role::Merging => Err(Refusal::MergingSnapshot),
            Role::Origin | Role::Under(_) | Role::Store(_, _) | Role::MergingStore(_) => Err(
                Refusal::BadTable,
            ),
        }
    }
}
