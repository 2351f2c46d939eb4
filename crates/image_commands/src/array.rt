// The array of a snapshot is written out.
ghost use Rattle.std.specs.Prelude.{◌≡◌, ℕ, ◌*◌, ◌≤◌, List, length, OnErr, OnOk, Some};
ghost use Rattle.std.specs.Io.KnownBytes.{Appends};
ghost use Rattle.cow_image.specs.Maps.{IsToldOf};
ghost use Rattle.cow_image.specs.Shown.{IsFrontOf};
ghost use Rattle.image_commands.specs.Arrays.{array_of};

use cow_image::{Stopped, Told, export, export_fresh};
use image::{Image, Sink};
use std::alloc::Global;

/// Writes the array of a snapshot of whose store this was told, for an origin of so many sectors: of a fresh one the
/// origin's bytes, of a written one the picture, of one that is refused nothing.
pub fn put_array<O: Image, C: Image, S: Sink>(
    alloc: Global,
    origin: &mut O,
    cow: &mut C,
    told: &Told,
    size: u64,
    sink: &mut S,
) -> Result<(), Stopped>
    requires { size ≤ 68_719_476_736 }
    ensures all { OnOk result ((o : List ℕ) → (b : List ℕ) → O.bytes origin.old ≡ Some o → C.bytes cow.old ≡ Some b → length o ≡ 512 * size → IsToldOf size b told.now → Appends (S.contents sink.old) (S.contents sink.new) (array_of told.now o b)) }
    ensures part { OnErr result ((o : List ℕ) → (b : List ℕ) → O.bytes origin.old ≡ Some o → C.bytes cow.old ≡ Some b → length o ≡ 512 * size → IsToldOf size b told.now → (front : List ℕ) × IsFrontOf front (array_of told.now o b) × Appends (S.contents sink.old) (S.contents sink.new) front) }
{
    match told {
        Told::Fresh => export_fresh(alloc, origin, size, sink),
        Told::Refused(_) => Ok(()),
        Told::Written(map) => export(alloc, origin, cow, map, size, sink),
    }
}
