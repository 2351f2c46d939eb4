// The places of areas.
ghost use Rattle.std.specs.Prelude.{◌≡◌, ◌≤◌};
ghost use Rattle.cow_format.specs.Places.{is_area_place as is_place};

use sector::Chunk;

/// Whether a chunk of a store is the place of an area, in a store whose chunks have so many sectors.
pub fn is_area_place(chunk: u32, place: Chunk) -> bool
    requires { chunk ≤ 1024 }
    ensures { result ≡ is_place chunk place }
{
    place % (32 * chunk as u64 + 1) == 1
}
