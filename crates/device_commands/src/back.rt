// What was taken out of a list goes back to its place.
ghost use Rattle.std.specs.Prelude.{◌≡◌, ◌<◌, ◌≤◌, length, vec_len, vec_capacity};
ghost use Rattle.std.specs.List.{insert};

use device_list::NamedVolume;
use device_stacks::NamedStack;

/// A stack goes back to the place from which it was taken.
pub fn put_stack_back(stacks: &mut Vec<NamedStack>, i: usize, stack: NamedStack)
    requires place { i ≤ length stacks.old.items }
    requires room { vec_len stacks.old < vec_capacity stacks.old }
    ensures { stacks.new.items ≡ insert stacks.old.items i stack }
{
    stacks.insert(i, stack).unwrap();
}

/// A volume goes back to the place from which it was taken.
pub fn put_volume_back(volumes: &mut Vec<NamedVolume>, v: usize, volume: NamedVolume)
    requires place { v ≤ length volumes.old.items }
    requires room { vec_len volumes.old < vec_capacity volumes.old }
    ensures { volumes.new.items ≡ insert volumes.old.items v volume }
{
    volumes.insert(v, volume).unwrap();
}
