// The disk at the bottom of a stack.
ghost use Rattle.std.specs.Prelude.{◌≡◌, ◌<◌, length, MatchResult, Ok, Err};
ghost use Rattle.device.specs.Disk.{disk_contents};
ghost use Rattle.command_semantics.specs.Raw.{raw_in};
ghost use Rattle.command_semantics.specs.Stacks.{device_of};

use device::MemDisk;
use layers::Stack;
use sector::Refusal;
use words::Name;

/// The disk so deep in a stack with these names. `BadTable` for another device.
#[tactic(auto, using(crate::proofs::DiskBelow::raw_there, crate::proofs::DiskBelow::raw_none), unfolding(command_semantics::specs::Raw::raw_in))]
pub fn disk_in<'a>(depth: usize, names: &[Name], stack: &'a Stack) -> Result<&'a MemDisk, Refusal>
    requires { depth < length names.now }
    ensures { MatchResult result (λ disk. raw_in depth names.now (device_of stack.now) ≡ Ok (disk_contents disk.now)) (λ e. raw_in depth names.now (device_of stack.now) ≡ Err e) }
{
    if depth + 1 != names.len() {
        return Err(Refusal::BadTable);
    }
    match stack.disk() {
        Some(disk) => Ok(disk),
        None => Err(Refusal::BadTable),
    }
}
