// Table lines of the devices of a stack.
ghost use Rattle.std.specs.Prelude.{◌≡◌, ◌<◌, ◌≤◌, Some, None, Ok, Err, MatchResult, IfNone, IfSome, length};
ghost use Rattle.std.specs.Option.{option_copied};
ghost use Rattle.layers.specs.Layer.{features_of};
ghost use Rattle.layers.specs.Stack.{stack_layers};
ghost use Rattle.table.specs.declared.lines.Target.TheVariants.{Flakey as FlakeyLine};
ghost use Rattle.whole_commands.specs.Devices.{sectors_of};
ghost use Rattle.command_semantics.specs.Lines.{device_at, line_in, line_of, target_of, words_of};
ghost use Rattle.command_semantics.specs.Stacks.{device_of};

use device::Block;
use layers::{Flakey, Stack};
use sector::Refusal;
use table::{FlakeyFeatures, Line, Target};
use words::Name;

/// The features of a flakey layer, as a line has them.
fn words_of(flakey: &Flakey) -> FlakeyFeatures
    ensures { result ≡ words_of (features_of flakey.now.features) }
{
    FlakeyFeatures {
        error_reads: flakey.features.error_reads,
        error_writes: flakey.features.error_writes,
        drop_writes: flakey.features.drop_writes,
    }
}

/// What a flakey layer does, over the device of a name.
fn flakey_target(flakey: &Flakey, below: &Name) -> Target
    ensures { result ≡ FlakeyLine below.now flakey.now.offset flakey.now.up flakey.now.down (words_of (features_of flakey.now.features)) }
{
    Target::Flakey {
        device: below.copy(),
        offset: flakey.offset as u32,
        up: flakey.up,
        down: flakey.down,
        features: words_of(flakey),
    }
}

/// What the top of a stack does, over the device of a name. `BadTable` for a disk.
fn target_of(stack: &Stack, below: Option<&Name>) -> Result<Target, Refusal>
    ensures { result ≡ target_of (stack_layers stack.now) (option_copied below.entry) }
{
    match stack {
        Stack::Disk(_) => Err(Refusal::BadTable),
        Stack::Flakey(flakey, _) => match below {
            None => Err(Refusal::BadTable),
            Some(name) => Ok(flakey_target(flakey, name)),
        },
        Stack::Dust(dust, _) => match below {
            None => Err(Refusal::BadTable),
            Some(name) => Ok(Target::Dust {
                device: name.copy(),
                block: dust.block_size,
            }),
        },
        Stack::Error(_) => Ok(Target::Error),
    }
}

/// How many sectors a stack has.
#[tactic(auto, using(crate::proofs::StackSizes::size_of, crate::proofs::StackSizes::small))]
pub fn sectors_of(stack: &Stack) -> u32
    ensures { result ≡ sectors_of (device_of stack.now) }
{
    stack.sectors() as u32
}

/// The line of the top of a stack, over the device of a name. `BadTable` for a disk.
fn line_of(stack: &Stack, below: Option<&Name>) -> Result<Line, Refusal>
    ensures { result ≡ line_of (device_of stack.now) (option_copied below.entry) }
{
    match target_of(stack, below) {
        Ok(target) => Ok(Line {
            sectors: sectors_of(stack),
            target,
        }),
        Err(refusal) => Err(refusal),
    }
}

/// A stack without so many of its top layers; `None` where it has fewer.
#[tactic(auto, using(crate::proofs::Below::at_top, crate::proofs::Below::at_disk, crate::proofs::Below::at_error))]
fn layer_at(stack: &Stack, depth: usize) -> Option<&Stack>
    ensures there { IfSome result (λ s. device_at depth (Some (device_of stack.now)) ≡ Some (device_of s.now)) }
    ensures none { IfNone result (device_at depth (Some (device_of stack.now)) ≡ None) }
{
    if depth == 0 {
        return Some(stack);
    }
    match stack {
        Stack::Disk(_) | Stack::Error(_) => None,
        Stack::Flakey(_, below) => layer_at(below, depth - 1),
        Stack::Dust(_, below) => layer_at(below, depth - 1),
    }
}

/// The line of the device so deep in a stack with these names. `BadTable` for a disk.
#[tactic(auto, unfolding(command_semantics::specs::Lines::line_in))]
pub fn line_in(depth: usize, names: &[Name], stack: &Stack) -> Result<Line, Refusal>
    requires { depth < length names.now }
    ensures { result ≡ line_in depth names.now (device_of stack.now) }
{
    match layer_at(stack, depth) {
        None => Err(Refusal::BadTable),
        Some(layer) => line_of(layer, names.get(depth + 1)),
    }
}
