// Messages to the layers of one stack.
ghost use Rattle.std.specs.Prelude.{◌≡◌};
ghost use Rattle.command_semantics.specs.Changes.{Steps};
ghost use Rattle.command_semantics.specs.Messages.{told_in};
ghost use Rattle.command_semantics.specs.Stacks.{device_of};

use layers::{Answer, Layered, Message, Stack};
use sector::Refusal;

/// Tells the layer so deep from the top of a stack. In this order: `BadTable` where that is no dust layer, `OutOfRange` for
/// a block past its end, `NoMemory` where a block is added and the allocator refuses room.
#[tactic(auto, unfolding(command_semantics::specs::Messages::told_in))]
pub fn tell_stack(stack: &mut Stack, depth: usize, message: &Message) -> Result<Answer, Refusal>
    ensures { Steps result (device_of stack.old) (device_of stack.new) (told_in (device_of stack.old) depth message.now) }
{
    match stack.message(depth, message) {
        Ok(answer) => Ok(answer),
        Err(refusal) => Err(refusal),
    }
}
