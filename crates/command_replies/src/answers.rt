// Replies to messages.
ghost use Rattle.std.specs.Prelude.{◌≡◌, ◌≢◌, IfOk, IfErr};
ghost use Rattle.layers.specs.declared.message.Answer.TheVariants as answers;
ghost use Rattle.command_replies.specs.declared.command_reply.CommandReply.TheVariants.{Said};
ghost use Rattle.command_replies.specs.Answers.{reply_to};

use crate::command_reply::CommandReply;
use itoa::Buffer;
use layers::Answer;
use std::alloc::{AllocError, Global};
use words::Text;

/// A reply that says a text.
fn saying(alloc: Global, text: &[u8]) -> Result<CommandReply, AllocError>
    ensures { IfOk result (λ reply. reply ≡ Said text.now) }
{
    Ok(CommandReply::Said(Text::from_slice(alloc, text)?))
}

impl CommandReply {
    /// The reply to a message, by the answer of the layer that it was for. An error says that the allocator refused
    /// memory for its text; `Done` has none.
    pub fn to_message(alloc: Global, answer: Answer) -> Result<CommandReply, AllocError>
        ensures reply { IfOk result (λ reply. reply ≡ reply_to answer) }
        ensures text { IfErr result (λ _. answer ≢ answers.Done) }
    {
        match answer {
            Answer::Done => Ok(CommandReply::Done),
            Answer::Already => saying(alloc, b"already"),
            Answer::Absent => saying(alloc, b"absent"),
            Answer::Bad => saying(alloc, b"bad"),
            Answer::Good => saying(alloc, b"good"),
            Answer::Count(blocks) => saying(alloc, Buffer::new().format(blocks).as_bytes()),
        }
    }
}
