// Messages to layers.
ghost use Rattle.std.specs.Prelude.{◌≡◌, [], ◌∷◌};
ghost use Rattle.words.specs.Words.{words_of};
ghost use Rattle.command.specs.Messages.{bare_of, about_number_of, message_in};

use layers::Message;
use sector::Refusal;
use words::{next_word, numeral};

// A message that is one word.
fn bare(kind: &[u8]) -> Result<Message, Refusal>
    ensures { result ≡ bare_of kind.now }
{
    if kind == b"countbadblocks".as_slice() {
        Ok(Message::CountBadBlocks)
    } else if kind == b"clearbadblocks".as_slice() {
        Ok(Message::ClearBadBlocks)
    } else if kind == b"enable".as_slice() {
        Ok(Message::Enable)
    } else if kind == b"disable".as_slice() {
        Ok(Message::Disable)
    } else {
        Err(Refusal::BadTable)
    }
}

// A message about a block, or of some seconds.
fn about_number(kind: &[u8], number: u32) -> Result<Message, Refusal>
    ensures { result ≡ about_number_of kind.now number }
{
    if kind == b"addbadblock".as_slice() {
        Ok(Message::AddBadBlock(u64::from(number)))
    } else if kind == b"removebadblock".as_slice() {
        Ok(Message::RemoveBadBlock(u64::from(number)))
    } else if kind == b"queryblock".as_slice() {
        Ok(Message::QueryBlock(u64::from(number)))
    } else if kind == b"tick".as_slice() {
        Ok(Message::Tick(number))
    } else {
        Err(Refusal::BadTable)
    }
}

// A message of two words, the second a number.
fn about(kind: &[u8], number: &[u8]) -> Result<Message, Refusal>
    ensures { result ≡ message_in (kind.now ∷ number.now ∷ []) }
{
    let number = numeral(number)?;
    about_number(kind, number)
}

/// The message that the words of a text say. `BadTable` for words that are none.
pub fn message_in(text: &[u8]) -> Result<Message, Refusal>
    ensures { result ≡ message_in (words_of text.now) }
{
    let Some((kind, rest)) = next_word(text) else {
        return Err(Refusal::BadTable);
    };
    let Some((number, rest)) = next_word(rest) else {
        return bare(kind);
    };
    if next_word(rest).is_some() {
        return Err(Refusal::BadTable);
    }
    about(kind, number)
}
