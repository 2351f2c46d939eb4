// Texts and words as they are written.
ghost use Rattle.std.specs.Prelude.{◌++◌, OnOk};
ghost use Rattle.std.specs.Io.KnownBytes.{Appends};
ghost use Rattle.explain_syntax.specs.Sentences.{shown};

use std::io;
use std::io::Write;

/// No more bytes of a word are shown.
const SHOWN: usize = 40;

/// Writes two texts, one after the other. The one error is the writer's own.
#[tactic(auto, using(words::proofs::Written::appends_more))]
pub fn put_two<W: Write>(writer: &mut W, one: &[u8], two: &[u8]) -> io::Result<()>
    ensures { OnOk result (Appends (W.contents writer.old) (W.contents writer.new) (one.now ++ two.now)) }
{
    writer.write_all(one)?;
    writer.write_all(two)
}

/// Writes three texts, one after the other. The one error is the writer's own.
#[tactic(auto, using(words::proofs::Written::appends_more))]
pub fn put_three<W: Write>(writer: &mut W, one: &[u8], two: &[u8], three: &[u8]) -> io::Result<()>
    ensures { OnOk result (Appends (W.contents writer.old) (W.contents writer.new) (one.now ++ two.now ++ three.now)) }
{
    writer.write_all(one)?;
    put_two(writer, two, three)
}

/// Writes four texts, one after the other. The one error is the writer's own.
#[tactic(auto, using(words::proofs::Written::appends_more))]
pub fn put_four<W: Write>(
    writer: &mut W,
    one: &[u8],
    two: &[u8],
    three: &[u8],
    four: &[u8],
) -> io::Result<()>
    ensures { OnOk result (Appends (W.contents writer.old) (W.contents writer.new) (one.now ++ two.now ++ three.now ++ four.now)) }
{
    writer.write_all(one)?;
    put_three(writer, two, three, four)
}

/// Writes a word, its front alone where it is long. The one error is the writer's own.
#[tactic(auto, unfolding(crate::specs::Sentences::shown))]
pub fn put_word<W: Write>(writer: &mut W, word: &[u8]) -> io::Result<()>
    ensures { OnOk result (Appends (W.contents writer.old) (W.contents writer.new) (shown word.now)) }
{
    if word.len() > SHOWN {
        put_two(writer, &word[..SHOWN], b"..")
    } else {
        writer.write_all(word)
    }
}
