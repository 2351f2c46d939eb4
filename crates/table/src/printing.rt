// Table lines printed.
ghost use Rattle.std.specs.Prelude.{◌≡◌, ◌+◌, ◌<◌, ◌∷◌, [], ◌++◌, codes, decimal, length, true, OnOk, IfErr, OnErr, vec_len, vec_capacity};
ghost use Rattle.sector.specs.declared.refusal.Refusal.TheVariants.{NoMemory};
ghost use Rattle.table.specs.Grammar.{line_of};
ghost use Rattle.table.specs.Lawful.{is_line};
ghost use Rattle.words.specs.Texts.{texts};
ghost use Rattle.words.specs.Words.{spaced};
ghost use Rattle.table.specs.Printed.{word_if, feature_words, counted, overflow_word, target_words, text_of, Adds};

use crate::{FlakeyFeatures, Line, Target};
use itoa::Buffer;
use sector::Refusal;
use std::alloc::AllocError;
use words::Name;

// Adds some text.
fn add(out: &mut Vec<u8>, text: &[u8]) -> Result<(), AllocError>
    ensures { Adds result out.old out.new text.now }
{
    out.extend_from_slice(text)
}

// Adds a space and a word.
#[tactic(auto, using(crate::proofs::Added::adds_more, crate::proofs::Added::adds_less))]
fn add_word(out: &mut Vec<u8>, word: &[u8]) -> Result<(), AllocError>
    ensures { Adds result out.old out.new (codes " " ++ word.now) }
{
    add(out, b" ")?;
    add(out, word)
}

// Adds some words, a space before each.
fn add_words(out: &mut Vec<u8>, words: &[&[u8]]) -> Result<(), AllocError>
    ensures { Adds result out.old out.new (spaced (texts words.now)) }
{
    for word in words {
        add_word(out, word)?;
    }
    Ok(())
}

// Adds a number as a word.
fn add_number(out: &mut Vec<u8>, number: u32) -> Result<(), AllocError>
    ensures { Adds result out.old out.new (spaced (decimal number ∷ [])) }
{
    let mut buffer = Buffer::new();
    add_words(out, &[buffer.format(number).as_bytes()])
}

// Adds the words of a snapshot or a merge.
fn add_store<'a>(
    out: &mut Vec<u8>,
    kind: &'a [u8],
    device: &'a Name,
    store: &'a Name,
    chunk: u32,
    overflow: bool,
) -> Result<(), AllocError>
    ensures { Adds result out.old out.new (spaced (kind.now ∷ device.now ∷ store.now ∷ overflow_word overflow ∷ decimal chunk ∷ [])) }
{
    let mut buffer = Buffer::new();
    let chunk = buffer.format(chunk).as_bytes();
    let persistent = if overflow {
        b"PO".as_slice()
    } else {
        b"P".as_slice()
    };
    add_words(
        out,
        &[kind, device.as_slice(), store.as_slice(), persistent, chunk],
    )
}

// Adds a word where it is wanted.
fn add_word_if(out: &mut Vec<u8>, wanted: bool, word: &[u8]) -> Result<(), AllocError>
    ensures { Adds result out.old out.new (spaced (word_if wanted word.now)) }
{
    if wanted {
        add_words(out, &[word])
    } else {
        Ok(())
    }
}

// How many features there are.
fn feature_count(features: FlakeyFeatures) -> u32
    ensures { result ≡ length (feature_words features) }
{
    u32::from(features.error_reads)
        + u32::from(features.error_writes)
        + u32::from(features.drop_writes)
}

// Adds the count of the features and the features, where there are any.
fn add_features(out: &mut Vec<u8>, features: FlakeyFeatures) -> Result<(), AllocError>
    ensures { Adds result out.old out.new (spaced (counted (feature_words features))) }
{
    let count = feature_count(features);
    if count == 0 {
        return Ok(());
    }
    add_number(out, count)?;
    add_word_if(out, features.error_reads, b"error_reads")?;
    add_word_if(out, features.error_writes, b"error_writes")?;
    add_word_if(out, features.drop_writes, b"drop_writes")
}

// Adds the words of a flakey device.
fn add_flakey(
    out: &mut Vec<u8>,
    device: &Name,
    offset: u32,
    up: u32,
    down: u32,
) -> Result<(), AllocError>
    ensures { Adds result out.old out.new (spaced (codes "flakey" ∷ device.now ∷ decimal offset ∷ decimal up ∷ decimal down ∷ [])) }
{
    let mut offset_buffer = Buffer::new();
    let mut up_buffer = Buffer::new();
    let mut down_buffer = Buffer::new();
    let offset = offset_buffer.format(offset).as_bytes();
    let up = up_buffer.format(up).as_bytes();
    let down = down_buffer.format(down).as_bytes();
    add_words(
        out,
        &[b"flakey".as_slice(), device.as_slice(), offset, up, down],
    )
}

// Adds the words of a dust device.
fn add_dust(out: &mut Vec<u8>, device: &Name, block: u32) -> Result<(), AllocError>
    ensures { Adds result out.old out.new (spaced (codes "dust" ∷ device.now ∷ codes "0" ∷ decimal block ∷ [])) }
{
    let mut buffer = Buffer::new();
    let block = buffer.format(block).as_bytes();
    add_words(
        out,
        &[
            b"dust".as_slice(),
            device.as_slice(),
            b"0".as_slice(),
            block,
        ],
    )
}

// Adds the name of a target and its parameters.
#[tactic(auto, using(crate::proofs::Added::words_more, crate::proofs::Added::words_less))]
fn add_target(out: &mut Vec<u8>, target: &Target) -> Result<(), AllocError>
    ensures { Adds result out.old out.new (spaced (target_words target.now)) }
{
    match target {
        Target::Origin { device } => add_words(
            out,
            &[b"snapshot-origin".as_slice(), device.as_slice()],
        ),
        Target::Snapshot {
            device,
            store,
            chunk,
            overflow,
        } => add_store(out, b"snapshot", device, store, *chunk, *overflow),
        Target::Merge {
            device,
            store,
            chunk,
            overflow,
        } => add_store(out, b"snapshot-merge", device, store, *chunk, *overflow),
        Target::Flakey {
            device,
            offset,
            up,
            down,
            features,
        } => {
            add_flakey(out, device, *offset, *up, *down)?;
            add_features(out, *features)
        }
        Target::Dust { device, block } => add_dust(out, device, *block),
        Target::Error => add_words(out, &[b"error".as_slice()]),
    }
}

// Adds the text of a line.
#[tactic(auto, using(crate::proofs::Added::adds_more, crate::proofs::Added::adds_less, crate::proofs::Added::words_more, crate::proofs::Added::words_less))]
fn add_line(out: &mut Vec<u8>, line: &Line) -> Result<(), AllocError>
    ensures { Adds result out.old out.new (text_of line.now) }
{
    add(out, b"0")?;
    add_number(out, line.sectors)?;
    add_target(out, &line.target)
}

/// Adds the text of a line to a vector: words with single spaces between them, without a line end. Where the
/// allocator refused memory the answer is `NoMemory`, and the vector holds what it held.
#[tactic(auto, using(crate::proofs::Again::reads_again))]
pub fn print(line: &Line, out: &mut Vec<u8>) -> Result<(), Refusal>
    ensures text { OnOk result (out.new.items ≡ out.old.items ++ text_of line.now) }
    ensures refusal { IfErr result (λ e. e ≡ NoMemory) }
    ensures unchanged { OnErr result (out.new.items ≡ out.old.items) }
    ensures again { is_line line.now ≡ true → line_of (text_of line.now) ≡ Ok line.now }
    ensures full { OnErr result (vec_capacity out.old < vec_len out.old + length (text_of line.now)) }
{
    let start = out.len();
    match add_line(out, line) {
        Ok(()) => Ok(()),
        Err(_) => {
            out.truncate(start);
            Err(Refusal::NoMemory)
        }
    }
}
