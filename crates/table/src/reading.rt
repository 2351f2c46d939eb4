// Table lines read from their words.
ghost use Rattle.std.specs.Prelude.{◌≡◌, ◌^◌, ◌<◌, ◌&&◌, not, true, IfOk};
ghost use Rattle.std.specs.Str.{bytes_eq};
ghost use Rattle.words.specs.Given.{Gives};
ghost use Rattle.words.specs.Texts.{texts};
ghost use Rattle.words.specs.Names.{is_name};
ghost use Rattle.chunk.specs.Sizes.{is_chunk};
ghost use Rattle.table.specs.Lawful.{is_line, IsTarget};
ghost use Rattle.table.specs.Grammar.{times, is_block, seconds_of, features_in, origin_in, are_none, overflow_of, store_in, snapshot_in, merge_in, flakey_in, dust_in, error_in, target_in, line_in, line_of};

use crate::{FlakeyFeatures, Line, Target};
use chunk::is_chunk_size;
use sector::Refusal;
use std::alloc::Global;
use words::{Name, numeral, words_in};

// How often a word stands among some words.
fn times(name: &[u8], words: &[&[u8]]) -> usize
    ensures { result ≡ times name.now (texts words.now) }
{
    words.iter().filter(|word| **word == name).count()
}

// The features of a flakey line: how many, and then so many different ones.
fn features(words: &[&[u8]]) -> Result<FlakeyFeatures, Refusal>
    ensures reads { result ≡ features_in (texts words.now) }
    ensures lawful { IfOk result (λ f. not (f.error_writes && f.drop_writes) ≡ true) }
{
    let Some((count, words)) = words.split_first() else {
        return Ok(FlakeyFeatures {
            error_reads: false,
            error_writes: false,
            drop_writes: false,
        });
    };
    let count = numeral(count)?;
    let reads = times(b"error_reads", words);
    let writes = times(b"error_writes", words);
    let drops = times(b"drop_writes", words);
    if count as usize == words.len()
        && reads + writes + drops == words.len()
        && reads <= 1
        && writes + drops <= 1
    {
        Ok(FlakeyFeatures {
            error_reads: reads == 1,
            error_writes: writes == 1,
            drop_writes: drops == 1,
        })
    } else {
        Err(Refusal::BadTable)
    }
}

fn origin(words: &[&[u8]]) -> Result<Target, Refusal>
    ensures reads { result ≡ origin_in (texts words.now) }
    ensures lawful { IfOk result IsTarget }
{
    match words {
        [device] => {
            let device = Name::new(device)?;
            Ok(Target::Origin { device })
        }
        _ => Err(Refusal::BadTable),
    }
}

// Whether a store may overflow: `PO`, and `P` where it may not.
fn overflow(word: &[u8]) -> Result<bool, Refusal>
    ensures { result ≡ overflow_of word.now }
{
    if word == b"P".as_slice() {
        Ok(false)
    } else if word == b"PO".as_slice() {
        Ok(true)
    } else {
        Err(Refusal::BadTable)
    }
}

// The devices and the chunk size of a snapshot, and whether its store may overflow. A word `0` after them says that there
// are no features.
fn store(words: &[&[u8]]) -> Result<(Name, Name, u32, bool), Refusal>
    ensures reads { result ≡ store_in (texts words.now) }
    ensures lawful { IfOk result (λ s. (is_name s.0 && is_name s.1 && is_chunk s.2) ≡ true) }
{
    match words {
        [device, store, persistent, chunk, features @ ..] => {
            let device = Name::new(device)?;
            let store = Name::new(store)?;
            let overflow = overflow(persistent)?;
            let chunk = numeral(chunk)?;
            if !are_none(features) {
                return Err(Refusal::BadTable);
            }
            if !is_chunk_size(chunk) {
                return Err(Refusal::BadChunk);
            }
            Ok((device, store, chunk, overflow))
        }
        _ => Err(Refusal::BadTable),
    }
}

fn are_none(words: &[&[u8]]) -> bool
    ensures { result ≡ are_none (texts words.now) }
{
    match words {
        [] => true,
        [word] => *word == b"0".as_slice(),
        _ => false,
    }
}

fn snapshot(words: &[&[u8]]) -> Result<Target, Refusal>
    ensures reads { result ≡ snapshot_in (texts words.now) }
    ensures lawful { IfOk result IsTarget }
{
    let (device, store, chunk, overflow) = store(words)?;
    Ok(Target::Snapshot {
        device,
        store,
        chunk,
        overflow,
    })
}

fn merge(words: &[&[u8]]) -> Result<Target, Refusal>
    ensures reads { result ≡ merge_in (texts words.now) }
    ensures lawful { IfOk result IsTarget }
{
    let (device, store, chunk, overflow) = store(words)?;
    Ok(Target::Merge {
        device,
        store,
        chunk,
        overflow,
    })
}

// Seconds: a number below 2^31.
fn seconds(word: &[u8]) -> Result<u32, Refusal>
    ensures reads { result ≡ seconds_of word.now }
    ensures lawful { IfOk result (λ n. n < 2 ^ 31) }
{
    let seconds = numeral(word)?;
    if seconds < 1 << 31 {
        Ok(seconds)
    } else {
        Err(Refusal::BadTable)
    }
}

fn flakey(words: &[&[u8]]) -> Result<Target, Refusal>
    ensures reads { result ≡ flakey_in (texts words.now) }
    ensures lawful { IfOk result IsTarget }
{
    match words {
        [device, offset, up, down, words @ ..] => {
            let device = Name::new(device)?;
            let offset = numeral(offset)?;
            let up = seconds(up)?;
            let down = seconds(down)?;
            let features = features(words)?;
            if up == 0 && down == 0 {
                return Err(Refusal::BadTable);
            }
            Ok(Target::Flakey {
                device,
                offset,
                up,
                down,
                features,
            })
        }
        _ => Err(Refusal::BadTable),
    }
}

// Whether blocks may have so many bytes.
fn is_block_size(bytes: u32) -> bool
    ensures { result ≡ is_block bytes }
{
    bytes.is_power_of_two() && 512 <= bytes && bytes <= 1 << 30
}

fn dust(words: &[&[u8]]) -> Result<Target, Refusal>
    ensures reads { result ≡ dust_in (texts words.now) }
    ensures lawful { IfOk result IsTarget }
{
    match words {
        [device, offset, block] => {
            let device = Name::new(device)?;
            let block = numeral(block)?;
            if *offset == b"0".as_slice() && is_block_size(block) {
                Ok(Target::Dust { device, block })
            } else {
                Err(Refusal::BadTable)
            }
        }
        _ => Err(Refusal::BadTable),
    }
}

fn error(words: &[&[u8]]) -> Result<Target, Refusal>
    ensures reads { result ≡ error_in (texts words.now) }
    ensures lawful { IfOk result IsTarget }
{
    match words {
        [] => Ok(Target::Error),
        _ => Err(Refusal::BadTable),
    }
}

// A target by its name, and its parameters.
fn target(kind: &[u8], words: &[&[u8]]) -> Result<Target, Refusal>
    ensures reads { result ≡ target_in kind.now (texts words.now) }
    ensures lawful { IfOk result IsTarget }
{
    if kind == b"snapshot-origin".as_slice() {
        origin(words)
    } else if kind == b"snapshot".as_slice() {
        snapshot(words)
    } else if kind == b"snapshot-merge".as_slice() {
        merge(words)
    } else if kind == b"flakey".as_slice() {
        flakey(words)
    } else if kind == b"dust".as_slice() {
        dust(words)
    } else if kind == b"error".as_slice() {
        error(words)
    } else {
        Err(Refusal::BadTable)
    }
}

/// The line that some words say, which may be words of a longer line. `BadTable` where they are no table line, `BadChunk`
/// where they are one but for a chunk size that is no power of two from 1 to 1024.
pub fn parse_words(words: &[&[u8]]) -> Result<Line, Refusal>
    ensures reads { result ≡ line_in (texts words.now) }
    ensures lawful { IfOk result (λ line. is_line line ≡ true) }
{
    match words {
        [first, sectors, kind, words @ ..] => {
            if *first != b"0".as_slice() {
                return Err(Refusal::BadTable);
            }
            let sectors = numeral(sectors)?;
            let target = target(kind, words)?;
            Ok(Line { sectors, target })
        }
        _ => Err(Refusal::BadTable),
    }
}

/// The line that a text says. Refused as `parse_words` is, and with `NoMemory` where the allocator refused memory for the
/// list of words.
pub fn parse(alloc: Global, text: &[u8]) -> Result<Line, Refusal>
    ensures reads { Gives result (line_of text.now) }
    ensures lawful { IfOk result (λ line. is_line line ≡ true) }
{
    let words = words_in(alloc, text).map_err(|_| Refusal::NoMemory)?;
    parse_words(words.as_slice())
}
