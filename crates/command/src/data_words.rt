// Data words, `COUNT*HH` each.
ghost use Rattle.std.specs.Prelude.{◌≡◌, ◌≤◌, ◌<◌, ◌+◌, ◌*◌, ◌^◌, ◌++◌, ◌∷◌, [], length, replicate, true, false, OnOk, IfOk, IfSome, MatchOption, vec_len};
ghost use Rattle.words.specs.Given.{Gives};
ghost use Rattle.words.specs.Words.{words_of};
ghost use Rattle.command.specs.Words.{sectors_of};
ghost use Rattle.command.specs.DataWords.{is_hex, hex_value, run_of, are_runs, total, data_of, size_of, payload_of};

use sector::{Buf, Refusal, SECTOR_BYTES};
use std::alloc::{AllocError, Global};
use std::mem;
use words::{next_word, number};

/// The greatest count of a data word.
const LONGEST_RUN: u32 = 1_048_576;

/// The most sectors that one command reads or writes.
const MOST_SECTORS: u32 = 2048;

/// So many bytes of a line have memory of their own at most. More stand in a room that is used again, so that the lines of a
/// run that have many take no more memory than the longest.
pub const MANY_BYTES: usize = 65_536;

/// Equal bytes.
#[derive(Clone, Copy)]
pub struct DataRun {
    pub count: u32,
    pub byte: u8,
}

fn is_hex_digit(c: u8) -> bool
    ensures { result ≡ is_hex c }
{
    c.is_ascii_digit() || (b'a' <= c && c <= b'f')
}

fn hex_number(c: u8) -> u8
    requires { is_hex c ≡ true }
    ensures value { result ≡ hex_value c }
    ensures small { result < 16 }
{
    if c.is_ascii_digit() {
        c - b'0'
    } else {
        c - b'a' + 10
    }
}

/// The run that a word says, `COUNT*HH`: a count from 1 to 1,048,576, and two lower-case hexadecimal digits; `None` for a word of
/// another form.
pub fn run_in(word: &[u8]) -> Option<DataRun>
    ensures value { result ≡ run_of word.now }
    ensures small { IfSome result (λ run. run.count ≤ 1048576) }
{
    let end = word.len();
    if end < 4 {
        return None;
    }
    let count = number(&word[..end - 3])?;
    let (star, high, low) = (word[end - 3], word[end - 2], word[end - 1]);
    if 0 < count
        && count <= LONGEST_RUN
        && star == b'*'
        && is_hex_digit(high)
        && is_hex_digit(low)
    {
        let byte = 16 * hex_number(high) + hex_number(low);
        Some(DataRun { count, byte })
    } else {
        None
    }
}

/// How many bytes the words of a text say; `None` where one is no run.
#[tactic(auto, using(crate::proofs::Cut::one_run, crate::proofs::Cut::one_total, crate::proofs::Cut::no_run, crate::proofs::Cut::none_are_runs, crate::proofs::Cut::none_total))]
fn size_in(text: &[u8]) -> Option<u64>
    requires { length text.now ≤ 65536 }
    ensures size { MatchOption result (are_runs (words_of text.now) ≡ false) (λ size. (are_runs (words_of text.now) ≡ true) × (size ≡ total (words_of text.now))) }
    ensures small { IfSome result (λ size. size ≤ 2 ^ 40) }
{
    let mut size = 0u64;
    let mut rest = text;
    while let Some((word, left)) = next_word(rest) {
        size += u64::from(run_in(word)?.count);
        rest = left;
    }
    Some(size)
}

/// Adds equal bytes at the end.
fn push_run(out: &mut Vec<u8>, run: DataRun) -> Result<(), AllocError>
    requires { vec_len out.old + run.count < 2 ^ 64 }
    ensures { OnOk result (out.new.items ≡ out.old.items ++ replicate run.count run.byte) }
{
    out.resize(out.len() + run.count as usize, run.byte)?;
    Ok(())
}

/// The bytes that the runs of a text say, `size` of them, in a vector that is given, in the place of what it holds.
#[tactic(auto, using(crate::proofs::Cut::one_data, crate::proofs::Cut::none_data))]
fn data_in(mut out: Vec<u8>, text: &[u8], size: usize) -> Result<Vec<u8>, AllocError>
    requires { length text.now ≤ 65536 }
    ensures { IfOk result (λ v. v.items ≡ data_of (words_of text.now)) }
{
    out.clear();
    out.reserve(size)?;
    let mut rest = text;
    while let Some((word, left)) = next_word(rest) {
        if let Some(run) = run_in(word) {
            push_run(&mut out, run)?;
        }
        rest = left;
    }
    Ok(out)
}

/// A number of sectors that one command may move: 1 to 2048, else `OutOfRange`.
pub fn sectors(count: u32) -> Result<u32, Refusal>
    ensures { result ≡ sectors_of count }
{
    if 0 < count && count <= MOST_SECTORS {
        Ok(count)
    } else {
        Err(Refusal::OutOfRange)
    }
}

/// How many bytes the data words of a text say for a command. `BadTable` where there is no word, where one has another form,
/// or where they don't fill whole sectors, and then `OutOfRange` for more than 2048 sectors.
#[tactic(auto, using(crate::proofs::Cut::some_words, crate::proofs::Cut::no_words))]
fn payload_size(text: &[u8]) -> Result<usize, Refusal>
    requires { length text.now ≤ 65536 }
    ensures { result ≡ size_of (words_of text.now) }
{
    let Some(size) = size_in(text) else {
        return Err(Refusal::BadTable);
    };
    if size == 0 || size % SECTOR_BYTES as u64 != 0 {
        return Err(Refusal::BadTable);
    }
    sectors((size / SECTOR_BYTES as u64) as u32)?;
    Ok(size as usize)
}

/// The word of a text that has one alone.
fn only_word(text: &[u8]) -> Option<&[u8]>
    ensures { IfSome result (λ word. words_of text.now ≡ word.now ∷ []) }
{
    let (word, rest) = next_word(text)?;
    if next_word(rest).is_some() {
        return None;
    }
    Some(word)
}

/// The bytes of the sectors that one data word says, made at once. Refused as `payload_size` is; then `NoMemory`.
fn even_payload(alloc: Global, word: &[u8]) -> Result<Buf, Refusal>
    ensures { Gives result (payload_of (word.now ∷ [])) }
{
    let Some(run) = run_in(word) else {
        return Err(Refusal::BadTable);
    };
    if run.count as usize % SECTOR_BYTES != 0 {
        return Err(Refusal::BadTable);
    }
    sectors(run.count / SECTOR_BYTES as u32)?;
    let bytes = vec![in alloc; run.byte; run.count as usize].map_err(|_| Refusal::NoMemory)?;
    Ok(Buf::from_vec(bytes))
}

/// The bytes of the sectors that the data words of a text say, of which there are several. Refused as `payload_size` is; then
/// `NoMemory`.
#[inline(never)]
fn uneven_payload(alloc: Global, room: &mut Vec<u8>, text: &[u8]) -> Result<Buf, Refusal>
    requires { length text.now ≤ 65536 }
    ensures { Gives result (payload_of (words_of text.now)) }
{
    let size = payload_size(text)?;
    let mut held = Vec::new(alloc);
    if size > MANY_BYTES {
        mem::swap(&mut held, room);
    }
    let bytes = data_in(held, text, size).map_err(|_| Refusal::NoMemory)?;
    Ok(Buf::from_vec(bytes))
}

/// The bytes of the sectors that the data words of a text say. More than `MANY_BYTES` that several words say stand in the memory
/// of the room, and leave it empty. Refused as `payload_size` is; then `NoMemory`.
pub fn payload(alloc: Global, room: &mut Vec<u8>, text: &[u8]) -> Result<Buf, Refusal>
    requires { length text.now ≤ 65536 }
    ensures { Gives result (payload_of (words_of text.now)) }
{
    if let Some(word) = only_word(text) {
        return even_payload(alloc, word);
    }
    // Taken and given again: a result in whose place a call out of line answers is kept in memory, also above.
    let bytes = uneven_payload(alloc, room, text)?;
    Ok(bytes)
}
