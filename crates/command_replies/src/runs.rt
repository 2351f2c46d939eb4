// Data as longest runs of equal bytes.
ghost use Rattle.std.specs.Prelude.{◌≡◌, ◌≤◌, ◌<◌, ◌+◌, ◌∷◌, ◌++◌, codes, true, length, take, drop, replicate, slice_index, IfOk, OnOk};
ghost use Rattle.std.specs.Io.KnownBytes.{Appends};
ghost use Rattle.command_replies.specs.Runs.{runs_of, hex_char, run_word, data_words};

use std::alloc::{AllocError, Global};
use std::io;
use std::io::Write;
use std::simd::prelude::*;
use table::{put, put_number};
use words::Text;

/// So many bytes are compared at once.
const WIDE: usize = 64;

/// Room for the longest word of a run, the space before it counted: the greatest number has 20 digits.
const RUN_ROOM: usize = 24;

/// Room for most lines of an answer.
pub const LINE_ROOM: usize = 96;

/// The lower-case hexadecimal digit of a number below 16.
fn hex_digit(d: u8) -> u8
    requires { d < 16 }
    ensures { result ≡ hex_char d }
{
    if d < 10 { b'0' + d } else { b'a' - 10 + d }
}

/// Puts a space and a run before a place, and tells where they begin.
#[tactic(auto, using(crate::proofs::RunWord::run_short))]
fn put_run(room: &mut [u8], end: usize, count: usize, byte: u8) -> usize
    requires within { end ≤ length room.old }
    requires space { 24 ≤ end }
    ensures start { result + length (run_word (count, byte)) ≡ end }
    ensures written { drop result room.new ≡ run_word (count, byte) ++ drop end room.old }
    ensures short { length (run_word (count, byte)) ≤ 24 }
{
    let end = put(
        room,
        end,
        &[b'*', hex_digit(byte / 16), hex_digit(byte % 16)],
    );
    let end = put_number(room, end, count as u64);
    put(room, end, b" ")
}

/// Prints a space and a run, in one write.
fn write_run<W: Write>(writer: &mut W, count: usize, byte: u8) -> io::Result<()>
    ensures { OnOk result (Appends (W.contents writer.old) (W.contents writer.new) (run_word (count, byte))) }
{
    let mut room = [b' '; RUN_ROOM];
    let start = put_run(&mut room, RUN_ROOM, count, byte);
    writer.write_all(&room[start..])
}

/// Whether the 64 bytes from a place on are all this one.
fn is_even(bytes: &[u8], at: usize, byte: u8) -> bool
    requires { at + 64 ≤ length bytes.now }
    ensures { result ≡ true → take 64 (drop at bytes.now) ≡ replicate 64 byte }
{
    u8x64::from_slice(&bytes[at..]) == u8x64::splat(byte)
}

/// A number of bytes at the front that are all this one, found 64 at a time.
#[tactic(auto, using(crate::proofs::RunLemmas::more_even))]
fn even_len(bytes: &[u8], byte: u8) -> usize
    ensures within { result ≤ length bytes.now }
    ensures even { take result bytes.now ≡ replicate result byte }
{
    let mut at = 0;
    while bytes.len() - at >= WIDE && is_even(bytes, at, byte) {
        at += WIDE;
    }
    at
}

/// How many equal bytes the data begins with.
#[tactic(auto, using(crate::proofs::RunLemmas::front_all, crate::proofs::RunLemmas::front_even, crate::proofs::RunLemmas::front_here, crate::proofs::RunLemmas::front_some, crate::proofs::RunLemmas::front_within, crate::proofs::RunLemmas::runs_cut))]
fn run_len(bytes: &[u8]) -> usize
    requires { 0 < length bytes.now }
    ensures some { 0 < result }
    ensures within { result ≤ length bytes.now }
    ensures cut { runs_of bytes.now ≡ (result, slice_index bytes.now 0) ∷ runs_of (drop result bytes.now) }
{
    let first = bytes[0];
    let mut at = even_len(bytes, first);
    while at < bytes.len() && bytes[at] == first {
        at += 1;
    }
    at
}

/// Prints data as longest runs, a space before each.
#[tactic(auto, using(words::proofs::Written::starts, words::proofs::Written::writes_on, words::proofs::Written::ends, crate::proofs::RunLemmas::words_cut))]
pub fn write_data<W: Write>(writer: &mut W, bytes: &[u8]) -> io::Result<()>
    ensures { OnOk result (Appends (W.contents writer.old) (W.contents writer.new) (data_words bytes.now)) }
{
    let mut rest = bytes;
    while !rest.is_empty() {
        let count = run_len(rest);
        write_run(writer, count, rest[0])?;
        rest = &rest[count..];
    }
    Ok(())
}

/// Whether some data is one run.
#[tactic(auto, using(crate::proofs::RunLine::one_run))]
pub fn is_one_run(bytes: &[u8]) -> bool
    ensures { result ≡ true → (0 < length bytes.now) × (data_words bytes.now ≡ run_word (length bytes.now, slice_index bytes.now 0)) }
{
    !bytes.is_empty() && run_len(bytes) == bytes.len()
}

/// Puts the line of one run at the end of a room, and tells where it begins.
pub fn put_line(room: &mut [u8; LINE_ROOM], count: usize, byte: u8) -> usize
    ensures within { result < 96 }
    ensures line { drop result room.new ≡ codes "ok" ++ run_word (count, byte) ++ codes "\n" }
{
    let end = put(room, LINE_ROOM, b"\n");
    let end = put_run(room, end, count, byte);
    put(room, end, b"ok")
}

/// Prints the line of data that was asked for: `ok`, and longest runs. The one error is the writer's own.
#[tactic(auto, using(words::proofs::Written::appends_more))]
pub fn write_data_line<W: Write>(writer: &mut W, bytes: &[u8]) -> io::Result<()>
    ensures { OnOk result (Appends (W.contents writer.old) (W.contents writer.new) (codes "ok" ++ data_words bytes.now ++ codes "\n")) }
{
    writer.write_all(b"ok")?;
    write_data(writer, bytes)?;
    writer.write_all(b"\n")
}

/// Data in words, as it is printed after `ok`: longest runs, a space before each. An error says that the allocator refused
/// memory for them.
pub fn words_of_data(alloc: Global, bytes: &[u8]) -> Result<Text, AllocError>
    ensures { IfOk result (λ words. words ≡ data_words bytes.now) }
{
    let mut words = Vec::new(alloc);
    match write_data(&mut words, bytes) {
        Ok(()) => Ok(Text::from_vec(words)),
        Err(_) => Err(AllocError),
    }
}
