// What is wrong with the words of a line each of which fits its place.
ghost use Rattle.std.specs.Prelude.{◌≡◌, drop, find, nat_lt, codes, decimal, length, option_copied, IfOk, OnOk};
ghost use Rattle.std.specs.Io.KnownBytes.{Appends};
ghost use Rattle.words.specs.Texts.{texts};
ghost use Rattle.explain_syntax.specs.Sentences.{Tells};
ghost use Rattle.command.specs.DataWords.{count_of};
ghost use Rattle.explain_syntax.specs.Late.{place_of, number_at, number_for, chunk_text, count_text, size_of, size_text, times, twice_text, pairs_text, said_text, many_text, features_text, seconds_text, flakey_text, moved_text, by_seconds, by_data, by_chunk, late_text};

use crate::shown::put_two;
use command::run_in;
use std::io;
use std::io::Write;
use words::number;

/// The most sectors that one line moves.
const MOST_SECTORS: u64 = 2048;

/// The bytes of a sector.
const SECTOR: u64 = 512;

/// The place of a word of a form.
#[tactic(auto, unfolding(crate::specs::Late::place_of))]
fn place_in(form: &str, name: &[u8]) -> Option<usize>
    ensures { result ≡ place_of form.now name.now }
{
    form.as_bytes()
        .split(|byte| *byte == b' ')
        .filter(|one| !one.is_empty())
        .position(|one| one == name)
}

/// The number that a line says at a place.
fn number_at(words: &[&[u8]], place: usize) -> Option<u32>
    ensures { result ≡ number_at (texts words.now) place }
{
    match words.get(place) {
        Some(word) => number(*word),
        None => None,
    }
}

/// The number that stands in a line for a word of its form.
#[tactic(auto, unfolding(crate::specs::Late::number_for))]
fn number_for(form: &str, words: &[&[u8]], name: &[u8]) -> Option<u32>
    ensures { result ≡ number_for form.now (texts words.now) name.now }
{
    match place_in(form, name) {
        Some(place) => number_at(words, place),
        None => None,
    }
}

/// The words from a place on.
#[tactic(auto, using(crate::proofs::Behind::texts_behind, crate::proofs::Behind::none_behind))]
fn words_from<'a, 'b>(words: &'b [&'a [u8]], place: usize) -> &'b [&'a [u8]]
    ensures { texts result.now ≡ drop place (texts words.now) }
{
    if place < words.len() {
        &words[place..]
    } else {
        &[]
    }
}

/// How many bytes a data word says.
fn count_in(word: &[u8]) -> u64
    ensures { result ≡ count_of word.now }
{
    match run_in(word) {
        Some(run) => u64::from(run.count),
        None => 0,
    }
}

/// How many bytes data words say.
#[tactic(auto, unfolding(crate::specs::Late::size_of))]
fn bytes_of(words: &[&[u8]]) -> u64
    ensures { result ≡ size_of (texts words.now) }
{
    let mut bytes = 0u64;
    for word in words {
        bytes = bytes.saturating_add(count_in(word));
    }
    bytes
}

/// Tells of a number of sectors that no line moves, and gives whether it is one.
#[tactic(auto, using(crate::proofs::TellsLemmas::tells_nothing), unfolding(crate::specs::Late::count_text))]
fn tell_count<W: Write>(writer: &mut W, count: u64) -> io::Result<bool>
    ensures { IfOk result (Tells (W.contents writer.old) (W.contents writer.new) (count_text count)) }
{
    if 1 <= count && count <= MOST_SECTORS {
        return Ok(false);
    }
    write!(writer, "{count} sectors: a line moves 1 to 2048")?;
    Ok(true)
}

/// Tells of data that are no sectors, or more than a line moves, and gives whether they are.
#[tactic(auto, unfolding(crate::specs::Late::size_text))]
fn tell_size<W: Write>(writer: &mut W, bytes: u64) -> io::Result<bool>
    ensures { IfOk result (Tells (W.contents writer.old) (W.contents writer.new) (size_text bytes)) }
{
    if bytes % SECTOR == 0 {
        return tell_count(writer, bytes / SECTOR);
    }
    write!(
        writer,
        "the data has {bytes} bytes, and no whole sectors of 512"
    )?;
    Ok(true)
}

/// How often a word stands among words.
fn times(word: &[u8], words: &[&[u8]]) -> usize
    ensures { result ≡ times word.now (texts words.now) }
{
    words.iter().filter(|one| **one == word).count()
}

/// The first feature that stands twice.
fn first_twice<'a>(features: &[&'a [u8]]) -> Option<&'a [u8]>
    ensures { option_copied result ≡ find (λ feature. nat_lt 1 (times feature (texts features.now))) (texts features.now) }
{
    for feature in features {
        if times(feature, features) > 1 {
            return Some(*feature);
        }
    }
    None
}

/// Tells of a feature that stands twice, and gives whether one does.
#[tactic(auto, using(crate::proofs::TellsLemmas::tells_nothing), unfolding(crate::specs::Late::twice_text))]
fn tell_twice<W: Write>(writer: &mut W, features: &[&[u8]]) -> io::Result<bool>
    ensures { IfOk result (Tells (W.contents writer.old) (W.contents writer.new) (twice_text (texts features.now))) }
{
    match first_twice(features) {
        Some(feature) => {
            put_two(writer, feature, b" stands twice")?;
            Ok(true)
        }
        None => Ok(false),
    }
}

/// Whether a word stands among features.
fn has(features: &[&[u8]], word: &[u8]) -> bool
    ensures { result ≡ nat_lt 0 (times word.now (texts features.now)) }
{
    times(word, features) > 0
}

/// Tells of features that do not go together, or of one that stands twice, and gives whether they are so.
#[tactic(auto, unfolding(crate::specs::Late::pairs_text))]
fn tell_pairs<W: Write>(writer: &mut W, features: &[&[u8]]) -> io::Result<bool>
    ensures { IfOk result (Tells (W.contents writer.old) (W.contents writer.new) (pairs_text (texts features.now))) }
{
    if has(features, b"error_writes") && has(features, b"drop_writes") {
        writer.write_all(b"error_writes and drop_writes don't go together")?;
        return Ok(true);
    }
    tell_twice(writer, features)
}

/// How many features there are.
fn many(features: &[&[u8]]) -> usize
    ensures { result ≡ length (texts features.now) }
{
    features.len()
}

/// Tells what a number of features stands for.
fn tell_said<W: Write>(writer: &mut W, count: u32) -> io::Result<()>
    ensures { OnOk result (Appends (W.contents writer.old) (W.contents writer.new) (said_text count)) }
{
    write!(
        writer,
        "{count} stands for the number of features, and behind it stand "
    )?;
    Ok(())
}

/// Writes a number.
fn put_number<W: Write>(writer: &mut W, number: usize) -> io::Result<()>
    ensures { OnOk result (Appends (W.contents writer.old) (W.contents writer.new) (decimal number)) }
{
    write!(writer, "{number}")?;
    Ok(())
}

/// Tells of so many features, where another number of them is said.
#[tactic(auto, using(words::proofs::Written::appends_more))]
fn tell_many<W: Write>(writer: &mut W, count: u32, found: usize) -> io::Result<()>
    ensures { OnOk result (Appends (W.contents writer.old) (W.contents writer.new) (many_text count found)) }
{
    tell_said(writer, count)?;
    put_number(writer, found)
}

/// Tells of features that are not as many as their count, or do not go together, and gives whether they are so.
#[tactic(auto, unfolding(crate::specs::Late::features_text))]
fn tell_features<W: Write>(writer: &mut W, count: u32, features: &[&[u8]]) -> io::Result<bool>
    ensures { IfOk result (Tells (W.contents writer.old) (W.contents writer.new) (features_text (texts features.now) count)) }
{
    let found = many(features);
    if count as usize == found {
        return tell_pairs(writer, features);
    }
    tell_many(writer, count, found)?;
    Ok(true)
}

/// Tells of the seconds and the features of a flakey layer's line, and gives whether something is wrong with them.
#[tactic(auto, using(crate::proofs::TellsLemmas::tells_nothing))]
fn tell_seconds<W: Write>(
    writer: &mut W,
    words: &[&[u8]],
    up: Option<u32>,
    down: Option<u32>,
) -> io::Result<bool>
    ensures { IfOk result (Tells (W.contents writer.old) (W.contents writer.new) (seconds_text (texts words.now) up down)) }
{
    let (Some(up), Some(down)) = (up, down) else {
        return Ok(false);
    };
    if up == 0 && down == 0 {
        writer.write_all(b"UP and DOWN are both 0: one of them lasts a second at least")?;
        return Ok(true);
    }
    match number_at(words, 9) {
        Some(count) => tell_features(writer, count, words_from(words, 10)),
        None => Ok(false),
    }
}

/// Tells of a flakey layer's line, and gives whether something is wrong with it.
#[tactic(auto, unfolding(crate::specs::Late::flakey_text))]
fn tell_flakey<W: Write>(writer: &mut W, form: &str, words: &[&[u8]]) -> io::Result<bool>
    ensures { IfOk result (Tells (W.contents writer.old) (W.contents writer.new) (flakey_text form.now (texts words.now))) }
{
    let up = number_for(form, words, b"UP");
    let down = number_for(form, words, b"DOWN");
    tell_seconds(writer, words, up, down)
}

/// Tells of a line that says how many sectors it moves, and gives whether no line moves so many.
#[tactic(auto, using(crate::proofs::TellsLemmas::tells_nothing), unfolding(crate::specs::Late::moved_text))]
fn tell_moved<W: Write>(writer: &mut W, form: &str, words: &[&[u8]]) -> io::Result<bool>
    ensures { IfOk result (Tells (W.contents writer.old) (W.contents writer.new) (moved_text form.now (texts words.now))) }
{
    match number_for(form, words, b"N") {
        Some(count) => tell_count(writer, u64::from(count)),
        None => Ok(false),
    }
}

/// Tells of a line with no chunk and no data, and gives whether something is wrong with it.
fn tell_other<W: Write>(writer: &mut W, form: &str, words: &[&[u8]]) -> io::Result<bool>
    ensures { IfOk result (Tells (W.contents writer.old) (W.contents writer.new) (by_seconds form.now (texts words.now) (place_of form.now (codes "UP")))) }
{
    match place_in(form, b"UP") {
        Some(_) => tell_flakey(writer, form, words),
        None => tell_moved(writer, form, words),
    }
}

/// Tells of a line with no chunk, and gives whether something is wrong with it.
fn tell_unchunked<W: Write>(writer: &mut W, form: &str, words: &[&[u8]]) -> io::Result<bool>
    ensures { IfOk result (Tells (W.contents writer.old) (W.contents writer.new) (by_data form.now (texts words.now) (place_of form.now (codes "DATA")))) }
{
    match place_in(form, b"DATA") {
        Some(place) => tell_size(writer, bytes_of(words_from(words, place))),
        None => tell_other(writer, form, words),
    }
}

/// Tells of a chunk that is none, and gives whether it is so.
#[tactic(auto, using(crate::proofs::TellsLemmas::tells_nothing), unfolding(crate::specs::Late::chunk_text))]
fn tell_chunk<W: Write>(writer: &mut W, chunk: u32) -> io::Result<bool>
    ensures { IfOk result (Tells (W.contents writer.old) (W.contents writer.new) (chunk_text chunk)) }
{
    if chunk.is_power_of_two() && chunk <= 1024 {
        return Ok(false);
    }
    write!(writer, "{chunk} is no chunk: 1, 2, 4, 8 .. 1024 sectors")?;
    Ok(true)
}

/// Tells what is wrong with a line each of whose words fits its place, and gives whether something is.
#[tactic(auto, unfolding(crate::specs::Late::late_text))]
pub fn tell_late<W: Write>(writer: &mut W, form: &str, words: &[&[u8]]) -> io::Result<bool>
    ensures { IfOk result (Tells (W.contents writer.old) (W.contents writer.new) (late_text form.now (texts words.now))) }
{
    match number_for(form, words, b"CHUNK") {
        Some(chunk) => tell_chunk(writer, chunk),
        None => tell_unchunked(writer, form, words),
    }
}
