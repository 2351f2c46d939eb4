// The commands, and the words that say them.
ghost use Rattle.std.specs.Prelude.{◌≡◌, ◌≤◌, [], ◌∷◌, length};
ghost use Rattle.words.specs.Given.{Gives};
ghost use Rattle.words.specs.Texts.{texts};
ghost use Rattle.words.specs.Words.{words_of};
ghost use Rattle.command.specs.Grammar.{place_of, amount_of, span_of, patch_of, alone_of, disk_of, is_merge, made_line_of, create_of, remove_of, load_of, save_of, copy_of, list_of, message_of, tick_of, read_of, write_of, flush_of, start_read_of, start_write_of, start_of, step_of, settle_of, merge_of, resume_of, finish_of, checkpoint_of, stop_of, status_of, table_of, map_of, volume_command_of, command_of};

use super::data_words::{payload, sectors};
use super::events::{EventWords, event_in};
use super::messages::message_in;
use layers::Message;
use sector::{Buf, Refusal};
use std::alloc::Global;
use table::{Line, parse_words};
use words::{Name, next_word, numeral, words_in};

/// A command. Numbers of sectors and places are in sectors; bytes are whole sectors.
#[derive(Drop)]
pub enum Command {
    /// `disk NAME N`: a disk of N zero sectors. Any N stands here, also one outside the limits of disks.
    Disk {
        name: Name,
        sectors: u32,
    },
    /// `create NAME LINE`: a device by its table line, which is not that of a merge.
    Create {
        name: Name,
        line: Line,
    },
    /// `remove NAME`: takes a device away.
    Remove {
        name: Name,
    },
    /// `load DISK S DATA`: writes raw sectors of a disk. 1 to 2048 of them.
    Load {
        disk: Name,
        first: u32,
        bytes: Buf,
    },
    /// `save DISK S N`: prints raw sectors of a disk. `count` is 1 to 2048.
    Save {
        disk: Name,
        first: u32,
        count: u32,
    },
    /// `copy DISK S DISK N`: copies raw sectors of a disk to the same place of another. `count` is 1 to 2048.
    Copy {
        from: Name,
        first: u32,
        to: Name,
        count: u32,
    },
    /// `ls`: names each device, what it is, and what it stands on.
    List,
    /// `message DEV 0 WORDS`: a message to a layer.
    Message {
        name: Name,
        message: Message,
    },
    /// `tick N`: so many seconds pass for every flakey layer.
    Tick {
        seconds: u32,
    },
    /// `read DEV S N`: reads an origin or snapshot. `count` is 1 to 2048.
    Read {
        name: Name,
        first: u32,
        count: u32,
    },
    /// `write DEV S DATA`: writes an origin or snapshot. 1 to 2048 sectors.
    Write {
        name: Name,
        first: u32,
        bytes: Buf,
    },
    /// `flush DEV`: makes what was written to an origin or snapshot last.
    Flush {
        name: Name,
    },
    /// `start DEV read S N`: starts a read of an origin or snapshot, inside one piece. `count` is 1 to 2048.
    StartRead {
        name: Name,
        first: u32,
        count: u32,
    },
    /// `start DEV write S DATA`: starts a write of an origin or snapshot, inside one piece. 1 to 2048 sectors.
    StartWrite {
        name: Name,
        first: u32,
        bytes: Buf,
    },
    /// `step VOL EVENT`: one event of the volume of an origin.
    Step {
        volume: Name,
        event: EventWords,
    },
    /// `settle VOL`: the events that are due in the volume of an origin, until there is none.
    Settle {
        volume: Name,
    },
    /// `merge SNAP`: begins to merge a snapshot into its origin.
    Merge {
        name: Name,
    },
    /// `resume VOL`: lets a failed merge of the volume of an origin go on.
    Resume {
        volume: Name,
    },
    /// `finish VOL`: ends the merge of the volume of an origin that has come to its end.
    Finish {
        volume: Name,
    },
    /// `checkpoint VOL`: the journal of the volume of an origin is folded.
    Checkpoint {
        volume: Name,
    },
    /// `stop VOL`: the volume of an origin ends, whatever is in flight in it.
    Stop {
        volume: Name,
    },
    /// `stop VOL lose`: the same, and its disks lose what was not flushed.
    StopLosing {
        volume: Name,
    },
    /// `status DEV`: prints the status line.
    Status {
        name: Name,
    },
    /// `table DEV`: prints the table line.
    Table {
        name: Name,
    },
    /// `map SNAP`: prints the pairs of a snapshot.
    Map {
        name: Name,
    },
}

fn place(name: &[u8], first: &[u8]) -> Result<(Name, u32), Refusal>
    ensures { result ≡ place_of name.now first.now }
{
    let name = Name::new(name)?;
    let first = numeral(first)?;
    Ok((name, first))
}

pub fn amount(text: &[u8]) -> Result<u32, Refusal>
    ensures { result ≡ amount_of (words_of text.now) }
{
    let Some((count, rest)) = next_word(text) else {
        return Err(Refusal::BadTable);
    };
    if next_word(rest).is_some() {
        return Err(Refusal::BadTable);
    }
    let count = numeral(count)?;
    sectors(count)
}

// The sectors that the words of a text say of what is named.
fn span_at(name: &[u8], text: &[u8]) -> Result<(Name, u32, u32), Refusal>
    ensures { result ≡ span_of (name.now ∷ words_of text.now) }
{
    let Some((first, rest)) = next_word(text) else {
        return Err(Refusal::BadTable);
    };
    let (name, first) = place(name, first)?;
    let count = amount(rest)?;
    Ok((name, first, count))
}

fn span(text: &[u8]) -> Result<(Name, u32, u32), Refusal>
    ensures { result ≡ span_of (words_of text.now) }
{
    let Some((name, rest)) = next_word(text) else {
        return Err(Refusal::BadTable);
    };
    span_at(name, rest)
}

// The bytes of sectors that the words of a text say for what is named.
fn patch_at(alloc: Global, name: &[u8], text: &[u8]) -> Result<(Name, u32, Buf), Refusal>
    requires { length text.now ≤ 65536 }
    ensures { Gives result (patch_of (name.now ∷ words_of text.now)) }
{
    let Some((first, rest)) = next_word(text) else {
        return Err(Refusal::BadTable);
    };
    let (name, first) = place(name, first)?;
    let mut room = Vec::new(alloc);
    let bytes = payload(alloc, &mut room, rest)?;
    Ok((name, first, bytes))
}

fn patch(alloc: Global, text: &[u8]) -> Result<(Name, u32, Buf), Refusal>
    requires { length text.now ≤ 65536 }
    ensures { Gives result (patch_of (words_of text.now)) }
{
    let Some((name, rest)) = next_word(text) else {
        return Err(Refusal::BadTable);
    };
    patch_at(alloc, name, rest)
}

fn alone(text: &[u8]) -> Result<Name, Refusal>
    ensures { result ≡ alone_of (words_of text.now) }
{
    let Some((name, rest)) = next_word(text) else {
        return Err(Refusal::BadTable);
    };
    if next_word(rest).is_some() {
        return Err(Refusal::BadTable);
    }
    Name::new(name)
}

// A disk by its two words.
fn disk_by(name: &[u8], sectors: &[u8]) -> Result<Command, Refusal>
    ensures { result ≡ disk_of (name.now ∷ sectors.now ∷ []) }
{
    let name = Name::new(name)?;
    let sectors = numeral(sectors)?;
    Ok(Command::Disk { name, sectors })
}

fn disk(text: &[u8]) -> Result<Command, Refusal>
    ensures { result ≡ disk_of (words_of text.now) }
{
    let Some((name, rest)) = next_word(text) else {
        return Err(Refusal::BadTable);
    };
    let Some((sectors, rest)) = next_word(rest) else {
        return Err(Refusal::BadTable);
    };
    if next_word(rest).is_some() {
        return Err(Refusal::BadTable);
    }
    disk_by(name, sectors)
}

/// Whether the words of a table line name a merge.
fn is_merge(words: &[&[u8]]) -> bool
    ensures { result ≡ is_merge (texts words.now) }
{
    match words {
        [_, _, target, _parameters @ ..] => *target == b"snapshot-merge".as_slice(),
        _ => false,
    }
}

/// The table line of a device that is to be made. `BadTable` for that of a merge, whatever else it says, and else as
/// `parse_words`.
fn made_line(words: &[&[u8]]) -> Result<Line, Refusal>
    ensures { result ≡ made_line_of (texts words.now) }
{
    if is_merge(words) {
        return Err(Refusal::BadTable);
    }
    parse_words(words)
}

// A device by its words.
fn create_by(words: &[&[u8]]) -> Result<Command, Refusal>
    ensures { result ≡ create_of (texts words.now) }
{
    match words {
        [name, words @ ..] => {
            let name = Name::new(name)?;
            let line = made_line(words)?;
            Ok(Command::Create { name, line })
        }
        _ => Err(Refusal::BadTable),
    }
}

fn create(alloc: Global, text: &[u8]) -> Result<Command, Refusal>
    ensures { Gives result (create_of (words_of text.now)) }
{
    let words = words_in(alloc, text).map_err(|_| Refusal::NoMemory)?;
    create_by(&words)
}

fn remove(text: &[u8]) -> Result<Command, Refusal>
    ensures { result ≡ remove_of (words_of text.now) }
{
    let name = alone(text)?;
    Ok(Command::Remove { name })
}

fn load(alloc: Global, text: &[u8]) -> Result<Command, Refusal>
    requires { length text.now ≤ 65536 }
    ensures { Gives result (load_of (words_of text.now)) }
{
    let (disk, first, bytes) = patch(alloc, text)?;
    Ok(Command::Load { disk, first, bytes })
}

fn save(text: &[u8]) -> Result<Command, Refusal>
    ensures { result ≡ save_of (words_of text.now) }
{
    let (disk, first, count) = span(text)?;
    Ok(Command::Save { disk, first, count })
}

// A copy to what is named, of sectors from a place on.
fn copy_to(from: &[u8], first: &[u8], to: &[u8], text: &[u8]) -> Result<Command, Refusal>
    ensures { result ≡ copy_of (from.now ∷ first.now ∷ to.now ∷ words_of text.now) }
{
    let (from, first) = place(from, first)?;
    let to = Name::new(to)?;
    let count = amount(text)?;
    Ok(Command::Copy {
        from,
        first,
        to,
        count,
    })
}

fn copy(text: &[u8]) -> Result<Command, Refusal>
    ensures { result ≡ copy_of (words_of text.now) }
{
    let Some((from, rest)) = next_word(text) else {
        return Err(Refusal::BadTable);
    };
    let Some((first, rest)) = next_word(rest) else {
        return Err(Refusal::BadTable);
    };
    let Some((to, rest)) = next_word(rest) else {
        return Err(Refusal::BadTable);
    };
    copy_to(from, first, to, rest)
}

fn list(text: &[u8]) -> Result<Command, Refusal>
    ensures { result ≡ list_of (words_of text.now) }
{
    if next_word(text).is_some() {
        return Err(Refusal::BadTable);
    }
    Ok(Command::List)
}

// A message to what is named.
fn message_by(device: &[u8], sector: &[u8], text: &[u8]) -> Result<Command, Refusal>
    ensures { result ≡ message_of (device.now ∷ sector.now ∷ words_of text.now) }
{
    let name = Name::new(device)?;
    let message = message_in(text)?;
    if sector != b"0".as_slice() {
        return Err(Refusal::BadTable);
    }
    Ok(Command::Message { name, message })
}

fn message(text: &[u8]) -> Result<Command, Refusal>
    ensures { result ≡ message_of (words_of text.now) }
{
    let Some((device, rest)) = next_word(text) else {
        return Err(Refusal::BadTable);
    };
    let Some((sector, rest)) = next_word(rest) else {
        return Err(Refusal::BadTable);
    };
    message_by(device, sector, rest)
}

fn tick(text: &[u8]) -> Result<Command, Refusal>
    ensures { result ≡ tick_of (words_of text.now) }
{
    let Some((seconds, rest)) = next_word(text) else {
        return Err(Refusal::BadTable);
    };
    if next_word(rest).is_some() {
        return Err(Refusal::BadTable);
    }
    let seconds = numeral(seconds)?;
    Ok(Command::Tick { seconds })
}

fn read(text: &[u8]) -> Result<Command, Refusal>
    ensures { result ≡ read_of (words_of text.now) }
{
    let (name, first, count) = span(text)?;
    Ok(Command::Read { name, first, count })
}

fn write(alloc: Global, text: &[u8]) -> Result<Command, Refusal>
    requires { length text.now ≤ 65536 }
    ensures { Gives result (write_of (words_of text.now)) }
{
    let (name, first, bytes) = patch(alloc, text)?;
    Ok(Command::Write { name, first, bytes })
}

fn flush(text: &[u8]) -> Result<Command, Refusal>
    ensures { result ≡ flush_of (words_of text.now) }
{
    let name = alone(text)?;
    Ok(Command::Flush { name })
}

fn start_read(device: &[u8], text: &[u8]) -> Result<Command, Refusal>
    ensures { result ≡ start_read_of (device.now ∷ words_of text.now) }
{
    let (name, first, count) = span_at(device, text)?;
    Ok(Command::StartRead { name, first, count })
}

fn start_write(alloc: Global, device: &[u8], text: &[u8]) -> Result<Command, Refusal>
    requires { length text.now ≤ 65536 }
    ensures { Gives result (start_write_of (device.now ∷ words_of text.now)) }
{
    let (name, first, bytes) = patch_at(alloc, device, text)?;
    Ok(Command::StartWrite { name, first, bytes })
}

fn start(alloc: Global, text: &[u8]) -> Result<Command, Refusal>
    requires { length text.now ≤ 65536 }
    ensures { Gives result (start_of (words_of text.now)) }
{
    let Some((device, rest)) = next_word(text) else {
        return Err(Refusal::BadTable);
    };
    let Some((kind, rest)) = next_word(rest) else {
        return Err(Refusal::BadTable);
    };
    if kind == b"read".as_slice() {
        start_read(device, rest)
    } else if kind == b"write".as_slice() {
        start_write(alloc, device, rest)
    } else {
        Err(Refusal::BadTable)
    }
}

fn step(text: &[u8]) -> Result<Command, Refusal>
    ensures { result ≡ step_of (words_of text.now) }
{
    let Some((volume, rest)) = next_word(text) else {
        return Err(Refusal::BadTable);
    };
    let volume = Name::new(volume)?;
    let event = event_in(rest)?;
    Ok(Command::Step { volume, event })
}

fn settle(text: &[u8]) -> Result<Command, Refusal>
    ensures { result ≡ settle_of (words_of text.now) }
{
    let volume = alone(text)?;
    Ok(Command::Settle { volume })
}

fn merge(text: &[u8]) -> Result<Command, Refusal>
    ensures { result ≡ merge_of (words_of text.now) }
{
    let name = alone(text)?;
    Ok(Command::Merge { name })
}

fn resume(text: &[u8]) -> Result<Command, Refusal>
    ensures { result ≡ resume_of (words_of text.now) }
{
    let volume = alone(text)?;
    Ok(Command::Resume { volume })
}

fn finish(text: &[u8]) -> Result<Command, Refusal>
    ensures { result ≡ finish_of (words_of text.now) }
{
    let volume = alone(text)?;
    Ok(Command::Finish { volume })
}

fn checkpoint(text: &[u8]) -> Result<Command, Refusal>
    ensures { result ≡ checkpoint_of (words_of text.now) }
{
    let volume = alone(text)?;
    Ok(Command::Checkpoint { volume })
}

fn stop(text: &[u8]) -> Result<Command, Refusal>
    ensures { result ≡ stop_of (words_of text.now) }
{
    let Some((volume, rest)) = next_word(text) else {
        return Err(Refusal::BadTable);
    };
    let Some((word, rest)) = next_word(rest) else {
        let volume = Name::new(volume)?;
        return Ok(Command::Stop { volume });
    };
    if word != b"lose".as_slice() || next_word(rest).is_some() {
        return Err(Refusal::BadTable);
    }
    let volume = Name::new(volume)?;
    Ok(Command::StopLosing { volume })
}

fn status(text: &[u8]) -> Result<Command, Refusal>
    ensures { result ≡ status_of (words_of text.now) }
{
    let name = alone(text)?;
    Ok(Command::Status { name })
}

fn table(text: &[u8]) -> Result<Command, Refusal>
    ensures { result ≡ table_of (words_of text.now) }
{
    let name = alone(text)?;
    Ok(Command::Table { name })
}

fn map(text: &[u8]) -> Result<Command, Refusal>
    ensures { result ≡ map_of (words_of text.now) }
{
    let name = alone(text)?;
    Ok(Command::Map { name })
}

// A command about a volume by its verb, and by the words of the text after it.
fn volume_command_by(alloc: Global, verb: &[u8], text: &[u8]) -> Result<Command, Refusal>
    requires { length text.now ≤ 65536 }
    ensures { Gives result (volume_command_of verb.now (words_of text.now)) }
{
    if verb == b"start".as_slice() {
        start(alloc, text)
    } else if verb == b"step".as_slice() {
        step(text)
    } else if verb == b"settle".as_slice() {
        settle(text)
    } else if verb == b"merge".as_slice() {
        merge(text)
    } else if verb == b"resume".as_slice() {
        resume(text)
    } else if verb == b"finish".as_slice() {
        finish(text)
    } else if verb == b"checkpoint".as_slice() {
        checkpoint(text)
    } else if verb == b"stop".as_slice() {
        stop(text)
    } else if verb == b"status".as_slice() {
        status(text)
    } else if verb == b"table".as_slice() {
        table(text)
    } else if verb == b"map".as_slice() {
        map(text)
    } else {
        Err(Refusal::BadTable)
    }
}

// A command by its verb, and by the words of the text after it.
fn command_by(alloc: Global, verb: &[u8], text: &[u8]) -> Result<Command, Refusal>
    requires { length text.now ≤ 65536 }
    ensures { Gives result (command_of (verb.now ∷ words_of text.now)) }
{
    if verb == b"disk".as_slice() {
        disk(text)
    } else if verb == b"create".as_slice() {
        create(alloc, text)
    } else if verb == b"remove".as_slice() {
        remove(text)
    } else if verb == b"load".as_slice() {
        load(alloc, text)
    } else if verb == b"save".as_slice() {
        save(text)
    } else if verb == b"copy".as_slice() {
        copy(text)
    } else if verb == b"ls".as_slice() {
        list(text)
    } else if verb == b"message".as_slice() {
        message(text)
    } else if verb == b"tick".as_slice() {
        tick(text)
    } else if verb == b"read".as_slice() {
        read(text)
    } else if verb == b"write".as_slice() {
        write(alloc, text)
    } else if verb == b"flush".as_slice() {
        flush(text)
    } else {
        volume_command_by(alloc, verb, text)
    }
}

/// The command that the words of a text say.
pub fn command_in(alloc: Global, text: &[u8]) -> Result<Command, Refusal>
    requires { length text.now ≤ 65536 }
    ensures { Gives result (command_of (words_of text.now)) }
{
    let Some((verb, rest)) = next_word(text) else {
        return Err(Refusal::BadTable);
    };
    command_by(alloc, verb, rest)
}
