// The lines of layers that may fail.
ghost use Rattle.std.specs.Prelude.{◌≡◌, ◌++◌, OnOk};
ghost use Rattle.words.specs.Texts.{texts};
ghost use Rattle.layers.specs.Layer.{dust_layer, flakey_layer};
ghost use Rattle.layers.specs.Stack.{stack_layers};
ghost use Rattle.volume_trace.specs.Layers.{flakey_word, dust_word, layer_line, layer_text, layers_text};

use crate::items::add_item;
use itoa::Buffer;
use layers::{Dust, Flakey, Stack};
use std::alloc::AllocError;
use words::Name;

/// Adds the line of a layer: its name, and its one item.
fn add_line(out: &mut Vec<u8>, name: &Name, words: &[&[u8]]) -> Result<(), AllocError>
    ensures { OnOk result (out.new.items ≡ out.old.items ++ layer_line name.now (texts words.now)) }
{
    out.extend_from_slice(name.as_slice())?;
    add_item(out, words)?;
    out.push(b'\n')?;
    Ok(())
}

/// The word for whether a flakey layer passes all.
fn flakey_word(flakey: &Flakey) -> &'static [u8]
    ensures { result.now ≡ flakey_word flakey.now.moment flakey.now.up }
{
    if flakey.moment < u64::from(flakey.up) {
        b"up"
    } else {
        b"down"
    }
}

/// Adds a flakey layer that is down at times: whether it is down, and at which second of how many.
fn add_flakey(out: &mut Vec<u8>, name: &Name, flakey: &Flakey) -> Result<(), AllocError>
    ensures { OnOk result (out.new.items ≡ out.old.items ++ layer_text name.now (flakey_layer flakey.now)) }
{
    if flakey.down == 0 {
        return Ok(());
    }
    let mut moment_buffer = Buffer::new();
    let mut whole_buffer = Buffer::new();
    let moment = moment_buffer.format(flakey.moment).as_bytes();
    let whole = whole_buffer
        .format(u64::from(flakey.up) + u64::from(flakey.down))
        .as_bytes();
    add_line(
        out,
        name,
        &[
            b"flakey".as_slice(),
            flakey_word(flakey),
            moment,
            b"of",
            whole,
        ],
    )
}

/// The word for whether a dust layer fails reads of bad blocks.
fn dust_word(enabled: bool) -> &'static [u8]
    ensures { result.now ≡ dust_word enabled }
{
    if enabled { b"enabled" } else { b"disabled" }
}

/// Adds a dust layer that is enabled or has a bad block: whether it is enabled, and how many of its blocks are bad.
fn add_dust(out: &mut Vec<u8>, name: &Name, dust: &Dust) -> Result<(), AllocError>
    ensures { OnOk result (out.new.items ≡ out.old.items ++ layer_text name.now (dust_layer dust.now)) }
{
    if !dust.enabled && dust.bad.is_empty() {
        return Ok(());
    }
    let mut buffer = Buffer::new();
    let bad = buffer.format(dust.bad.len() as u64).as_bytes();
    add_line(
        out,
        name,
        &[b"dust".as_slice(), dust_word(dust.enabled), bad, b"bad"],
    )
}

/// Adds the layers of a stack that may fail, by these names, from the top.
#[tactic(auto, using(crate::proofs::Named::none_named))]
pub fn add_layers(out: &mut Vec<u8>, names: &[Name], stack: &Stack) -> Result<(), AllocError>
    ensures { OnOk result (out.new.items ≡ out.old.items ++ layers_text (stack_layers stack.now) names.now) }
{
    let Some((name, names)) = names.split_first() else {
        return Ok(());
    };
    match stack {
        Stack::Disk(_) | Stack::Error(_) => Ok(()),
        Stack::Flakey(flakey, below) => {
            add_flakey(out, name, flakey)?;
            add_layers(out, names, below)
        }
        Stack::Dust(dust, below) => {
            add_dust(out, name, dust)?;
            add_layers(out, names, below)
        }
    }
}
