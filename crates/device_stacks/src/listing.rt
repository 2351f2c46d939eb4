// Devices as `ls` lists them.
ghost use Rattle.std.specs.Prelude.{◌≡◌, ◌++◌, IfErr, OnOk};
ghost use Rattle.sector.specs.declared.refusal.Refusal.TheVariants.{NoMemory};
ghost use Rattle.command_semantics.specs.Listing.{device_item, kind_text, stack_items};
ghost use Rattle.command_semantics.specs.Stacks.{device_of};

use crate::lines::line_in;
use layers::Stack;
use sector::Refusal;
use table::{Line, print};
use words::Name;

/// Adds some text. The one error is `NoMemory`.
fn add(out: &mut Vec<u8>, text: &[u8]) -> Result<(), Refusal>
    ensures added { OnOk result (out.new.items ≡ out.old.items ++ text.now) }
    ensures error { IfErr result (λ e. e ≡ NoMemory) }
{
    out.extend_from_slice(text).map_err(|_| Refusal::NoMemory)
}

/// Adds what a device is: its table line, or that it is a disk.
fn add_kind(out: &mut Vec<u8>, line: Result<Line, Refusal>) -> Result<(), Refusal>
    ensures added { OnOk result (out.new.items ≡ out.old.items ++ kind_text line) }
    ensures error { IfErr result (λ e. e ≡ NoMemory) }
{
    match line {
        Ok(line) => print(&line, out),
        Err(_) => add(out, b"disk"),
    }
}

/// Adds a device, by its name and its table line; a disk has none. The one error is `NoMemory`.
#[tactic(auto, using(crate::proofs::Listed::more))]
pub fn add_device(
    out: &mut Vec<u8>,
    name: &Name,
    line: Result<Line, Refusal>,
) -> Result<(), Refusal>
    ensures added { OnOk result (out.new.items ≡ out.old.items ++ device_item name.now line) }
    ensures error { IfErr result (λ e. e ≡ NoMemory) }
{
    add(out, b"; ")?;
    add(out, name.as_slice())?;
    add(out, b" ")?;
    add_kind(out, line)
}

/// Adds the devices of a stack with these names, from the top. The one error is `NoMemory`.
#[tactic(auto, using(crate::proofs::Listed::next_item, crate::proofs::Listed::no_item))]
pub fn add_stack(out: &mut Vec<u8>, names: &[Name], stack: &Stack) -> Result<(), Refusal>
    ensures added { OnOk result (out.new.items ≡ out.old.items ++ stack_items names.now (device_of stack.now)) }
    ensures error { IfErr result (λ e. e ≡ NoMemory) }
{
    for depth in 0..names.len() {
        add_device(out, &names[depth], line_in(depth, names, stack))?;
    }
    Ok(())
}
