// The item of a merge.
ghost use Rattle.std.specs.Prelude.{◌≡◌, ◌++◌, IfOk, OnOk, codes, decimal};
ghost use Rattle.volume_trace.specs.Merging.{merge_item, state_words};

use crate::items::add_item;
use itoa::Buffer;
use std::alloc::{AllocError, Global};
use table::StatusState;
use words::{Name, Text};

/// Adds a number.
fn add_number(out: &mut Vec<u8>, number: u64) -> Result<(), AllocError>
    ensures { OnOk result (out.new.items ≡ out.old.items ++ decimal number) }
{
    let mut buffer = Buffer::new();
    out.extend_from_slice(buffer.format(number).as_bytes())
}

/// Adds what is in use of a store.
fn add_used(out: &mut Vec<u8>, allocated: u64, total: u64, metadata: u64) -> Result<(), AllocError>
    ensures { OnOk result (out.new.items ≡ out.old.items ++ (decimal allocated ++ codes "/" ++ decimal total ++ codes " " ++ decimal metadata)) }
{
    add_number(out, allocated)?;
    out.extend_from_slice(b"/")?;
    add_number(out, total)?;
    out.extend_from_slice(b" ")?;
    add_number(out, metadata)
}

/// Adds how far a merge is.
fn add_state(out: &mut Vec<u8>, state: StatusState) -> Result<(), AllocError>
    ensures { OnOk result (out.new.items ≡ out.old.items ++ state_words state) }
{
    match state {
        StatusState::Invalid => out.extend_from_slice(b"Invalid"),
        StatusState::Failed => out.extend_from_slice(b"failed"),
        StatusState::Overflow => out.extend_from_slice(b"Overflow"),
        StatusState::Used {
            allocated,
            total,
            metadata,
        } => add_used(out, allocated, total, metadata),
    }
}

/// The item of a merge that is so far, under the name of the snapshot that is merged. An error says that the allocator refused room.
pub fn merge_item(alloc: Global, name: &Name, state: StatusState) -> Result<Text, AllocError>
    ensures { IfOk result (λ text. text ≡ merge_item name.now state) }
{
    let mut item = Vec::new(alloc);
    add_item(&mut item, &[b"merge".as_slice(), name.as_slice()])?;
    item.extend_from_slice(b" ")?;
    add_state(&mut item, state)?;
    Ok(Text::from_vec(item))
}
