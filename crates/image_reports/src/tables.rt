// The lines of tables that a kernel is given.
ghost use Rattle.std.specs.Prelude.{◌≡◌, ◌++◌, IfOk, OnOk};
ghost use Rattle.image_reports.specs.Tables.{line_front, store_line, tables_text};

use crate::names::push_table_name;
use cow_reports::push_number;
use std::alloc::{AllocError, Global};

/// What `table` prints of an origin of so many sectors, and of a store with chunks of so many.
pub fn table_lines(
    alloc: Global,
    size: u64,
    origin: &str,
    cow: &str,
    chunk: u32,
) -> Result<Vec<u8>, AllocError>
    ensures { IfOk result (λ text. text.items ≡ tables_text size origin.now cow.now chunk) }
{
    let mut text = Vec::new(alloc);
    push_front(&mut text, size, b" snapshot-origin ", origin)?;
    text.extend_from_slice(b"\n")?;
    push_store_line(&mut text, size, b" snapshot ", origin, cow, chunk)?;
    push_store_line(&mut text, size, b" snapshot-merge ", origin, cow, chunk)?;
    Ok(text)
}

/// Adds what a line begins with.
fn push_front(text: &mut Vec<u8>, size: u64, target: &[u8], origin: &str) -> Result<(), AllocError>
    ensures { OnOk result (text.new.items ≡ text.old.items ++ line_front size target.now origin.now) }
{
    text.extend_from_slice(b"0 ")?;
    push_number(text, size)?;
    text.extend_from_slice(target)?;
    push_table_name(text, origin.as_bytes())
}

/// Adds the line of a target that has a store.
fn push_store_line(
    text: &mut Vec<u8>,
    size: u64,
    target: &[u8],
    origin: &str,
    cow: &str,
    chunk: u32,
) -> Result<(), AllocError>
    ensures { OnOk result (text.new.items ≡ text.old.items ++ store_line size target.now origin.now cow.now chunk) }
{
    push_front(text, size, target, origin)?;
    text.extend_from_slice(b" ")?;
    push_table_name(text, cow.as_bytes())?;
    text.extend_from_slice(b" P ")?;
    push_number(text, chunk as u64)?;
    text.extend_from_slice(b"\n")
}
