// Members that begin and end the objects of lists.
ghost use Rattle.std.specs.Prelude.{◌≡◌, ◌/◌, ◌%◌, ◌<◌, ◌++◌, OnOk, codes};
ghost use Rattle.cow_reports.specs.Items.{first_member, first_quoted, number_object, pair_end, slot_members};

use crate::json::push_member;
use crate::text::push_number;
use sector::Pair;
use std::alloc::AllocError;

/// Begins an object with a key and a number.
pub fn push_first(text: &mut Vec<u8>, key: &[u8], number: u64) -> Result<(), AllocError>
    ensures { OnOk result (text.new.items ≡ text.old.items ++ first_member key.now number) }
{
    text.extend_from_slice(b"{\"")?;
    text.extend_from_slice(key)?;
    text.extend_from_slice(b"\":")?;
    push_number(text, number)
}

/// Begins an object with a key and a text.
pub(crate) fn push_first_quoted(
    text: &mut Vec<u8>,
    key: &[u8],
    value: &[u8],
) -> Result<(), AllocError>
    ensures { OnOk result (text.new.items ≡ text.old.items ++ first_quoted key.now value.now) }
{
    text.extend_from_slice(b"{\"")?;
    text.extend_from_slice(key)?;
    text.extend_from_slice(b"\":\"")?;
    text.extend_from_slice(value)?;
    text.extend_from_slice(b"\"")
}

/// Adds an object of a key and a number.
pub fn push_number_json(text: &mut Vec<u8>, key: &[u8], number: u64) -> Result<(), AllocError>
    ensures { OnOk result (text.new.items ≡ text.old.items ++ number_object key.now number) }
{
    push_first(text, key, number)?;
    text.extend_from_slice(b"}\n")
}

/// Ends an object with a pair's chunks.
pub(crate) fn push_pair_end(text: &mut Vec<u8>, pair: Pair) -> Result<(), AllocError>
    ensures { OnOk result (text.new.items ≡ text.old.items ++ pair_end pair) }
{
    push_member(text, b"old", pair.old)?;
    push_member(text, b"new", pair.new)?;
    text.extend_from_slice(b"}\n")
}

/// Adds the members of a slot's place, in a store whose areas have so many.
pub(crate) fn push_slot_members(text: &mut Vec<u8>, slots: u64, slot: u64) -> Result<(), AllocError>
    requires { 0 < slots }
    ensures { OnOk result (text.new.items ≡ text.old.items ++ slot_members slots slot) }
{
    push_member(text, b"area", slot / slots)?;
    push_member(text, b"slot", slot % slots)
}
