// What a merge left.
ghost use Rattle.std.specs.Prelude.{◌≡◌, ◌++◌, OnOk, codes};
ghost use Rattle.cow_reports.specs.Left.{left_text, left_object};

use crate::json::{push_member, push_usage as push_usage_members};
use crate::members::push_first;
use crate::showing::push_usage;
use crate::text::push_line;
use cow_image::CowMap;
use std::alloc::AllocError;

/// Adds how many pairs a merge took away, how many are left, and the store's status.
pub fn push_left_lines(
    text: &mut Vec<u8>,
    gone: u64,
    left: u64,
    map: &CowMap,
) -> Result<(), AllocError>
    ensures { OnOk result (text.new.items ≡ text.old.items ++ left_text gone left map.now) }
{
    push_line(text, b"merged", gone)?;
    push_line(text, b"left", left)?;
    push_usage(text, map)
}

/// The same as an object.
pub fn push_left_json(
    text: &mut Vec<u8>,
    gone: u64,
    left: u64,
    map: &CowMap,
) -> Result<(), AllocError>
    ensures { OnOk result (text.new.items ≡ text.old.items ++ left_object gone left map.now) }
{
    push_first(text, b"merged", gone)?;
    push_member(text, b"left", left)?;
    push_usage_members(text, map)?;
    text.extend_from_slice(b"}\n")
}
