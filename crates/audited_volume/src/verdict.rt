// What a journal says of a receipt.
ghost use Rattle.std.specs.Prelude.{◌≡◌, ◌≢◌, IfNone, IfOk, IfSome, MatchBool, None, Some, slice_get};
ghost use Rattle.audited_volume.specs.Entries.{HasVerdict, entries_by};

use crate::entry::{Answered, Entry, Receipt, Verdict};
use plain_machine::Request;
use sector::Range;
use std::alloc::{AllocError, Global};

/// Whether both ask the same.
pub(crate) fn is_same(one: &Request, other: &Request) -> bool
    ensures { MatchBool result (one.now ≡ other.now) (one.now ≢ other.now) }
{
    if one.dev != other.dev || !is_same_range(one.range, other.range) {
        return false;
    }
    one.op.is_same(&other.op)
}

/// Whether both are the same sectors of as large a device.
fn is_same_range(one: Range, other: Range) -> bool
    ensures { MatchBool result (one ≡ other) (one ≢ other) }
{
    one.first == other.first && one.count == other.count && one.size == other.size
}

/// Another that asks the same.
pub(crate) fn copy(request: &Request, alloc: Global) -> Result<Request, AllocError>
    ensures { IfOk result (λ r. r ≡ request.now) }
{
    Ok(Request {
        dev: request.dev,
        op: request.op.copy(alloc)?,
        range: request.range,
    })
}

/// The seat's request entry with this number, from 0.
fn nth_of(entries: &[Entry], seat: u8, number: u64) -> Option<&Answered>
    ensures some { IfSome result (λ a. (slice_get (entries_by seat entries.now) number ≡ Some a.now) × (a.now.seat ≡ seat)) }
    ensures none { IfNone result (slice_get (entries_by seat entries.now) number ≡ None) }
{
    let mut left = number;
    for entry in entries {
        let Entry::Answered(answered) = entry else {
            continue;
        };
        if answered.seat == seat {
            if left == 0 {
                return Some(answered);
            }
            left -= 1;
        }
    }
    None
}

/// What a journal with these entries says of a receipt, where so many of the seat's were folded.
pub(crate) fn verdict_of(entries: &[Entry], folded: u64, receipt: &Receipt) -> Verdict
    ensures { HasVerdict folded entries.now receipt.now result }
{
    if receipt.count == 0 {
        return Verdict::Differs;
    }
    if receipt.count <= folded {
        return Verdict::Folded;
    }
    let Some(entry) = nth_of(entries, receipt.seat, receipt.count - folded - 1) else {
        return Verdict::Differs;
    };
    if is_same(&entry.request, &receipt.request) && entry.reply.is_same(&receipt.reply) {
        Verdict::Agrees
    } else {
        Verdict::Differs
    }
}
