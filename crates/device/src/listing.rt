// A list of sectors grows.
ghost use Rattle.std.specs.Prelude.{◌≡◌, ◌+◌, ◌<◌, ◌≤◌, ◌++◌, length, vec_capacity};
ghost use Rattle.std.specs.List.{range_with_len};
ghost use Rattle.device.specs.Listed.{listed};
ghost use Rattle.device.specs.Changes.{GainsRoom};

use crate::span::Span;

/// Lists sectors after those that are listed: where they follow the last of them, as part of its span. It takes no
/// memory.
#[inline(always)]
pub fn list(spans: &mut Vec<Span>, first: usize, count: usize)
    requires some { 1 ≤ count }
    requires inside { first + count ≤ 16_777_216 }
    requires room { length spans.old.items < vec_capacity spans.old }
    ensures listed { listed spans.new.items ≡ listed spans.old.items ++ range_with_len first count }
    ensures room { GainsRoom spans.old spans.new }
{
    let len = spans.len();
    if len > 0 {
        let last = spans[len - 1];
        if last.first as usize + last.count as usize == first {
            spans[len - 1] = Span {
                first: last.first,
                count: last.count + count as u32,
            };
            return;
        }
    }
    spans.push_reserved(Span {
        first: first as u32,
        count: count as u32,
    });
}
