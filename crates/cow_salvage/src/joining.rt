// Sectors are joined to spans.
ghost use Rattle.std.specs.Prelude.{◌≡◌, ℕ, ◌+◌, ◌<◌, ◌++◌, [], ◌∷◌, Bool, true, OnOk};
ghost use Rattle.cow_salvage.specs.declared.span.Span.{Span};
ghost use Rattle.cow_salvage.specs.Spans.{AreMarked};

use crate::Span;
use std::alloc::AllocError;

/// Adds a marked sector behind those that are told: to the last span, where it follows that.
pub(crate) fn add_sector(spans: &mut Vec<Span>, sector: u64) -> Result<(), AllocError>
    requires small { sector < 68_719_476_736 }
    ensures added { OnOk result ((mark : ℕ → Bool) → AreMarked mark sector spans.old.items → mark sector ≡ true → AreMarked mark (sector + 1) spans.new.items) }
{
    match spans.pop() {
        None => push_sector(spans, sector),
        Some(last) => if last.first + last.count == sector {
            let first = last.first;
            let count = last.count + 1;
            spans.push(Span { first, count })?;
            Ok(())
        } else {
            spans.push(last)?;
            push_sector(spans, sector)?;
            Ok(())
        },
    }
}

/// Adds a span of one sector.
fn push_sector(spans: &mut Vec<Span>, sector: u64) -> Result<(), AllocError>
    requires small { sector < 68_719_476_736 }
    ensures added { OnOk result ((span : Span) × (span.first ≡ sector) × (span.count ≡ 1) × (spans.new.items ≡ spans.old.items ++ span ∷ [])) }
{
    let first = sector;
    let count = 1;
    spans.push(Span { first, count })?;
    Ok(())
}
