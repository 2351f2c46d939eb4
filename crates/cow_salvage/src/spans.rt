// Whether a sector stands in one of some spans.
ghost use Rattle.std.specs.Prelude.{◌≡◌};
ghost use Rattle.cow_salvage.specs.Spans.{is_in as is_in_spans};

use crate::Span;

/// Whether a sector stands in one of these spans.
pub fn is_in(spans: &[Span], sector: u64) -> bool
    ensures { result ≡ is_in_spans spans.now sector }
{
    spans.iter().any(|span| span.first <= sector && sector - span.first < span.count)
}
