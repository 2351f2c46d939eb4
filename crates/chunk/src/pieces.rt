// A range cut at the borders of chunks.
ghost use Rattle.std.specs.Prelude.{◌≡◌, ◌-◌, ◌%◌, ◌<◌, min};
ghost use Rattle.chunk.specs.Pieces.{span_of, pieces_of};

use sector::Range;
use std::marker::Model;

/// The pieces of a range that are still to come. Contracts see their list.
#[derive(Drop)]
pub struct Pieces {
    chunk: u32,
    rest: Range,
}

impl Model for Pieces {
    ghost use Rattle.std.specs.Prelude.{List, ◌<◌};
    ghost use Rattle.chunk.specs.Pieces.{Span};

    ghost Value = { List Span };

    ghost use Rattle.chunk.specs.Pieces.{span_of, pieces_of};

    ghost view = { λ p. pieces_of p.chunk (span_of p.rest) };

    ghost invariant = { λ p. 0 < p.chunk };
}

impl Pieces {
    pub(crate) fn new(chunk: u32, range: Range) -> Pieces
        requires { 0 < chunk }
        ensures { result ≡ pieces_of chunk (span_of range) }
    {
        Pieces { chunk, rest: range }
    }
}

// How many sectors of a range lie in the chunk where it begins.
fn front_count(chunk: u32, range: &Range) -> u32
    requires { 0 < chunk }
    ensures { result ≡ min range.now.count (chunk - range.now.first % chunk) }
{
    let room = chunk - (range.first % u64::from(chunk)) as u32;
    range.count.min(room)
}

impl Iterator for Pieces {
    ghost use Rattle.std.specs.Iterator.{YieldsFirstBy, item_count};
    ghost use Rattle.chunk.specs.Pieces.{span_of};

    type Item = Range;

    ghost next_gives = { YieldsFirstBy span_of (λ pieces. pieces) };

    ghost remaining = { item_count (λ pieces. pieces) };

    #[tactic(auto, using(crate::proofs::Cuts::pieces_none, crate::proofs::Cuts::pieces_first))]
    fn next(&mut self) -> Option<Range> {
        let Range { first, count, size } = self.rest;
        if count == 0 {
            return None;
        }
        let here = front_count(self.chunk, &self.rest);
        self.rest = Range {
            first: first + u64::from(here),
            count: count - here,
            size,
        };
        Some(Range {
            first,
            count: here,
            size,
        })
    }
}
