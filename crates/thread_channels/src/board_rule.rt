// The rule of a board's word, and what each step tells of it.

use crate::usage::PlaceUsage;
use atomic_table::{Join, Play, Split, TableRule};
use std::collections::LinkedList;

// What a pass knows. No value of it is made. A publisher has seen all publications, another a beginning of them; `taken`
// is what a pass that it took in had seen.
pub struct View {
    pub publishes: bool,
    pub seen: LinkedList<PlaceUsage>,
    pub taken: LinkedList<PlaceUsage>,
}

// The word is the last publication.
pub struct Grows;

impl TableRule<(), View, ()> for Grows {
    ghost use Rattle.thread_channels.specs.Growth.{Growing, opening_view};

    ghost holds = { λ k. Growing };

    ghost first = { λ k. opening_view };
}

pub struct Publishes;

impl Play<(), View> for Publishes {
    ghost use Rattle.thread_channels.specs.Growth.{Adds};

    ghost then = { Adds };
}

pub struct Reads;

impl Play<(), View> for Reads {
    ghost use Rattle.thread_channels.specs.Growth.{Sees};

    ghost then = { Sees };
}

// A second pass, which has seen as much and publishes nothing.
pub struct Another;

impl Split<View> for Another {
    ghost use Rattle.thread_channels.specs.Growth.{reader};

    ghost left = { λ v. v };

    ghost right = { λ v. reader v.seen };
}

// A pass takes in what another has seen.
pub struct Takes;

impl Join<View> for Takes {
    ghost use Rattle.thread_channels.specs.Growth.{reader, taking};
    ghost use Rattle.std.specs.Prelude.{[]};

    ghost both = { taking };

    ghost spent = { reader [] };
}
