// Sectors that follow one another.
ghost use Rattle.std.specs.Prelude.{◌+◌, ◌≤◌};

/// So many sectors from one on.
#[derive(Clone, Copy)]
pub struct Span {
    pub first: u32,
    pub count: u32,
    ghost some: { 1 ≤ count },
    ghost inside: { first + count ≤ 16_777_216 },
}
