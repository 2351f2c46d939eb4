// A block whose lines are taken one by one.
ghost use Rattle.std.specs.Prelude.{◌≡◌, ◌≢◌, true, [], Some, None};
ghost use Rattle.sector.specs.declared.refusal.Refusal.TheVariants.{NoMemory};
ghost use Rattle.command.specs.Blocks.{AreSeats, ends_block, opened, with_line, worse};

use crate::opening::Opening;
use crate::seat_line::SeatLine;
use crate::{LINE_LIMIT, Said, said_by};
use sector::Refusal;
use std::alloc::Global;
use std::marker::Model;

/// The lines of a block, in order. Contracts see its opening, what the lines say, and its refusal.
#[derive(Drop)]
pub struct LineBlock {
    opening: Opening,
    lines: Vec<SeatLine>,
    refusal: Option<Refusal>,
}

impl Model for LineBlock {
    ghost use Rattle.command.specs.Blocks.{Lines};

    ghost Value = { Lines };

    ghost view = { λ b. record { opening = b.opening; lines = b.lines.items; refusal = b.refusal } };

    ghost use Rattle.command.specs.Blocks.{AreSeats};

    ghost invariant = { λ b. AreSeats b.lines.items };
}

/// A refusal after an earlier one: want of memory stays.
fn worse(refusal: Option<Refusal>, new: Refusal) -> Option<Refusal>
    ensures { result ≡ worse refusal new }
{
    match refusal {
        Some(Refusal::NoMemory) => refusal,
        _ => Some(new),
    }
}

impl LineBlock {
    /// A block without lines. It takes no memory.
    pub fn new(alloc: Global, opening: Opening) -> LineBlock
        ensures { result ≡ opened opening }
    {
        LineBlock {
            opening,
            lines: Vec::new(alloc),
            refusal: None,
        }
    }

    /// Takes the next line, given without its end, and tells whether it ends the block. A line of another form than those of
    /// a block is its refusal from then on, and so is want of memory, which stays whatever comes.
    #[tactic(auto, unfolding(crate::specs::Blocks::with_line, crate::specs::Blocks::ends_block, crate::specs::Lines::said_in))]
    pub fn take(&mut self, alloc: Global, line: &[u8]) -> bool
        ensures ends { result ≡ ends_block line.now }
        ensures ended { result ≡ true → self.new ≡ self.old }
        ensures taken { self.new.refusal ≢ Some NoMemory → self.new ≡ with_line line.now self.old }
        ensures starved { self.old.refusal ≡ Some NoMemory → self.new.refusal ≡ Some NoMemory }
    {
        match said_by(alloc, line, LINE_LIMIT) {
            Ok(Said::Nothing) => false,
            Ok(Said::End) => true,
            Ok(Said::Line(line)) => {
                if self.lines.push(line).is_err() {
                    self.refusal = worse(self.refusal, Refusal::NoMemory);
                }
                false
            }
            Err(refusal) => {
                self.refusal = worse(self.refusal, refusal);
                false
            }
        }
    }

    /// Why none of its lines is run: `NoMemory` where memory ran out for one of them, else `BadTable` where one is of another
    /// form.
    pub fn refusal(&self) -> Option<Refusal>
        ensures { result ≡ self.now.refusal }
    {
        self.refusal
    }

    /// Its opening.
    pub fn opening(&self) -> Opening
        ensures { result ≡ self.now.opening }
    {
        self.opening
    }

    /// Its lines.
    pub fn lines(&self) -> &[SeatLine]
        ensures lines { result.now ≡ self.now.lines }
        ensures seats { AreSeats result.now }
    {
        &self.lines
    }

    /// Its lines, by value.
    pub fn into_lines(self) -> Vec<SeatLine>
        ensures lines { result.items ≡ self.lines }
        ensures seats { AreSeats result.items }
    {
        self.lines
    }
}
