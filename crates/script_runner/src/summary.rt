// How many lines were printed, and of which kind.
ghost use Rattle.std.specs.Prelude.{◌≡◌, []};
ghost use Rattle.script_runner.specs.Counts.{more, is_refused, refuses_with, summary_of, with_lines, with_reply};
ghost use Rattle.script_runner.specs.Output.{answered, counted};

use command_replies::CommandReply;
use sector::Refusal;

/// How many lines were printed. Each number stops at 2^64 - 1.
#[derive(Clone, Copy, PartialEq, Eq)]
pub struct Summary {
    /// All lines.
    pub lines: u64,
    /// Those that begin with `err`.
    pub refused: u64,
    /// Those that answer that memory ran out: `err 5 NoMemory`.
    pub no_memory: u64,
    /// Those that answer that the journal is full: `err 20 JournalFull`.
    pub journal_full: u64,
}

/// One more, where it counts.
fn more(counts: bool, number: u64) -> u64
    ensures { result ≡ more counts number }
{
    if counts {
        number.saturating_add(1)
    } else {
        number
    }
}

/// Whether a reply is a refusal.
fn is_refused(reply: &CommandReply) -> bool
    ensures { result ≡ is_refused reply.now }
{
    matches!(reply, CommandReply::Refused(_))
}

/// Whether a reply is the refusal of this number.
fn refuses_with(number: u8, reply: &CommandReply) -> bool
    ensures { result ≡ refuses_with number reply.now }
{
    match reply {
        CommandReply::Refused(refusal) => refusal.number() == number,
        _ => false,
    }
}

impl Summary {
    /// Nothing was printed yet.
    #[tactic(auto, unfolding(crate::specs::Counts::summary_of))]
    pub fn of_nothing() -> Summary
        ensures { result ≡ summary_of [] }
    {
        Summary {
            lines: 0,
            refused: 0,
            no_memory: 0,
            journal_full: 0,
        }
    }

    /// One more line, that of a reply.
    pub fn with(self, reply: &CommandReply) -> Summary
        ensures { result ≡ with_reply reply.now self }
    {
        Summary {
            lines: more(true, self.lines),
            refused: more(is_refused(reply), self.refused),
            no_memory: more(
                refuses_with(Refusal::NoMemory.number(), reply),
                self.no_memory,
            ),
            journal_full: more(
                refuses_with(Refusal::JournalFull.number(), reply),
                self.journal_full,
            ),
        }
    }

    /// One more line for each reply.
    pub fn with_all(self, replies: &[CommandReply]) -> Summary
        ensures { result ≡ counted replies.now self }
    {
        let mut summary = self;
        for reply in replies {
            summary = summary.with(reply);
        }
        summary
    }

    /// So many more lines, none of which is a refusal.
    pub fn with_lines(self, count: usize) -> Summary
        ensures { result ≡ with_lines count self }
    {
        Summary {
            lines: self.lines.saturating_add(count as u64),
            ..self
        }
    }

    /// One more line, if there is one.
    pub fn with_own(self, own: &Option<CommandReply>) -> Summary
        ensures { result ≡ counted (answered own.now) self }
    {
        match own {
            None => self,
            Some(reply) => self.with(reply),
        }
    }
}
