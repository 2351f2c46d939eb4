// Who is told behind each line.
ghost use Rattle.std.specs.Prelude.{◌≡◌, OnOk, List, ℕ, true, ⊤};
ghost use Rattle.std.specs.Io.KnownBytes.{Appends, Keeps};
ghost use Rattle.script_runner.specs.Numbered.{numbered};
ghost use Rattle.script_runner.specs.Sessions.{Sitting};
ghost use Rattle.script_runner.specs.Told.{TellsIfThere};
ghost use Rattle.script_runner.specs.Traced.{IsTrace};

use crate::error::RunError;
use crate::numbering::print_numbered;
use crate::session::Session;
use std::io::Write;

/// Who is told of each line of a text, once it is done and its answers are with the writer.
pub trait Tracer {
    /// What it says of being told of a line: what it was, the line's number, what stands behind the line, and what it is then.
    ghost tells: { Self → ℕ → Sitting → Self → Type 0 };

    /// Tells of a line, by its number and its bytes, as far as these were kept. What it is told, and that it fails, changes nothing of
    /// the run: it may write out what the writer holds, and no more.
    fn behind<W: Write>(&mut self, number: u64, line: &[u8], session: &Session, writer: &mut W)
        ensures tells { tells self.old number session.now self.new }
        ensures kept { Keeps (W.contents writer.old) (W.contents writer.new) };
}

/// Nobody is told.
#[derive(Drop)]
pub struct Untraced;

impl Tracer for Untraced {
    ghost tells = { λ before number sitting after. ⊤ };

    fn behind<W: Write>(
        &mut self,
        _number: u64,
        _line: &[u8],
        _session: &Session,
        _writer: &mut W,
    ) {}
}

/// Who may not be there: then nobody is told.
impl<X: Tracer> Tracer for Option<X> {
    ghost tells = { TellsIfThere X.tells };

    #[inline(always)]
    fn behind<W: Write>(&mut self, number: u64, line: &[u8], session: &Session, writer: &mut W) {
        if let Some(tracer) = self {
            tracer.behind(number, line, session, writer);
        }
    }
}

/// Two who are told, one after the other.
#[derive(Drop)]
pub struct Both<X: Tracer, Y: Tracer> {
    pub first: X,
    pub second: Y,
}

impl<X: Tracer, Y: Tracer> Tracer for Both<X, Y> {
    ghost use Rattle.script_runner.specs.Both.{TellsBoth};

    ghost tells = { TellsBoth X.tells Y.tells };

    #[inline(always)]
    #[tactic(auto, using(words::proofs::Known::keeps_more))]
    fn behind<W: Write>(&mut self, number: u64, line: &[u8], session: &Session, writer: &mut W) {
        self.first.behind(number, line, session, writer);
        self.second.behind(number, line, session, writer);
    }
}

/// A writer is told what is in flight in each volume, how far its merge is and which events are due, and what layers are at that may
/// fail (`trace`), behind what the line answers.
#[derive(Drop)]
pub struct TraceTo<X: Write> {
    pub writer: X,
    /// Whether all was told so far: memory was there, and the writer took it.
    pub is_whole: bool,
}

impl<X: Write> TraceTo<X> {
    /// A trace to this writer, of which nothing is told yet.
    pub fn new(writer: X) -> TraceTo<X>
        ensures { result ≡ record { writer = writer; is_whole = true } }
    {
        TraceTo {
            writer,
            is_whole: true,
        }
    }
}

impl<X: Write> Tracer for TraceTo<X> {
    // Where it is whole then, it was before, and these are the lines of all volumes and layers, one after the other, each with the number.
    ghost tells = { λ before number sitting after. after.is_whole ≡ true → (before.is_whole ≡ true) × ((page : List ℕ) × IsTrace page sitting.desk.table × Appends (X.contents before.writer) (X.contents after.writer) (numbered number page)) };

    #[inline(never)]
    fn behind<W: Write>(&mut self, number: u64, _line: &[u8], session: &Session, writer: &mut W) {
        write_out(writer);
        match trace(&mut self.writer, number, session) {
            Ok(()) => {}
            Err(_) => self.is_whole = false,
        }
    }
}

/// Tells a writer of all volumes and layers, with the line's number before each line. The error is
/// `RunError::Memory`, and then nothing is told, or the writer's own.
fn trace<X: Write>(tracer: &mut X, number: u64, session: &Session) -> Result<(), RunError>
    ensures told { OnOk result ((page : List ℕ) × IsTrace page session.now.desk.table × Appends (X.contents tracer.old) (X.contents tracer.new) (numbered number page)) }
{
    let page = session.traced().map_err(|_| RunError::Memory)?;
    print_numbered(tracer, number, &page)?;
    tracer.flush().map_err(RunError::of_writer)
}

/// Writes out what a writer holds, where it can: what a line answers comes before what is told behind it. An error comes again
/// where the next line is asked for.
pub fn write_out<W: Write>(writer: &mut W)
    ensures kept { Keeps (W.contents writer.old) (W.contents writer.new) }
{
    let _ = writer.flush();
}
