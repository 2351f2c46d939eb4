// A client is served.
ghost use Rattle.std.specs.Prelude.{◌≡◌, ℕ, List, false, IfOk, IfSome, None, OnOk, Some};
ghost use Rattle.std.specs.Io.KnownBytes.{Appends, IsAtEnd};
ghost use Rattle.nbd_backend.specs.Calls.{Call, Called, CallsTo};
ghost use Rattle.nbd_write_session.specs.Asked.{IsOver};
ghost use Rattle.nbd_write_session.specs.Moved.{IsClear, Moves, MovesCalling, MovesHearing, StaysFree};
ghost use Rattle.nbd_write_session.specs.Reached.{Reached};
ghost use Rattle.nbd_write_session.specs.Session.{IsSession};
ghost use Rattle.nbd_write_session.specs.Stream.{left};
ghost use Rattle.nbd_write_session.specs.Took.{IsOverAt};
ghost use Rattle.nbd_write_session.specs.declared.ended.Finish.TheVariants.{Client};

use crate::ended::{Ended, Finish};
use crate::input::Input;
use crate::line::Line;
use crate::options::chosen;
use crate::taking::Took;
use nbd_backend::{Array, Stepped};
use nbd_options::Export;
use std::alloc::Global;
use std::io::{Read, Write};

/// Where so many requests are not answered, no rest of another one is waited for.
const MOST_HEARD: usize = 64;

/// So many steps are done before the client is heard, where nothing of it is open.
const MOST_IDLE: usize = 16;

impl Line {
    /// Does something for which no request waits. `false` where nothing is left to do.
    fn idle_step<A: Array>(&mut self, array: &mut A) -> bool
        ensures moves { CallsTo A.does array.old array.new (MovesCalling self.old self.new) }
        ensures input { self.new.input ≡ self.old.input }
        ensures size { self.new.size ≡ self.old.size }
        ensures out { self.new.out.items ≡ self.old.out.items }
        ensures none { StaysFree self.old self.new }
    {
        match array.step() {
            Stepped::Still => false,
            Stepped::Ended => false,
            Stepped::Idle => true,
            Stepped::Done => true,
            Stepped::Slow => true,
            Stepped::Back(number, bytes, error) => {
                self.take_back(number, bytes.as_slice(), error);
                true
            }
        }
    }

    /// Goes on with what no request waits for, for some steps.
    fn idle<A: Array>(&mut self, array: &mut A)
        ensures moves { CallsTo A.does array.old array.new (MovesCalling self.old self.new) }
        ensures input { self.new.input ≡ self.old.input }
        ensures size { self.new.size ≡ self.old.size }
        ensures out { self.new.out.items ≡ self.old.out.items }
        ensures none { StaysFree self.old self.new }
    {
        for _ in 0..MOST_IDLE {
            if !self.idle_step(array) {
                return;
            }
        }
    }

    /// Whether what was heard is to be served before more is heard.
    fn is_enough(&self, took: Took) -> bool {
        took != Took::None || self.input.is_empty() || MOST_HEARD <= self.jobs.len()
    }

    /// Hears what arrives, and goes on hearing while a request is there in part. `false` at the end of the input.
    fn hear_all<R: Read>(&mut self, alloc: Global, reader: &mut R) -> Result<bool, Ended>
        ensures moves { IfOk result (λ _. MovesHearing self.old self.new (R.remaining reader.old) (R.remaining reader.new)) }
        ensures end { IfOk result (λ more. more ≡ false → IsAtEnd (R.remaining reader.new)) }
    {
        for _ in 0..u64::MAX {
            match self.input.hear(reader) {
                Ok(true) => {}
                Ok(false) => return Ok(false),
                Err(error) => return Err(Ended::Unheard(error)),
            }
            let took = self.take_all(alloc)?;
            if self.is_enough(took) {
                return Ok(true);
            }
        }
        Ok(true)
    }

    /// Hears more, where no request is open. `None` where the client went.
    fn go_on<R: Read>(
        &mut self,
        alloc: Global,
        took: Took,
        hears: bool,
        reader: &mut R,
    ) -> Result<Option<bool>, Ended>
        requires over { IsOverAt self.old.size took self.old.input }
        requires end { hears ≡ false → IsAtEnd (R.remaining reader.old) }
        ensures moves { IfOk result (λ _. MovesHearing self.old self.new (R.remaining reader.old) (R.remaining reader.new)) }
        ensures end { result ≡ Ok (Some false) → IsAtEnd (R.remaining reader.new) }
        ensures over { result ≡ Ok None → (self.new ≡ self.old) × IfSome (left self.new.input (R.remaining reader.new)) (IsOver self.old.size) }
    {
        match took {
            Took::Over => Ok(None),
            Took::Full => Err(Ended::Stuck),
            Took::One => Ok(Some(hears)),
            Took::None => {
                if !hears {
                    return Ok(None);
                }
                Ok(Some(self.hear_all(alloc, reader)?))
            }
        }
    }

    /// Serves requests until the client goes.
    #[tactic(auto, using(crate::proofs::Moved::none_left))]
    fn run<A: Array, R: Read, W: Write>(
        &mut self,
        alloc: Global,
        array: &mut A,
        reader: &mut R,
        writer: &mut W,
    ) -> Result<Finish, Ended>
        ensures moves { IfOk result (λ _. CallsTo A.does array.old array.new (Moves self.old self.new (R.remaining reader.old) (R.remaining reader.new) (W.contents writer.old) (W.contents writer.new))) }
        ensures called { Reached A.does result array.old array.new }
        ensures none { OnOk result (IsClear self.new) }
        ensures over { result ≡ Ok Client → IfSome (left self.new.input (R.remaining reader.new)) (IsOver self.old.size) }
    {
        let mut hears = true;
        for _ in 0..u64::MAX {
            let took = self.take_all(alloc)?;
            if self.jobs.len() == 0 {
                self.say(writer)?;
                self.idle(array);
                match self.go_on(alloc, took, hears, reader)? {
                    Some(more) => hears = more,
                    None => return Ok(Finish::Client),
                }
            } else if self.work(alloc, array, writer)? == Finish::Array {
                return Ok(Finish::Array);
            }
        }
        Err(Ended::Stuck)
    }
}

/// Serves a client: it comes to one of the exports, and is served until it goes. All that it
/// asked for is answered then. Where it ends with an error, the array came to its state by calls
/// of the trait too, and by nothing else.
pub fn serve<A: Array, R: Read, W: Write>(
    alloc: Global,
    array: &mut A,
    exports: &[Export<'_>],
    reader: &mut R,
    writer: &mut W,
) -> Result<Finish, Ended>
    ensures session { IfOk result (λ finish. (calls : List Call) × Called A.does array.old calls array.new × IfSome (R.remaining reader.old) (λ bytes. (said : List ℕ) × IsSession exports.now finish calls bytes said × Appends (W.contents writer.old) (W.contents writer.new) said)) }
    ensures called { Reached A.does result array.old array.new }
{
    let mut input = Input::new(alloc)?;
    let Some((place, structured)) = chosen(alloc, exports, &mut input, reader, writer)? else {
        return Ok(Finish::Client);
    };
    if !array.choose(place.export) {
        return Err(Ended::Stuck);
    }
    let chunk = array.chunk();
    let mut line = Line::new(alloc, input, place.size, chunk, structured)?;
    line.run(alloc, array, reader, writer)
}
