// Calls of a volume as values, what comes of them, and lists of calls that are done one after another.
ghost use Rattle.std.specs.Prelude.{◌≡◌, ◌∷◌, IfOk, OnOk, [], true};
ghost use Rattle.std.specs.List.{All};
ghost use Rattle.plain_machine.specs.Runs.{IsRun};
ghost use Rattle.volume.specs.AddedUp.{OpensNoneUnwritten, OpensOnly};
ghost use Rattle.volume.specs.Stopping.{StopsNow};
ghost use Rattle.volume.specs.Volumed.{is_loud_in_all, plain_of};
ghost use Rattle.volume.specs.Running.{AreReturned, IsFitCall, IsReturned, KeepsUnwritten, MayCall};
ghost use Rattle.volume.specs.Calls.{LacksMemory};

use crate::Volume;
use layers::{Answer, Layered, Message};
use plain_machine::{Dev, Event, NotDue, Outcome, ReqId, Request, SnapId};
use sector::Refusal;
use std::alloc::Global;

/// One call of a volume.
#[derive(Drop)]
pub enum Call {
    /// Accepts a request.
    Submit(Request),
    /// Does an event, where it is due.
    Step(Event),
    /// Lets so many seconds pass for the layers of every device.
    Tick(u32),
    /// Tells the layer at a depth of the device under the origin, or of a snapshot's store.
    Message(Dev, usize, Message),
    /// Begins to merge a snapshot into the origin.
    BeginMerge(SnapId),
    /// Lets a merge that failed go on.
    ResumeMerge,
}

/// What a call answered.
#[derive(Drop)]
pub enum Returned {
    /// The number of a request, or why it is refused.
    Submitted(Result<ReqId, Refusal>),
    /// What came of an event, or that it was not due.
    Stepped(Result<Outcome, NotDue>),
    /// The time has passed.
    Ticked,
    /// The answer of a layer, or why the message is refused.
    Told(Result<Answer, Refusal>),
    /// The merge is begun, or why it is not.
    Begun(Result<(), Refusal>),
    /// The merge may go on, or why there is none.
    Resumed(Result<(), Refusal>),
}

impl<B: Layered> Volume<B> {
    /// Does one call. What a stop may leave then might be left before, or the call's write gives it.
    fn call(&mut self, alloc: Global, call: Call) -> Returned
        requires fits { IsFitCall call }
        ensures returned { IsReturned (record { contents = B.contents; durable = B.durable; size = B.size; faults = B.fault_count; done = B.done_count }) B.layers call result self.old self.new }
        ensures opens { is_loud_in_all B.layers self.old ≡ true → OpensOnly B.may_hold B.size (call ∷ []) self.old self.new }
    {
        match call {
            Call::Submit(request) => Returned::Submitted(self.submit(alloc, request)),
            Call::Step(event) => Returned::Stepped(self.step(event)),
            Call::Tick(seconds) => {
                self.tick(seconds);
                Returned::Ticked
            }
            Call::Message(dev, depth, message) => {
                Returned::Told(self.message(dev, depth, &message))
            }
            Call::BeginMerge(number) => Returned::Begun(self.begin_merge(alloc, number)),
            Call::ResumeMerge => Returned::Resumed(self.resume_merge()),
        }
    }

    /// Does calls one after another, and tells what each answered. Where no device drops writes, callers see a run of the
    /// plain machine: each call is a step of it, or changes nothing; and a live snapshot that nobody writes or begins to
    /// merge shows the array that it showed, or is lost. On disks with caches a stop then leaves stores that are loaded again with their arrays;
    /// and whatever of a cache is lost, each sector of an array has a value that a stop might have left there before all calls, or
    /// one that a write gives it which was in flight or is submitted by one of them: so of a snapshot that nobody writes, no
    /// other than before. The room for the answers is taken first: where it is refused (`NoMemory`), no call is done.
    pub fn run(&mut self, alloc: Global, calls: Vec<Call>) -> Result<Vec<Returned>, Refusal>
        requires fits { All IsFitCall calls.items }
        ensures ok { IfOk result (λ returned. AreReturned (record { contents = B.contents; durable = B.durable; size = B.size; faults = B.fault_count; done = B.done_count }) B.layers calls.items returned.items self.old self.new) }
        ensures legal { OnOk result (is_loud_in_all B.layers self.old ≡ true → IsRun MayCall calls.items (plain_of B.contents B.layers self.old) (plain_of B.contents B.layers self.new)) }
        ensures keeps { OnOk result (is_loud_in_all B.layers self.old ≡ true → KeepsUnwritten calls.items (plain_of B.contents B.layers self.old) (plain_of B.contents B.layers self.new)) }
        ensures stops { OnOk result (StopsNow B.may_hold B.layers B.size self.new) }
        ensures opens { OnOk result (is_loud_in_all B.layers self.old ≡ true → OpensOnly B.may_hold B.size calls.items self.old self.new) }
        ensures unwritten { OnOk result (is_loud_in_all B.layers self.old ≡ true → OpensNoneUnwritten B.may_hold B.size calls.items self.old self.new) }
        ensures loud { is_loud_in_all B.layers self.new ≡ is_loud_in_all B.layers self.old }
        ensures err { LacksMemory result self.old self.new }
    {
        let Ok(mut returned) = Vec::with_capacity(alloc, calls.len()) else {
            return Err(Refusal::NoMemory);
        };
        for call in calls {
            let answer = self.call(alloc, call);
            returned.push_reserved(answer);
        }
        self.look_at_stores();
        Ok(returned)
    }
}
