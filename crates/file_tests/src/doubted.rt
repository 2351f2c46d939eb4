// A volume that is driven over files some of which are doubted, or with the wrong thing done ahead.
use device::Block;
use plain_machine::{Dev, Event, Failure, Outcome, Reply, ReqId, SnapId};
use sector::{Range, Refusal, SECTOR_BYTES};
use std::alloc::Global;
use std::test::Fail;
use volume::Volume;
use volume_test_driver::arrays::{Asked, State};
use volume_test_driver::calls;
use volume_test_driver::driven::{Driven, Stops};
use volume_test_driver::filed::Filed;
use volume_test_driver::machine::Machine;
use volume_test_driver::scenario::Step;

/// More events than are ever due.
const MOST: u64 = 10_000;

/// What is done ahead of an event.
#[derive(Clone, Copy, PartialEq, Eq)]
pub enum Before {
    Itself,
    Nothing,
    Another,
    /// The event itself, and then another.
    Both,
}

/// A machine, what is done ahead, the event that was done last, whether a file met its fault on which the origin rested ever, and how
/// many reads were answered.
#[derive(Drop)]
pub struct Doubted {
    pub machine: Machine<Filed>,
    before: Before,
    last: Event,
    is_origin_doubted: bool,
    pub reads: u64,
}

/// Whether a store met its fault.
fn is_store_doubted(volume: &Volume<Filed>, number: SnapId) -> bool {
    match volume.store(number) {
        Ok(store) => store.has_met(),
        Err(_) => true,
    }
}

/// Whether a file met its fault on which the origin rests now.
fn is_origin_doubted(volume: &Volume<Filed>) -> bool {
    let merging = match volume.merging() {
        Some(number) => is_store_doubted(volume, number),
        None => false,
    };
    merging || volume.origin().has_met()
}

/// Whether no file met its fault on which a snapshot rests.
fn is_snap_sure(volume: &Volume<Filed>, number: SnapId) -> bool {
    !volume.origin().has_met() && !is_store_doubted(volume, number)
}

/// Whether a reply is one that a request may have, whatever its bytes.
fn has_form(asked: &Asked, reply: &Reply) -> bool {
    match (asked.byte, reply) {
        (None, Reply::Data(bytes)) => bytes.len() == SECTOR_BYTES * asked.count as usize,
        (Some(_), Reply::Written) => true,
        (_, Reply::Refused(_)) => true,
        _ => false,
    }
}

impl Doubted {
    pub fn new(machine: Machine<Filed>, before: Before) -> Doubted {
        Doubted {
            machine,
            before,
            last: Event::MergeRelease,
            is_origin_doubted: false,
            reads: 0,
        }
    }

    /// Whether no file met its fault on which a device rests.
    fn is_sure(&self, dev: Dev) -> bool {
        match dev {
            Dev::Origin => !self.is_origin_doubted,
            Dev::Snap(number) => is_snap_sure(&self.machine.volume, number),
        }
    }

    /// Whether a device has to answer well.
    fn is_firm(&self, dev: Dev) -> bool {
        self.before == Before::Itself && self.is_sure(dev) && self.machine.arrays.is_live(dev)
    }

    /// Another event: the issue of the last request, or what was done last.
    fn other(&self, event: Event) -> Event {
        let issue = Event::Issue(self.machine.volume.last_request());
        if issue == event { self.last } else { issue }
    }

    /// Does ahead what is to be.
    fn do_ahead(&mut self, event: Event) {
        let other = self.other(event);
        if self.before == Before::Itself || self.before == Before::Both {
            Filed::ahead(&mut self.machine.volume, event);
        }
        if self.before == Before::Another || self.before == Before::Both {
            Filed::ahead(&mut self.machine.volume, other);
        }
    }

    /// The request of this number that is in flight.
    fn asked(&self, number: ReqId) -> Option<Asked> {
        for asked in &self.machine.arrays.asked {
            if asked.number == number {
                return Some(*asked);
            }
        }
        None
    }

    /// Follows a reply, and tells whether it may be: it has its form, and is right where its device is sure.
    fn follow_reply(&mut self, number: ReqId, reply: &Reply) -> bool {
        let Some(asked) = self.asked(number) else {
            return false;
        };
        if matches!(reply, Reply::Data(_)) {
            self.reads = self.reads.saturating_add(1);
        }
        let fails = matches!(reply, Reply::Refused(Failure::Io));
        if !has_form(&asked, reply) || fails && self.is_firm(asked.dev) {
            return false;
        }
        let sure = self.is_sure(asked.dev);
        self.machine.arrays.follow_reply(number, reply) || !sure
    }

    /// Follows what came of an event, and tells whether that may be.
    fn follow(&mut self, event: Event, outcome: &Outcome) -> bool {
        match (event, outcome) {
            (_, Outcome::Reply(number, reply)) => return self.follow_reply(*number, reply),
            (Event::WriteInvalid(number), Outcome::Fault) => {
                self.machine.arrays.set_state(number, State::Marking)
            }
            (Event::WriteInvalid(number), _) => {
                self.machine.arrays.set_state(number, State::Marked)
            }
            _ => {}
        }
        true
    }

    /// Enters the spoils, and tells whether they may be: a snapshot that is sure is spoiled only where the wrong thing was done ahead.
    fn notice_spoils(&mut self) -> bool {
        let firm = self.before == Before::Itself;
        for snap in &mut self.machine.arrays.snaps {
            if snap.state == State::Live && calls::is_spoilt(&self.machine.volume, snap.number) {
                if firm && is_snap_sure(&self.machine.volume, snap.number) {
                    return false;
                }
                snap.state = State::Spoilt;
            }
        }
        true
    }

    /// Does an event, if it is due.
    fn step(&mut self, event: Event) -> Result<(), Fail> {
        self.do_ahead(event);
        let Some(outcome) = calls::step(&mut self.machine.volume, event) else {
            return Ok(());
        };
        self.last = event;
        self.is_origin_doubted = self.is_origin_doubted || is_origin_doubted(&self.machine.volume);
        if !self.follow(event, &outcome) || !self.notice_spoils() {
            return Err(Fail::from("a wrong outcome"));
        }
        Ok(())
    }

    /// Does all that is due. A merge that stopped at a fault stays so.
    fn settle(&mut self) -> Result<(), Fail> {
        for _ in 0..MOST {
            let Some(event) = self.machine.volume.due() else {
                return Ok(());
            };
            self.step(event)?;
        }
        Err(Fail::from("events without an end"))
    }

    /// Submits a read of a chunk, or a write of it with a byte, and gives its number. One that is not sure may be refused.
    fn submit(
        &mut self,
        alloc: Global,
        dev: Dev,
        chunk: u64,
        byte: Option<u8>,
    ) -> Result<Option<ReqId>, Fail> {
        let volume = &mut self.machine.volume;
        let count = self.machine.chunk;
        let first = chunk.saturating_mul(u64::from(count));
        let range = Range::new(first, count, volume.origin().sectors())?;
        let answer = match byte {
            Some(byte) => calls::submit_write(alloc, volume, dev, range, byte),
            None => calls::submit_read(alloc, volume, dev, range),
        };
        match answer {
            Ok(number) => {
                self.machine.arrays.asked.push(Asked {
                    number,
                    dev,
                    first,
                    count,
                    byte,
                })?;
                Ok(Some(number))
            }
            Err(refusal) if self.is_firm(dev) => Err(Fail::from(refusal)),
            Err(_) => Ok(None),
        }
    }

    /// Submits writes of chunks, and does all that is due.
    fn fill(
        &mut self,
        alloc: Global,
        dev: Dev,
        first: u64,
        count: u64,
        byte: u8,
    ) -> Result<(), Fail> {
        for i in 0..count {
            self.submit(alloc, dev, first.saturating_add(i), Some(byte))?;
        }
        self.settle()
    }

    /// Attaches the next store, and tells whether it did. Before it was read ahead it is refused.
    fn attach(&mut self, alloc: Global, chunk: u32, own: Option<(u64, u8)>) -> Result<bool, Fail> {
        let array = self.machine.array_with(own)?;
        let Some(mut device) = self.machine.stores.pop() else {
            return Err(Fail::from("no store"));
        };
        if self.before == Before::Nothing {
            match calls::attach(alloc, &mut self.machine.volume, device, chunk) {
                Err((Refusal::Io, unread)) => device = unread,
                _ => return Err(Fail::from("attached unread")),
            }
        }
        device.attach_ahead(alloc)?;
        self.attach_read(alloc, chunk, device, array)
    }

    /// Attaches a store that was read ahead, and tells whether it did. One is refused only where it, or the origin, is doubted.
    fn attach_read(
        &mut self,
        alloc: Global,
        chunk: u32,
        device: Filed,
        array: Vec<u8>,
    ) -> Result<bool, Fail> {
        match calls::attach(alloc, &mut self.machine.volume, device, chunk) {
            Ok(number) => {
                self.is_origin_doubted = self.is_origin_doubted
                    || is_origin_doubted(&self.machine.volume);
                self.machine.arrays.enter(number, array)?;
                Ok(true)
            }
            Err((_, device)) if device.has_met() || self.machine.volume.origin().has_met() => {
                Ok(false)
            }
            Err((refusal, _)) => Err(Fail::from(refusal)),
        }
    }

    /// Begins to merge a snapshot.
    fn merge(&mut self, alloc: Global, number: SnapId) -> Result<(), Fail> {
        match calls::begin_merge(alloc, &mut self.machine.volume, number) {
            Ok(()) => {
                self.machine.arrays.begin_merge(number)?;
                self.is_origin_doubted = self.is_origin_doubted
                    || is_origin_doubted(&self.machine.volume);
                Ok(())
            }
            Err(refusal) if self.is_firm(Dev::Snap(number)) => Err(Fail::from(refusal)),
            Err(_) => Ok(()),
        }
    }

    /// Takes the merge out, if it is at its end.
    fn finish(&mut self) -> Result<(), Fail> {
        match calls::finish_merge(&mut self.machine.volume) {
            Ok(()) => {
                let snaps = &mut self.machine.arrays.snaps;
                snaps.retain(|snap| snap.state != State::Merging);
                Ok(())
            }
            Err(refusal) if self.is_firm(Dev::Origin) => Err(Fail::from(refusal)),
            Err(_) => Ok(()),
        }
    }

    /// Takes a step, and tells whether the run goes on.
    fn take(&mut self, alloc: Global, step: &Step) -> Result<bool, Fail> {
        match *step {
            Step::Attach => return self.attach(alloc, self.machine.chunk, None),
            Step::AttachBy(chunk) => return self.attach(alloc, chunk, None),
            Step::AttachWritten(sector, byte) => {
                return self.attach(alloc, self.machine.chunk, Some((sector, byte)));
            }
            Step::Start(dev, chunk, byte) => {
                self.submit(alloc, dev, chunk, Some(byte))?;
            }
            Step::Fill(dev, first, count, byte) => self.fill(alloc, dev, first, count, byte)?,
            Step::Read(dev, chunk) => {
                if let Some(number) = self.submit(alloc, dev, chunk, None)? {
                    self.step(Event::Issue(number))?;
                }
            }
            Step::Do(event) => self.step(event)?,
            Step::Settle => self.settle()?,
            Step::Merge(number) => self.merge(alloc, number)?,
            Step::Finish => self.finish()?,
            _ => return Err(Fail::from("no step for doubted files")),
        }
        Ok(true)
    }

    /// Takes steps until one says that the run ends.
    pub fn run(&mut self, alloc: Global, steps: &[Step]) -> Result<(), Fail> {
        for step in steps {
            if !self.take(alloc, step)? {
                return Ok(());
            }
        }
        self.settle()
    }
}
