// A volume with the plain arrays beside it, by which each answer is judged.
use crate::arrays::{Arrays, Asked, State, put};
use crate::calls;
use crate::driven::Driven;
use crate::scenario::Step;
use crate::told::{failed, is_of_mark, is_told};
use device::Block;
use layers::Layered;
use plain_machine::{Dev, Event, Outcome, ReqId, SnapId};
use sector::{Range, Refusal};
use std::alloc::{AllocError, Global};
use std::test::Fail;
use volume::Volume;

/// More events than are ever due.
const MOST: u64 = 100_000;

/// A volume, the plain arrays, the stores that are not attached, the next of which is the last, how many operations failed, and
/// the snapshot whose store a merge may find full. Where it is to stop, a run ends at the first failure.
#[derive(Drop)]
pub struct Machine<B: Block> {
    pub volume: Volume<B>,
    pub arrays: Arrays,
    pub stores: Vec<B>,
    pub chunk: u32,
    pub stops: bool,
    pub failures: u64,
    pub fills_up: Option<SnapId>,
}

impl<B: Driven> Machine<B> {
    /// A volume over the last of these devices, the origin, and the others as stores.
    pub fn new(
        alloc: Global,
        mut devices: Vec<B>,
        chunk: u32,
        stops: bool,
    ) -> Result<Machine<B>, Fail> {
        let Some(origin) = devices.pop() else {
            return Err(Fail::from("no origin"));
        };
        Ok(Machine {
            volume: calls::volume_over(alloc, origin)?,
            arrays: Arrays::new(alloc, 0x11)?,
            stores: devices,
            chunk,
            stops,
            failures: 0,
            fills_up: None,
        })
    }

    /// Enters the spoils that the volume tells of.
    fn notice_spoils(&mut self) {
        for snap in &mut self.arrays.snaps {
            if snap.state == State::Live && calls::is_spoilt(&self.volume, snap.number) {
                snap.state = State::Spoilt;
            }
        }
    }

    /// Enters that a merge found a store full, in an event at which no device failed, and tells how many snapshots it lost by that.
    fn notice_full(&mut self, outcome: &Outcome) -> u64 {
        let Some(number) = self.fills_up else {
            return 0;
        };
        let failed = matches!(outcome, Outcome::Fault);
        let live = self.arrays.state(number) == Some(State::Live);
        if failed || !live || !calls::is_spoilt(&self.volume, number) {
            return 0;
        }
        self.arrays.set_state(number, State::Spoilt);
        1
    }

    /// Follows what came of an event, and tells whether that may be.
    fn follow(&mut self, event: Event, outcome: &Outcome) -> bool {
        match (event, outcome) {
            (_, Outcome::Reply(number, reply)) => {
                return self.arrays.follow_reply(*number, reply);
            }
            (Event::WriteInvalid(number), Outcome::Fault) => {
                self.arrays.set_state(number, State::Marking)
            }
            (Event::WriteInvalid(number), _) => self.arrays.set_state(number, State::Marked),
            (_, Outcome::Fault) => self.notice_spoils(),
            _ => {}
        }
        true
    }

    /// Does an event that is due, and tells whether the run ends with it. After a failure it need not be due.
    fn step(&mut self, event: Event) -> Result<bool, Fail> {
        let before = failed(&self.volume, &self.arrays);
        let of_mark = is_of_mark(&self.volume, event);
        B::ahead(&mut self.volume, event);
        let Some(outcome) = calls::step(&mut self.volume, event) else {
            return if self.failures == 0 {
                Err(Fail::from("not due"))
            } else {
                Ok(false)
            };
        };
        if B::is_over(&self.volume) {
            return self.end(event, outcome);
        }
        let after = failed(&self.volume, &self.arrays);
        let full = self.notice_full(&outcome);
        if !is_told(of_mark, &outcome, before, after, full) || !self.follow(event, &outcome) {
            return Err(Fail::from("a wrong outcome"));
        }
        self.failures = self
            .failures
            .saturating_add(after.faults.wrapping_sub(before.faults));
        Ok(self.stops && self.failures != 0)
    }

    /// The run ends with an event, at which a device was found to have left unanswered what it had answered. A mark of a snapshot that
    /// is spoiled may be there or not.
    fn end(&mut self, event: Event, outcome: Outcome) -> Result<bool, Fail> {
        let outcome = B::answered(&self.volume, outcome);
        if !self.follow(event, &outcome) {
            return Err(Fail::from("a wrong outcome"));
        }
        self.notice_spoils();
        if let Event::WriteInvalid(number) = event {
            self.arrays.set_state(number, State::Marking);
        }
        Ok(true)
    }

    /// Does all that is due.
    fn settle(&mut self) -> Result<bool, Fail> {
        for _ in 0..MOST {
            let Some(event) = calls::due(&mut self.volume) else {
                return Ok(false);
            };
            if self.step(event)? {
                return Ok(true);
            }
        }
        Err(Fail::from("events without an end"))
    }

    /// The sectors of a chunk.
    fn range(&self, chunk: u64) -> Result<Range, Refusal> {
        let first = chunk.saturating_mul(u64::from(self.chunk));
        Range::new(first, self.chunk, self.volume.origin().sectors())
    }

    /// Enters a request that was submitted. One may be refused where its snapshot is spoiled.
    fn ask(
        &mut self,
        answer: Result<ReqId, Refusal>,
        dev: Dev,
        range: &Range,
        byte: Option<u8>,
    ) -> Result<Option<ReqId>, Fail> {
        match answer {
            Ok(number) => {
                self.arrays.asked.push(Asked {
                    number,
                    dev,
                    first: range.first,
                    count: range.count,
                    byte,
                })?;
                Ok(Some(number))
            }
            Err(Refusal::Invalid) if !self.arrays.is_live(dev) => Ok(None),
            Err(refusal) => Err(Fail::from(refusal)),
        }
    }

    /// Submits a write of a chunk.
    fn start(&mut self, alloc: Global, dev: Dev, chunk: u64, byte: u8) -> Result<bool, Fail> {
        let range = self.range(chunk)?;
        let answer = calls::submit_write(alloc, &mut self.volume, dev, range, byte);
        self.ask(answer, dev, &range, Some(byte))?;
        Ok(false)
    }

    /// Submits a write of a chunk to a snapshot, which is refused since its store overflows by it, or did.
    fn overflow(&mut self, alloc: Global, number: SnapId, chunk: u64) -> Result<bool, Fail> {
        let range = self.range(chunk)?;
        match calls::submit_write(alloc, &mut self.volume, Dev::Snap(number), range, 0x99) {
            Err(Refusal::Overflow) => Ok(false),
            Err(refusal) => Err(Fail::from(refusal)),
            Ok(_) => Err(Fail::from("not refused")),
        }
    }

    /// Submits writes of chunks, and does what is due after every eighth and at the end.
    fn fill(
        &mut self,
        alloc: Global,
        dev: Dev,
        first: u64,
        count: u64,
        byte: u8,
    ) -> Result<bool, Fail> {
        for i in 0..count {
            self.start(alloc, dev, first.saturating_add(i), byte)?;
            if i % 8 == 7 && self.settle()? {
                return Ok(true);
            }
        }
        self.settle()
    }

    /// Reads a chunk.
    fn read(&mut self, alloc: Global, dev: Dev, chunk: u64) -> Result<bool, Fail> {
        let range = self.range(chunk)?;
        let answer = calls::submit_read(alloc, &mut self.volume, dev, range);
        match self.ask(answer, dev, &range, None)? {
            Some(number) => self.step(Event::Issue(number)),
            None => Ok(false),
        }
    }

    /// The array of the next snapshot: the origin's, but for a sector that its store has.
    pub fn array_with(&self, own: Option<(u64, u8)>) -> Result<Vec<u8>, AllocError> {
        let mut array = self.arrays.origin.clone()?;
        if let Some((sector, byte)) = own {
            put(array.as_mut_slice(), sector, byte);
        }
        Ok(array)
    }

    /// Attaches the next store, which has such a sector. Where a device fails at it and the run goes on, it is attached again.
    fn attach(&mut self, alloc: Global, chunk: u32, own: Option<(u64, u8)>) -> Result<bool, Fail> {
        let Some(mut device) = self.stores.pop() else {
            return Err(Fail::from("no store"));
        };
        device.attach_ahead(alloc)?;
        let array = self.array_with(own)?;
        let faults = self.faults_with(&device);
        match calls::attach(alloc, &mut self.volume, device, chunk) {
            Ok(number) => self.enter(number, faults, array),
            Err((Refusal::Io, device)) => self.attach_again(alloc, chunk, device, faults, array),
            Err((refusal, _)) => Err(Fail::from(refusal)),
        }
    }

    /// How many operations of the origin and of a store that is not attached failed.
    fn faults_with(&self, store: &B) -> u64 {
        self.volume.origin().faults().wrapping_add(store.faults())
    }

    /// Enters a snapshot, at whose attach no device failed.
    fn enter(&mut self, number: SnapId, faults: u64, array: Vec<u8>) -> Result<bool, Fail> {
        let store = calls::store_faults(&self.volume, number);
        if self.volume.origin().faults().wrapping_add(store) != faults {
            return Err(Fail::from("a fault that was not told"));
        }
        self.arrays.enter(number, array)?;
        Ok(B::is_over(&self.volume))
    }

    /// Attaches a store again at whose attach a device failed, unless the run ends there.
    fn attach_again(
        &mut self,
        alloc: Global,
        chunk: u32,
        device: B,
        faults: u64,
        array: Vec<u8>,
    ) -> Result<bool, Fail> {
        let after = self.faults_with(&device);
        if after == faults {
            return Err(Fail::from("Io without a fault"));
        }
        self.failures = self.failures.saturating_add(1);
        if self.stops {
            self.stores.push(device)?;
            self.arrays.enter(SnapId::MAX, array)?;
            return Ok(true);
        }
        match calls::attach(alloc, &mut self.volume, device, chunk) {
            Ok(number) => self.enter(number, after, array),
            Err((refusal, _)) => Err(Fail::from(refusal)),
        }
    }

    /// Begins to merge a snapshot, unless it is spoiled.
    fn merge(&mut self, alloc: Global, number: SnapId) -> Result<bool, Fail> {
        match calls::begin_merge(alloc, &mut self.volume, number) {
            Ok(()) => self.arrays.begin_merge(number)?,
            Err(Refusal::Invalid) if !self.arrays.is_live(Dev::Snap(number)) => {}
            Err(refusal) => return Err(Fail::from(refusal)),
        }
        Ok(false)
    }

    /// Takes the merge out, if there is one.
    fn finish(&mut self) -> Result<bool, Fail> {
        let merging = self.arrays.merging();
        match (calls::finish_merge(&mut self.volume), merging) {
            (Ok(()), Some(_)) => self
                .arrays
                .snaps
                .retain(|snap| snap.state != State::Merging),
            (Err(Refusal::NotFinished), None) => {}
            _ => return Err(Fail::from("a merge's end")),
        }
        Ok(false)
    }

    /// A snapshot is lost, unless a device failed.
    fn hold_full(&self, number: SnapId) -> Result<bool, Fail> {
        if self.failures == 0 && self.arrays.is_live(Dev::Snap(number)) {
            return Err(Fail::from("a full store"));
        }
        Ok(false)
    }

    /// Takes a step, and tells whether the run ends with it.
    fn take(&mut self, alloc: Global, step: &Step) -> Result<bool, Fail> {
        match *step {
            Step::Attach => self.attach(alloc, self.chunk, None),
            Step::AttachBy(chunk) => self.attach(alloc, chunk, None),
            Step::AttachWritten(sector, byte) => {
                self.attach(alloc, self.chunk, Some((sector, byte)))
            }
            Step::Start(dev, chunk, byte) => self.start(alloc, dev, chunk, byte),
            Step::Fill(dev, first, count, byte) => self.fill(alloc, dev, first, count, byte),
            Step::Read(dev, chunk) => self.read(alloc, dev, chunk),
            Step::Do(event) => self.step(event),
            Step::Settle => self.settle(),
            Step::Full(number) => {
                self.arrays.set_state(number, State::Spoilt);
                Ok(false)
            }
            Step::FillsUp(number) => {
                self.fills_up = Some(number);
                Ok(false)
            }
            Step::IsFull(number) => self.hold_full(number),
            Step::Overflow(number, chunk) => self.overflow(alloc, number, chunk),
            Step::Merge(number) => self.merge(alloc, number),
            Step::Finish => self.finish(),
        }
    }

    /// Takes steps until the run ends, and tells whether it did before the last.
    pub fn run(&mut self, alloc: Global, steps: &[Step]) -> Result<bool, Fail> {
        for step in steps {
            if self.take(alloc, step)? {
                return Ok(true);
            }
        }
        Ok(false)
    }
}

impl<B: Layered + Drop> Machine<B> {
    /// Holds what a device shows against its array.
    pub fn hold(&self, dev: Dev) -> Result<(), Fail> {
        for sector in 0..self.volume.origin().sectors() {
            let Some(byte) = self.arrays.byte(dev, sector) else {
                return Err(Fail::from("no array"));
            };
            if !calls::shows(&self.volume, dev, sector, byte)? {
                return Err(Fail::from("another array"));
            }
        }
        Ok(())
    }

    /// Holds what each live snapshot shows against its array, and each other as one that is not.
    pub fn hold_snaps(&self) -> Result<(), Fail> {
        for snap in &self.arrays.snaps {
            match snap.state {
                State::Live => self.hold(Dev::Snap(snap.number))?,
                State::Merging => {}
                _ => {
                    if !calls::is_spoilt(&self.volume, snap.number) {
                        return Err(Fail::from("not spoiled"));
                    }
                }
            }
        }
        Ok(())
    }
}
