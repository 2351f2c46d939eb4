// Workers that take what others put, in one thread and in several.
ghost use Rattle.std.specs.Prelude.{◌≡◌, ⊤};
ghost use Rattle.thread_channels.specs.declared.ticket.PendingCopy.{PendingCopy};

use std::alloc::{AllocError, Global};
use std::sync::atomic::{AtomicU64, Ordering};
use std::sync::{Arc, Wait};
use std::test::Fail;
use std::thread::{Threads, join};
use thread_channels::{
    Copies, Count, Gate, PendingCopy, Ticket, TicketPass, Tickets, WorkerEnd, work,
};

// A gate that keeps the count of the last ticket and adds up all.
#[derive(Drop)]
struct Counts {
    last: Arc<AtomicU64, Global>,
    sum: AtomicU64,
}

impl Gate for Counts {
    fn before(&self, ticket: u64) {
        self.last.store(ticket, Ordering::SeqCst);
        self.sum.fetch_add(ticket, Ordering::SeqCst);
    }
}

// The counts of the copies that were done, and which of them the gate had just let through.
#[derive(Drop)]
struct Done {
    counts: Vec<u64>,
    gated: u64,
    gate: Arc<AtomicU64, Global>,
}

impl Copies for Done {
    ghost does = { λ before copy after. ⊤ };

    fn copy<R: Wait>(
        &mut self,
        rt: &R,
        tickets: &Tickets,
        pass: &mut TicketPass,
        copy: PendingCopy,
    ) {
        if self.gate.load(Ordering::SeqCst) == copy.count {
            self.gated = self.gated.saturating_add(1);
        }
        if self.counts.push(copy.count).is_err() {
            self.gated = 0;
        }
        // copy 7 of volume 1 starts another
        if copy.volume == 1 && copy.copy == 7 {
            let next = PendingCopy {
                volume: copy.volume,
                copy: 8,
                count: 100,
            };
            let _ = tickets.put(rt, pass, Ticket::Copy(next));
        }
    }
}

fn gate(alloc: Global) -> Result<Counts, AllocError> {
    let Ok(last) = Arc::new(alloc, AtomicU64::new(0)) else {
        return Err(AllocError);
    };
    Ok(Counts {
        last,
        sum: AtomicU64::new(0),
    })
}

fn none_done(alloc: Global, gate: &Counts) -> Result<Done, AllocError> {
    Ok(Done {
        counts: Vec::new(alloc),
        gated: 0,
        gate: Arc::try_clone(&gate.last)?,
    })
}

fn numbered(copy: u64, count: u64) -> Ticket {
    Ticket::Copy(PendingCopy {
        volume: 1,
        copy,
        count,
    })
}

// Whether these are the numbers from 1 to another, in their order.
fn counts_to(counts: &[u64], last: u64) -> bool {
    let mut next = 0u64;
    for count in counts {
        if *count <= next || last <= next || *count - 1 != next {
            return false;
        }
        next = *count;
    }
    next == last
}

// The numbers of two lists in their order.
fn sorted(mut all: Vec<u64>, other: &[u64]) -> Result<Vec<u64>, AllocError> {
    for count in other {
        all.push(*count)?;
    }
    all.sort()?;
    Ok(all)
}

#[test]
fn a_worker_ends_at_the_word_to_stop(rt: HostRuntime) -> Result<(), Fail> {
    let (tickets, mut pass) = Tickets::new(rt.alloc())?;
    let gate = gate(rt.alloc())?;
    let mut done = none_done(rt.alloc(), &gate)?;
    let first = tickets.put(&rt, &mut pass, numbered(5, 1));
    let second = tickets.put(&rt, &mut pass, numbered(3, 2));
    let stop = tickets.put(&rt, &mut pass, Ticket::Stop);
    let third = tickets.put(&rt, &mut pass, numbered(7, 3));
    assert!(rt; first.is_ok() && second.is_ok() && stop.is_ok() && third.is_ok());
    let ended = work(&rt, &tickets, &mut pass, &gate, &mut done);
    assert!(rt; ended == WorkerEnd::Stopped && done.gated == 2 && counts_to(&done.counts, 2));
    let stop = tickets.put(&rt, &mut pass, Ticket::Stop);
    let ended = work(&rt, &tickets, &mut pass, &gate, &mut done);
    assert!(rt; stop.is_ok() && ended == WorkerEnd::Stopped && counts_to(&done.counts, 3));
    let last = tickets.take(&rt, &mut pass);
    assert!(rt; last == Some(numbered(8, 100)));
    tickets.settle(&mut pass);
    Ok(())
}

// Puts a thousand tickets, counted, and two that say stop; then says how many were put.
fn put_all<R: Wait>(rt: &R, tickets: &Tickets, mut pass: TicketPass) -> (TicketPass, u64)
    requires { pass.queue ≡ tickets.now }
    ensures { (result.0.queue ≡ tickets.now) × (result.0.parts ≡ pass.parts) }
{
    let mut count = Count::new();
    let mut put = 0u64;
    for copy in 1..=1000u64 {
        let ticket = Ticket::Copy(PendingCopy {
            volume: 0,
            copy,
            count: count.draw(),
        });
        if tickets.put(rt, &mut pass, ticket).is_ok() {
            put = put.saturating_add(1);
        }
    }
    for _ in 0..2 {
        if tickets.put(rt, &mut pass, Ticket::Stop).is_ok() {
            put = put.saturating_add(1);
        }
    }
    (pass, put)
}

// A worker in a thread of its own.
fn worked<R: Wait>(
    rt: &R,
    tickets: &Tickets,
    gate: &Counts,
    mut pass: TicketPass,
    mut done: Done,
) -> (TicketPass, Done, WorkerEnd)
    requires { pass.queue ≡ tickets.now }
    ensures { (result.0.queue ≡ tickets.now) × (result.0.parts ≡ pass.parts) }
{
    let ended = work(rt, tickets, &mut pass, gate, &mut done);
    (pass, done, ended)
}

// A worker beside the one that puts.
fn beside<R: Threads + Wait + Sync>(
    rt: &R,
    tickets: &Tickets,
    gate: &Counts,
    pass: TicketPass,
    done: Done,
    putter: TicketPass,
) -> ((TicketPass, Done, WorkerEnd), (TicketPass, u64))
    requires { (pass.queue ≡ tickets.now) × (putter.queue ≡ tickets.now) }
    ensures { (result.0.0.queue ≡ pass.queue) × (result.0.0.parts ≡ pass.parts) × (result.1.0.queue ≡ putter.queue) × (result.1.0.parts ≡ putter.parts) }
{
    join(
        rt,
        move || -> (TicketPass, Done, WorkerEnd)
            requires { pass.queue ≡ tickets.now }
            ensures { (result.0.queue ≡ pass.queue) × (result.0.parts ≡ pass.parts) }
        { worked(rt, tickets, gate, pass, done) },
        move || -> (TicketPass, u64)
            requires { putter.queue ≡ tickets.now }
            ensures { (result.0.queue ≡ putter.queue) × (result.0.parts ≡ putter.parts) }
        { put_all(rt, tickets, putter) },
    )
}

#[test]
fn two_workers_do_what_is_put_once_each(rt: HostRuntime) -> Result<(), Fail> {
    let (tickets, mut pass) = Tickets::new(rt.alloc())?;
    let gate = gate(rt.alloc())?;
    let first = none_done(rt.alloc(), &gate)?;
    let second = none_done(rt.alloc(), &gate)?;
    let one = tickets.another(&mut pass);
    let other = tickets.another(&mut pass);
    let putter = tickets.another(&mut pass);
    let handle = &rt;
    let queue = &tickets;
    let shared = &gate;
    let ((one, first, first_ended), ((other, second, second_ended), (putter, put))) = join(
        handle,
        move || -> (TicketPass, Done, WorkerEnd)
            requires { one.queue ≡ queue.now }
            ensures { (result.0.queue ≡ one.queue) × (result.0.parts ≡ one.parts) }
        { worked(handle, queue, shared, one, first) },
        move || -> ((TicketPass, Done, WorkerEnd), (TicketPass, u64))
            requires { (other.queue ≡ queue.now) × (putter.queue ≡ queue.now) }
            ensures { (result.0.0.queue ≡ other.queue) × (result.0.0.parts ≡ other.parts) × (result.1.0.queue ≡ putter.queue) × (result.1.0.parts ≡ putter.parts) }
        { beside(handle, queue, shared, other, second, putter) },
    );
    tickets.absorb(&mut pass, one);
    tickets.absorb(&mut pass, other);
    tickets.absorb(&mut pass, putter);
    tickets.settle(&mut pass);
    assert!(rt; put == 1002 && gate.sum.load(Ordering::SeqCst) == 500500);
    assert!(rt; first_ended == WorkerEnd::Stopped && second_ended == WorkerEnd::Stopped);
    let all = sorted(first.counts, &second.counts)?;
    assert!(rt; counts_to(&all, 1000));
    Ok(())
}
