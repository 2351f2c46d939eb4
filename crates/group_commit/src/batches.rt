// The events of what is done together.
ghost use Rattle.std.specs.Prelude.{◌≡◌, ◌++◌, OnOk};
ghost use Rattle.group_commit.specs.Rounds.{issues_of, publications_of, reads_of, writes_of};

use in_flight::{ChunkCopy, Flight, Mark, Stage, is_at, is_routed};
use plain_machine::Event;
use std::alloc::AllocError;

/// Adds the events of all requests that go somewhere.
pub fn add_issues(events: &mut Vec<Event>, flights: &[Flight]) -> Result<(), AllocError>
    ensures { OnOk result (events.new.items ≡ events.old.items ++ issues_of flights.now) }
{
    for flight in flights {
        if is_routed(flight.route) {
            events.push(Event::Issue(flight.number))?;
        }
    }
    Ok(())
}

/// Adds the reads of all copies that wait.
pub fn add_reads(events: &mut Vec<Event>, copies: &[ChunkCopy]) -> Result<(), AllocError>
    ensures { OnOk result (events.new.items ≡ events.old.items ++ reads_of copies.now) }
{
    for copy in copies {
        if is_at(Stage::Waiting, copy.stage) {
            events.push(Event::CopyRead(copy.number))?;
        }
    }
    Ok(())
}

/// Adds the writes of all copies that were read.
pub fn add_writes(events: &mut Vec<Event>, copies: &[ChunkCopy]) -> Result<(), AllocError>
    ensures { OnOk result (events.new.items ≡ events.old.items ++ writes_of copies.now) }
{
    for copy in copies {
        if is_at(Stage::Read, copy.stage) {
            events.push(Event::CopyWrite(copy.number))?;
        }
    }
    Ok(())
}

/// Adds the publications of all copies whose pairs last.
pub fn add_publications(events: &mut Vec<Event>, marks: &[Mark]) -> Result<(), AllocError>
    ensures { OnOk result (events.new.items ≡ events.old.items ++ publications_of marks.now) }
{
    for mark in marks {
        if mark.safe {
            events.push(Event::Publish(mark.number))?;
        }
    }
    Ok(())
}
