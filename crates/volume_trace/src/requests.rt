// The items of requests in flight.
ghost use Rattle.std.specs.Prelude.{◌≡◌, ◌++◌, ◌∷◌, [], OnOk, codes, decimal};
ghost use Rattle.volume_trace.specs.Trace.{flight_text, flights_text, item_of, named_dev, route_word};

use crate::items::{add_item, name_of};
use device_stacks::SnapNames;
use in_flight::{Flight, Route};
use itoa::Buffer;
use layers::Stack;
use plain_machine::{Dev, Op};
use snapshot::Snapshot;
use std::alloc::AllocError;
use words::Name;

/// The word for whether a request waits.
fn route_word(route: Route) -> &'static [u8]
    ensures { result.now ≡ route_word route }
{
    match route {
        Route::Held => b"held",
        Route::Origin => b"ready",
        Route::Store(_) => b"ready",
        Route::Whole => b"ready",
        Route::Refused => b"ready",
    }
}

/// The words of a read or a write.
fn add_moving<'a>(
    out: &mut Vec<u8>,
    kind: &'a [u8],
    dev: &'a [u8],
    flight: &Flight,
    state: &'a [u8],
) -> Result<(), AllocError>
    ensures { OnOk result (out.new.items ≡ out.old.items ++ item_of (codes "request" ∷ decimal flight.now.number ∷ kind.now ∷ dev.now ∷ decimal flight.now.request.range.first ∷ decimal flight.now.request.range.count ∷ state.now ∷ [])) }
{
    let mut number_buffer = Buffer::new();
    let mut first_buffer = Buffer::new();
    let mut count_buffer = Buffer::new();
    let number = number_buffer.format(flight.number).as_bytes();
    let first = first_buffer.format(flight.request.range.first).as_bytes();
    let count = count_buffer.format(flight.request.range.count).as_bytes();
    add_item(
        out,
        &[
            b"request".as_slice(),
            number,
            kind,
            dev,
            first,
            count,
            state,
        ],
    )
}

/// Adds a request.
fn add_flight(out: &mut Vec<u8>, dev: &[u8], flight: &Flight) -> Result<(), AllocError>
    ensures { OnOk result (out.new.items ≡ out.old.items ++ flight_text dev.now flight.now) }
{
    let state = route_word(flight.route);
    match &flight.request.op {
        Op::Read => add_moving(out, b"read", dev, flight, state),
        Op::Write(_) => add_moving(out, b"write", dev, flight, state),
        Op::Flush => add_moving(out, b"flush", dev, flight, state),
    }
}

/// The name of a request's device.
fn named_dev<'a>(
    origin: &'a Name,
    names: &'a [SnapNames],
    snaps: &[Snapshot<Stack>],
    dev: Dev,
) -> &'a [u8]
    ensures { result.now ≡ named_dev origin.now names.now snaps.now dev }
{
    match dev {
        Dev::Origin => origin.as_slice(),
        Dev::Snap(number) => name_of(names, snaps, number),
    }
}

/// Adds a request, under the name of its device.
fn add_named_flight(
    out: &mut Vec<u8>,
    origin: &Name,
    names: &[SnapNames],
    snaps: &[Snapshot<Stack>],
    flight: &Flight,
) -> Result<(), AllocError>
    ensures { OnOk result (out.new.items ≡ out.old.items ++ flight_text (named_dev origin.now names.now snaps.now flight.now.request.dev) flight.now) }
{
    let dev = named_dev(origin, names, snaps, flight.request.dev);
    add_flight(out, dev, flight)
}

/// Adds the requests in flight.
pub fn add_flights(
    out: &mut Vec<u8>,
    origin: &Name,
    names: &[SnapNames],
    snaps: &[Snapshot<Stack>],
    flights: &[Flight],
) -> Result<(), AllocError>
    ensures { OnOk result (out.new.items ≡ out.old.items ++ flights_text origin.now names.now snaps.now flights.now) }
{
    for flight in flights {
        add_named_flight(out, origin, names, snaps, flight)?;
    }
    Ok(())
}
