// What a client is told.
ghost use Rattle.std.specs.Prelude.{◌≡◌};
ghost use Rattle.volume_nbd.specs.Answers.{back_with, done_as, error_as, refused_as, stepped_as};

use nbd_backend::{Refused, Stepped};
use nbd_jobs::Bytes;
use nbd_messages::ErrorValue;
use plain_machine::{Failure, Outcome, Reply};
use sector::Refusal;
use std::alloc::Global;

/// Why a piece is not taken in that the volume refused.
pub(crate) fn refused(refusal: Refusal) -> Refused
    ensures { result ≡ refused_as refusal }
{
    match refusal {
        Refusal::TooMany => Refused::Full,
        Refusal::Overflow => Refused::Error(ErrorValue::NoSpace),
        Refusal::OutOfRange => Refused::Error(ErrorValue::Invalid),
        Refusal::NoMemory => Refused::Error(ErrorValue::NoMemory),
        _ => Refused::Error(ErrorValue::Io),
    }
}

/// The error of a request that failed.
fn error_of(failure: Failure) -> ErrorValue
    ensures { result ≡ error_as failure }
{
    match failure {
        Failure::Overflow => ErrorValue::NoSpace,
        Failure::Invalid | Failure::Io => ErrorValue::Io,
    }
}

/// A request that was done comes back; with an error where a file under it failed.
fn back(alloc: Global, failed: bool, number: u64, bytes: Vec<u8>) -> Stepped
    ensures { result ≡ back_with failed number bytes.items }
{
    if failed {
        Stepped::Back(
            number,
            Bytes::from_vec(Vec::new(alloc)),
            Some(ErrorValue::Io),
        )
    } else {
        Stepped::Back(number, Bytes::from_vec(bytes), None)
    }
}

/// An event replied to nobody; `idle` tells whether nobody waited for it.
fn done(idle: bool) -> Stepped
    ensures { result ≡ done_as idle }
{
    if idle { Stepped::Idle } else { Stepped::Done }
}

/// What came of an event; `idle` tells whether nobody waited for it.
pub(crate) fn stepped(alloc: Global, idle: bool, failed: bool, outcome: Outcome) -> Stepped
    ensures { result ≡ stepped_as idle failed outcome }
{
    match outcome {
        Outcome::Done | Outcome::Fault => done(idle),
        Outcome::Reply(number, Reply::Data(bytes)) => {
            back(alloc, failed, number, bytes.into_vec())
        }
        Outcome::Reply(number, Reply::Written | Reply::Flushed) => {
            back(alloc, failed, number, Vec::new(alloc))
        }
        Outcome::Reply(number, Reply::Refused(failure)) => Stepped::Back(
            number,
            Bytes::from_vec(Vec::new(alloc)),
            Some(error_of(failure)),
        ),
    }
}
