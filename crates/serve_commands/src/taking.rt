// A snapshot is taken over an empty store.
ghost use Rattle.std.specs.Prelude.{◌≡◌, if◌then◌else◌};
ghost use Rattle.serve_commands.specs.Troubles.{is_of_origin, why_by};

use sector::Refusal;
use serve_files::{Given, Pair, StoreFault, Trouble, Why, has_streams, list_beside, opened_pair};
use std::io::Write;
use volume_opening::NotOpened;

/// The words of a snapshot that is to be taken.
#[derive(Clone, Copy)]
pub struct Taking<'a> {
    pub origin: &'a str,
    pub cow: &'a str,
    /// The sectors of a chunk.
    pub chunk: u32,
}

/// Takes a snapshot of an origin over an empty store, and tells so.
pub fn take<'a, E: Write>(
    rt: &'a HostRuntime,
    words: Taking<'a>,
    errors: &mut E,
) -> Result<(), Trouble<'a>> {
    has_streams(rt)?;
    let Taking { origin, cow, chunk } = words;
    let pair = opened_pair(rt, origin, cow)?;
    let mut list = list_beside(rt, origin)?;
    let given = Given {
        merge: None,
        cows: &[cow],
        others: true,
    };
    list.is_served(rt, given)?;
    let Pair {
        origin: device,
        store,
    } = pair;
    match volume_opening::take(rt.alloc(), device, store, chunk) {
        Ok(_volume) => {
            list.add(rt, cow)?;
            let _ = writeln!(errors, "taken {cow}");
            Ok(())
        }
        Err(why) => Err(trouble_of(why, words)),
    }
}

/// What went wrong where no snapshot is opened, with chunks of so many sectors.
fn why_of(why: NotOpened, chunk: u32) -> Why
    ensures { result ≡ why_by chunk why }
{
    match why {
        NotOpened::NoMemory => Why::NoMemory,
        NotOpened::Written => Why::Store(StoreFault::Written),
        NotOpened::Fresh => Why::Store(StoreFault::Fresh),
        NotOpened::Refused(Refusal::StoreTooSmall) => {
            Why::Store(StoreFault::TooSmall(1024 * u64::from(chunk)))
        }
        NotOpened::Refused(refusal) => Why::Store(StoreFault::Refused(refusal)),
        NotOpened::OriginFailed | NotOpened::StoreFailed => Why::Failed,
    }
}

/// With which file it went wrong, and what.
pub fn trouble_of<'a>(why: NotOpened, words: Taking<'a>) -> Trouble<'a>
    ensures name { result.name.now ≡ (if is_of_origin why then words.entry.origin.now else words.entry.cow.now) }
    ensures why { result.why ≡ why_by words.entry.chunk why }
{
    let name = if why == NotOpened::OriginFailed {
        words.origin
    } else {
        words.cow
    };
    let why = why_of(why, words.chunk);
    Trouble { name, why }
}
