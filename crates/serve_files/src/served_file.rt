// A file that is locked, and of a size that is served.
ghost use Rattle.std.specs.Prelude.{◌≡◌, ◌*◌, ◌<◌, ◌≤◌, IfErr, IfOk};
ghost use Rattle.serve_files.specs.Names.{IsAbout};

use crate::opening::OpenFile;
use crate::trouble::{Trouble, Why, about};
use serve_options::MOST_BYTES;
use std::fs::File;

/// A file that is open and locked, and how many sectors it has: 1 to 2^31. Only `served` makes one.
#[derive(Drop)]
pub struct ServedFile<'a> {
    pub(crate) name: &'a str,
    pub(crate) file: File,
    pub(crate) sectors: u64,
    pub ghost some: { 0 < sectors },
    pub ghost small: { sectors ≤ 2_147_483_648 },
}

/// Locks a file that is to be served, and looks how long it is.
pub fn served<'a>(rt: &HostRuntime, opened: OpenFile<'a>) -> Result<ServedFile<'a>, Trouble<'a>>
    ensures named { IfOk result (λ served. served.name.now ≡ opened.entry.name.now) }
    ensures told { IfErr result (IsAbout opened.entry.name.now) }
{
    opened.is_alone(rt)?;
    let OpenFile { name, file, .. } = opened;
    let bytes = about(name, file.metadata())?.len();
    let sectors = sectors_of(name, bytes)?;
    Ok(ServedFile {
        name,
        file,
        sectors,
    })
}

/// How many sectors so many bytes are.
fn sectors_of<'a>(name: &'a str, bytes: u64) -> Result<u64, Trouble<'a>>
    ensures ok { IfOk result (λ sectors. (0 < sectors) × (sectors ≤ 2_147_483_648) × (512 * sectors ≡ bytes)) }
    ensures told { IfErr result (IsAbout name.now) }
{
    let why = if bytes == 0 {
        Why::Empty
    } else if MOST_BYTES < bytes {
        Why::TooLarge(bytes)
    } else if bytes % 512 != 0 {
        Why::PartOfSector(bytes)
    } else {
        return Ok(bytes / 512);
    };
    Err(Trouble { name, why })
}
