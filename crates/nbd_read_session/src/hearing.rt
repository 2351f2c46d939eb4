// What a client says is read.
ghost use Rattle.std.specs.Prelude.{◌≡◌, ℕ, List, length, IfOk, MatchBool};
ghost use Rattle.std.specs.Io.KnownBytes.{Consumes};
ghost use Rattle.nbd_read_session.specs.Heard.{IsShort, IsRead};

use std::io;
use std::io::{ErrorKind, Read};

/// Fills a buffer, or tells that the input ends before.
pub fn fill<R: Read>(reader: &mut R, out: &mut [u8]) -> io::Result<bool>
    ensures { IfOk result (λ whole. MatchBool whole (Consumes (R.remaining reader.old) (R.remaining reader.new) out.new) (IsShort (R.remaining reader.old) (length out.old))) }
{
    let mut at = 0;
    for _ in 0..u64::MAX {
        if out.len() <= at {
            return Ok(true);
        }
        match reader.read(&mut out[at..]) {
            Ok(0) => return Ok(false),
            Ok(n) => at += n,
            Err(error) => {
                if error.kind() != ErrorKind::Interrupted {
                    return Err(error);
                }
            }
        }
    }
    Err(ErrorKind::TimedOut.into())
}

/// How many bytes are read at once that nobody wants.
const PART: usize = 4096;

/// Reads so many bytes that nobody wants, or tells that the input ends before.
pub fn skip<R: Read>(reader: &mut R, count: u64) -> io::Result<bool>
    ensures { IfOk result (λ whole. MatchBool whole (IsRead (R.remaining reader.old) (R.remaining reader.new) count) (IsShort (R.remaining reader.old) count)) }
{
    let mut unwanted = [0u8; PART];
    let mut left = count;
    while 0 < left {
        let part = left.min(PART as u64) as usize;
        if !fill(reader, &mut unwanted[..part])? {
            return Ok(false);
        }
        left -= part as u64;
    }
    Ok(true)
}
