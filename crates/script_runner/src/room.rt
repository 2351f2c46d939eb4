// The memory of a write's many bytes, which the next such write uses again.

use command::{Command, MANY_BYTES};
use sector::{Buf, SECTOR_BYTES};
use std::alloc::Global;
use std::mem;

/// Takes the memory of bytes back that are many, and leaves none of them; that of fewer stays theirs.
pub fn take_back(alloc: Global, room: &mut Vec<u8>, bytes: &mut Buf) {
    if bytes.len() > MANY_BYTES {
        *room = mem::replace(bytes, Buf::from_vec(Vec::new(alloc))).into_vec();
    }
}

/// Whether the room is given back before a command, which may take as much memory itself: a read of many sectors, a device over
/// a written store, or a merge, before which long writes have ended.
pub fn ends_writes(command: &Command) -> bool {
    match command {
        Command::Read { count, .. } => *count as usize > MANY_BYTES / SECTOR_BYTES,
        Command::Create { .. } | Command::Merge { .. } => true,
        _ => false,
    }
}
