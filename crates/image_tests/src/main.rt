//! Images of disks that a Linux kernel wrote, served to clients and brought into texts of commands: `image_tests`, in a folder of both.
//!
//! **Clients.** NAME.heard are all bytes that a client sent, and NAME.said all that it is to be answered, over the images `origin` and
//! `store`, by a plain server in another language (bench/nbd_plain). For each name `NAME ok` is printed, or what is wrong:
//! an answer that differs, or one that is no front of it where the client left after any byte. Thirteen are connections of
//! real clients, recorded byte by byte (nbdinfo and nbdcopy of libnbd 1.14.2, qemu-img and qemu-io 7.2), of a server without
//! CAN_MULTI_CONN, whose flag alone is added to what they are answered; the others are worked out by the protocol's public
//! specification. A read that fails between two that do not is tried too, and reads of images that change meanwhile.
//!
//! **Texts.** NAME.img is an image, NAME.cmd a text that begins with the lines which give a disk its bytes, and then saves all of
//! that, and NAME.out what `dmrig` answers to it: the program `recorded_script_tests` runs the same two texts. `NAME ok` is printed where the
//! lines are those of the text, byte for byte, the answers tell the image, byte for byte, and answers that are cut, or have a
//! line more that is none, tell nothing but where; else what differs.
//!
//! It stands on `cow_nbd` and `image_to_dmrig`. It promises that a name is told as well only where all of that is so.
#![tactic(auto)]

mod clients;
mod failing_reads;
mod recordings;
mod session;
mod spoken;
mod texts;
mod wrong_answers;

use crate::clients::are_served;
use crate::texts::are_spoken;
use std::io;
use std::io::{BufWriter, Write};
use std::process::ExitCode;

fn main(rt: HostRuntime) -> io::Result<ExitCode> {
    let mut writer = BufWriter::new(rt.alloc(), io::writer(&rt))?;
    let served = are_served(&rt, &mut writer)?;
    let spoken = are_spoken(&rt, &mut writer)?;
    writer.flush()?;
    Ok(ExitCode::from(if served && spoken { 0 } else { 1 }))
}
